//! Lists of the parts of a configuration.

ghost use Rattle.std.specs.Prelude.{◌≡◌};

use crate::config::{HostConfig, ProcessConfig, Variable};
use std::alloc::Global;
use std::marker::Model;

/// The variables of an environment in order, which contracts see as a list.
#[derive(Drop)]
pub struct Variables {
    items: Vec<Variable>,
}

impl Model for Variables {
    ghost use Rattle.std.specs.Prelude.{List};
    ghost use Rattle.shd_config.specs.declared.config.Variable.{Variable};

    ghost Value = { List Variable };

    ghost view = { λ t. t.items.items };
}

impl Variables {
    pub fn as_slice(&self) -> &[Variable]
        ensures { result.now ≡ self.now }
    {
        self.items.as_slice()
    }
}

impl From<Vec<Variable>> for Variables {
    ghost from_gives = { λ v t. t ≡ v.items };

    fn from(items: Vec<Variable>) -> Variables {
        Variables { items }
    }
}

/// The processes of a host in order, which contracts see as a list.
#[derive(Drop)]
pub struct Processes {
    items: Vec<ProcessConfig>,
}

impl Model for Processes {
    ghost use Rattle.std.specs.Prelude.{List};
    ghost use Rattle.shd_config.specs.declared.config.ProcessConfig.{ProcessConfig};

    ghost Value = { List ProcessConfig };

    ghost view = { λ t. t.items.items };
}

impl Processes {
    pub fn as_slice(&self) -> &[ProcessConfig]
        ensures { result.now ≡ self.now }
    {
        self.items.as_slice()
    }
}

impl From<Vec<ProcessConfig>> for Processes {
    ghost from_gives = { λ v t. t ≡ v.items };

    fn from(items: Vec<ProcessConfig>) -> Processes {
        Processes { items }
    }
}

/// Hosts in order, which contracts see as a list.
#[derive(Drop)]
pub struct Hosts {
    items: Vec<HostConfig>,
}

impl Model for Hosts {
    ghost use Rattle.std.specs.Prelude.{List};
    ghost use Rattle.shd_config.specs.declared.config.HostConfig.{HostConfig};

    ghost Value = { List HostConfig };

    ghost view = { λ t. t.items.items };
}

impl Hosts {
    pub fn as_slice(&self) -> &[HostConfig]
        ensures { result.now ≡ self.now }
    {
        self.items.as_slice()
    }

    /// The allocator that the list was made with.
    pub fn allocator(&self) -> Global {
        *self.items.allocator()
    }

    /// Gives the hosts back without taking memory.
    pub fn into_vec(self) -> Vec<HostConfig>
        ensures { result.items ≡ self }
    {
        let Hosts { items } = self;
        items
    }
}

impl From<Vec<HostConfig>> for Hosts {
    ghost from_gives = { λ v t. t ≡ v.items };

    fn from(items: Vec<HostConfig>) -> Hosts {
        Hosts { items }
    }
}
