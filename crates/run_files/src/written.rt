//! What the processes of hosts wrote, host by host.

ghost use Rattle.std.specs.Prelude.{◌≡◌, ◌++◌, ◌∷◌, [], OnOk};
ghost use Rattle.run_files.specs.Written.{written_in};

use file_calls::Output;
use sim_base::NoMemory;
use std::alloc::Global;

/// What the processes of a host wrote, and how many hosts stand right before it that wrote nothing.
#[derive(Drop)]
pub struct HostWritten {
    pub silent: usize,
    pub outputs: Vec<Output>,
}

/// What the processes of all hosts wrote, each host's by its place. Hosts that wrote nothing are only counted: before each host that
/// wrote, and behind the last of these.
#[derive(Drop)]
pub struct Written {
    pub hosts: Vec<HostWritten>,
    pub silent: usize,
}

impl Written {
    /// Of no host.
    pub fn new(alloc: Global) -> Written
        ensures { written_in result ≡ [] }
    {
        Written {
            hosts: Vec::new(alloc),
            silent: 0,
        }
    }

    /// Of one host more, which wrote this.
    pub fn push(&mut self, outputs: Vec<Output>) -> Result<(), NoMemory>
        ensures { OnOk result (written_in self.new ≡ written_in self.old ++ outputs.items ∷ []) }
    {
        if outputs.is_empty() {
            return self.push_silent();
        }
        let silent = self.silent;
        self.hosts.push(HostWritten { silent, outputs })?;
        self.silent = 0;
        Ok(())
    }

    /// Of one host more, which wrote nothing. So many of them that there is no number for them have no room.
    pub fn push_silent(&mut self) -> Result<(), NoMemory>
        ensures { OnOk result (written_in self.new ≡ written_in self.old ++ [] ∷ []) }
    {
        let Some(silent) = self.silent.checked_add(1) else {
            return Err(NoMemory);
        };
        self.silent = silent;
        Ok(())
    }
}
