//! Which calls of an outside in memory fail.

ghost use Rattle.std.specs.Prelude.{◌≡◌, ◌++◌, ◌∷◌, [], OnOk, OnErr, IsTrue, ◌↔◌};
ghost use Rattle.memory_outside.specs.Calls.{Makes, Fails, no_calls};

use sim_base::NoMemory;
use std::alloc::Global;
use std::marker::Model;

/// Counts calls, and fails those whose numbers, from 1, it was told.
#[derive(Drop)]
pub struct Calls {
    made: u64,
    failing: Vec<u64>,
    faults: u64,
}

impl Model for Calls {
    ghost use Rattle.memory_outside.specs.Calls.{CallCount};

    ghost Value = { CallCount };

    ghost view = { λ c. record { made = c.made; failing = c.failing.items; faults = c.faults } };
}

impl Calls {
    pub fn new(alloc: Global) -> Calls
        ensures { result ≡ no_calls }
    {
        Calls {
            made: 0,
            failing: Vec::new(alloc),
            faults: 0,
        }
    }

    /// Has the call of this number fail.
    pub fn fail_at(&mut self, call: u64) -> Result<(), NoMemory>
        ensures ok { OnOk result (self.new ≡ record self.old { failing = self.old.failing ++ call ∷ [] }) }
        ensures err { OnErr result (self.new ≡ self.old) }
    {
        self.failing.push(call)?;
        Ok(())
    }

    /// How many calls were made.
    pub fn made(&self) -> u64
        ensures { result ≡ self.now.made }
    {
        self.made
    }

    /// Counts a call, and says whether it fails.
    pub fn next_fails(&mut self) -> bool
        ensures fails { IsTrue result ↔ Fails self.old }
        ensures counted { Makes result self.old self.new }
    {
        self.made = self.made.saturating_add(1);
        let fails = self.failing.contains(&self.made);
        if fails {
            self.faults = self.faults.saturating_add(1);
        }
        fails
    }
}
