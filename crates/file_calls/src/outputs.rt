//! What processes wrote.

ghost use Rattle.std.specs.Prelude.{◌≡◌, ◌++◌, ◌∷◌, [], OnOk};

use crate::task::Output;
use sim_base::NoMemory;
use std::alloc::Global;
use std::marker::Model;
use std::mem;

/// What processes wrote, in order. Contracts see a list.
#[derive(Drop)]
pub struct Outputs {
    items: Vec<Output>,
}

impl Model for Outputs {
    ghost use Rattle.std.specs.Prelude.{List};
    ghost use Rattle.file_calls.specs.declared.task.Output.{Output};

    ghost Value = { List Output };

    ghost view = { λ o. o.items.items };
}

impl Outputs {
    /// Nothing.
    pub fn new(alloc: Global) -> Outputs
        ensures { result ≡ [] }
    {
        Outputs {
            items: Vec::new(alloc),
        }
    }

    /// Adds one behind the others.
    pub fn push(&mut self, output: Output) -> Result<(), NoMemory>
        ensures { OnOk result (self.new ≡ self.old ++ output ∷ []) }
    {
        self.items.push(output)?;
        Ok(())
    }

    /// Takes all of them.
    pub fn take(&mut self) -> Vec<Output>
        ensures taken { result.items ≡ self.old }
        ensures none { self.new ≡ [] }
    {
        let alloc = *self.items.allocator();
        mem::replace(&mut self.items, Vec::new(alloc))
    }
}
