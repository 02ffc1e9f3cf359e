//! Arcs: the ways that leave a place.

ghost use Rattle.std.specs.Prelude.{◌≡◌, ◌++◌, ◌∷◌, [], OnOk};

use crate::cost::Cost;
use sim_base::NoMemory;
use std::alloc::Global;
use std::marker::Model;

/// A way to a place.
#[derive(Clone, Copy)]
pub struct Arc {
    pub to: usize,
    pub cost: Cost,
}

/// The arcs that leave a place, which contracts see as a list.
#[derive(Drop)]
pub struct Arcs {
    arcs: Vec<Arc>,
}

impl Model for Arcs {
    ghost use Rattle.std.specs.Prelude.{List};
    ghost use Rattle.net_routes.specs.declared.arc.Arc.{Arc};

    ghost Value = { List Arc };

    ghost view = { λ r. r.arcs.items };
}

impl Arcs {
    pub fn new(alloc: Global) -> Arcs
        ensures { result ≡ [] }
    {
        Arcs {
            arcs: Vec::new(alloc),
        }
    }

    pub fn push(&mut self, arc: Arc) -> Result<(), NoMemory>
        ensures { OnOk result (self.new ≡ self.old ++ arc ∷ []) }
    {
        self.arcs.push(arc)?;
        Ok(())
    }

    pub fn as_slice(&self) -> &[Arc]
        ensures { result.now ≡ self.now }
    {
        self.arcs.as_slice()
    }
}
