//! Nodes that are let go.

ghost use Rattle.std.specs.Prelude.{◌≡◌, ◌+◌, ◌^◌, ◌≤◌, ◌++◌, ◌∷◌, ◌↔◌, [], length, IsTrue, OnOk, OnErr};

use crate::node::Node;
use sim_base::NoMemory;
use std::marker::Model;
use std::snapshot::Snapshot;

/// Nodes that are let go, which contracts still see as a list: there is no more of them in memory
/// than their count.
#[derive(Drop)]
pub(crate) struct Gone {
    count: u32,
    last: Option<(Snapshot<Node>, Snapshot<Gone>)>,
}

impl Model for Gone {
    ghost use Rattle.std.specs.Prelude.{◌≡◌, List, length};
    ghost use Rattle.yaml_tree.specs.declared.node.Node.{Node};

    ghost Value = { List Node };

    ghost use Rattle.yaml_tree.specs.inside.Gone.{gone};

    ghost view = { λ g. gone g.last };

    ghost invariant = { λ g. g.count ≡ length (gone g.last) };

    ghost size = { length };

    ghost use Rattle.std.proofs.Common.{arith, length-append};

    ghost size_decreases = { λ a h. Prim.grind (arith, length-append) };
}

impl Gone {
    pub fn new() -> Gone
        ensures { result ≡ [] }
    {
        Gone {
            count: 0,
            last: None,
        }
    }

    pub fn len(&self) -> u32
        ensures { result ≡ length self.now }
    {
        self.count
    }

    pub fn is_empty(&self) -> bool
        ensures { IsTrue result ↔ self.now ≡ [] }
    {
        self.count == 0
    }

    /// Lets a node go, unless 2^32 - 1 are gone.
    pub fn push(&mut self, node: Node) -> Result<(), NoMemory>
        ensures pushed { OnOk result (self.new ≡ self.old ++ node ∷ []) }
        ensures full { OnErr result (2 ^ 32 ≤ length self.old + 1) }
    {
        let Some(count) = self.count.checked_add(1) else {
            return Err(NoMemory);
        };
        let before = Snapshot::of(self);
        self.last = Some((Snapshot::of(&node), before));
        self.count = count;
        Ok(())
    }
}
