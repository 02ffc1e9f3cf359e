//! The nodes that are whole so far.

ghost use Rattle.std.specs.Prelude.{◌≡◌, ◌^◌, ◌<◌, ◌≤◌, ◌++◌, ◌∷◌, ◌↔◌, [], length, IfSome, IfNone, IfOk, OnOk, IsTrue};

use crate::gone::Gone;
use crate::known::MOST_NODES;
use crate::node::Node;
use crate::nodes::Nodes;
use sim_base::NoMemory;
use std::alloc::Global;
use std::marker::Model;

/// Nodes by number, which contracts see as a list. No more are kept than a tree has at most, and none
/// from the first one on that no tree may have: a line may make millions, but such a text is refused
/// at the line's end.
#[derive(Drop)]
pub(crate) struct MadeNodes {
    kept: Nodes,
    gone: Gone,
}

impl Model for MadeNodes {
    ghost use Rattle.std.specs.Prelude.{List, ◌++◌};
    ghost use Rattle.yaml_tree.specs.declared.node.Node.{Node};

    ghost Value = { List Node };

    ghost view = { λ n. n.kept ++ n.gone };
}

impl MadeNodes {
    pub fn new(alloc: Global) -> MadeNodes
        ensures { result ≡ [] }
    {
        MadeNodes {
            kept: Nodes::new(alloc),
            gone: Gone::new(),
        }
    }

    /// The number of the next node, unless there are 2^32 or more.
    pub fn next_number(&self) -> Option<u32>
        ensures some { IfSome result (λ n. n ≡ length self.now) }
        ensures none { IfNone result (2 ^ 32 ≤ length self.now) }
    {
        match u32::try_from(self.kept.len()) {
            Ok(kept) => kept.checked_add(self.gone.len()),
            Err(_) => None,
        }
    }

    /// Adds a node. `may_stand` says whether a tree may have it.
    pub fn push(&mut self, node: Node, may_stand: bool) -> Result<(), NoMemory>
        ensures { OnOk result (self.new ≡ self.old ++ node ∷ []) }
    {
        if may_stand && has_room(&self.kept, &self.gone) {
            self.kept.push(node)
        } else {
            self.gone.push(node)
        }
    }

    /// The nodes of a whole text. All of them are kept, since a text with others is refused before.
    pub fn into_nodes(self) -> Result<Nodes, NoMemory>
        ensures { IfOk result (λ nodes. nodes ≡ self) }
    {
        let MadeNodes { kept, gone } = self;
        if gone.is_empty() {
            Ok(kept)
        } else {
            Err(NoMemory)
        }
    }
}

/// Whether a node more may be kept.
fn has_room(kept: &Nodes, gone: &Gone) -> bool
    ensures { IsTrue result ↔ (gone.now ≡ []) × (length kept.now < MOST_NODES) }
{
    gone.is_empty() && kept.len() < MOST_NODES as usize
}
