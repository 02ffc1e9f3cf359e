//! The nodes of a tree, in the order in which they were whole.

ghost use Rattle.std.specs.Prelude.{◌≡◌, ◌++◌, ◌∷◌, ◌<◌, List, ℕ, [], Some, OnOk, length, slice_get};
ghost use Rattle.yaml_tree.specs.declared.node.Node.{Node};

use crate::node::Node;
use sim_base::NoMemory;
use std::alloc::Global;
use std::marker::Model;

/// Nodes by number, which contracts see as a list.
#[derive(Drop)]
pub struct Nodes {
    items: Vec<Node>,
}

impl Model for Nodes {
    ghost Value = { List Node };

    ghost view = { λ n. n.items.items };
}

impl Nodes {
    pub fn new(alloc: Global) -> Nodes
        ensures { result ≡ [] }
    {
        Nodes {
            items: Vec::new(alloc),
        }
    }

    pub fn as_slice(&self) -> &[Node]
        ensures { result.now ≡ self.now }
    {
        self.items.as_slice()
    }

    pub fn len(&self) -> usize
        ensures { result ≡ length self.now }
    {
        self.items.len()
    }

    pub fn push(&mut self, node: Node) -> Result<(), NoMemory>
        ensures { OnOk result (self.new ≡ self.old ++ node ∷ []) }
    {
        match self.items.push(node) {
            Ok(()) => Ok(()),
            Err(_) => Err(NoMemory),
        }
    }

    pub fn get(&self, number: usize) -> &Node
        requires { number < length self.now }
        ensures { slice_get self.now number ≡ Some result.now }
    {
        &self.items[number]
    }
}
