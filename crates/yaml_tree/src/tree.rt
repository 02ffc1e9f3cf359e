//! The tree of a text.

ghost use Rattle.std.specs.Prelude.{◌<◌, length};

use crate::node::Node;
use crate::nodes::Nodes;

/// A tree: its nodes by number, the number of the root, and whether the document is empty.
#[derive(Drop)]
pub struct Tree {
    pub(crate) nodes: Nodes,
    pub(crate) root: u32,
    pub(crate) empty: bool,
    pub ghost in_range: { root < length nodes },
}

impl Tree {
    ghost use Rattle.std.specs.Prelude.{◌≡◌, Some, slice_get};
    ghost use Rattle.yaml_tree.specs.Trees.{nodes_of, root_of, node_count, is_empty};

    /// The root's node.
    pub fn root(&self) -> &Node
        ensures { slice_get (nodes_of self.now) (root_of self.now) ≡ Some result.now }
    {
        self.nodes.get(self.root as usize)
    }

    /// How many nodes the tree has.
    pub fn len(&self) -> usize
        ensures { result ≡ node_count self.now }
    {
        self.nodes.len()
    }

    /// The nodes, by number.
    pub fn nodes(&self) -> &[Node]
        ensures { result.now ≡ nodes_of self.now }
    {
        self.nodes.as_slice()
    }

    /// The node of a number.
    pub fn node(&self, number: u32) -> &Node
        requires { number < node_count self.now }
        ensures { slice_get (nodes_of self.now) number ≡ Some result.now }
    {
        self.nodes.get(number as usize)
    }

    /// Whether the document is empty, a name aside. The root is a null then; but where `~`, `null`
    /// or another value is written, the document isn't empty.
    pub fn is_empty(&self) -> bool
        ensures { result ≡ is_empty self.now }
    {
        self.empty
    }
}
