//! The nodes of a tree.

use crate::entries::Entries;
use crate::numbers::Numbers;
use yaml_tokens::Scalar;

/// What a node is.
#[derive(Drop)]
pub enum Value {
    /// Plain `~` or `null`, or nothing.
    Null,
    /// Any other scalar.
    Text(Scalar),
    Sequence(Numbers),
    Mapping(Entries),
}

/// A node and the line on which it begins.
#[derive(Drop)]
pub struct Node {
    pub line: usize,
    pub value: Value,
}
