//! The merged tree: the tree of a YAML text with each merge key replaced by its pairs.
#![tactic(auto)]

mod fault;
pub mod laws;
mod merging;
mod plain;
mod taken;

pub use fault::{MergeError, MergeFault};
pub use merging::merge;
pub use plain::{Pair, Plain};
