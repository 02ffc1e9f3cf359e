//! The tree of a YAML text, in this project's own profile of YAML 1.2.
#![tactic(auto)]

mod builder;
mod entries;
mod fault;
mod flow;
mod frame;
mod gone;
mod growing;
mod hashing;
mod known;
pub mod laws;
mod literal;
mod made;
mod node;
mod nodes;
mod numbers;
mod reading;
mod shape;
mod stack;
mod tree;

pub use entries::{Child, Entries};
pub use fault::{FaultKind, TreeError, YamlFault};
pub use hashing::TextHashers;
pub use node::{Node, Value};
pub use nodes::Nodes;
pub use numbers::Numbers;
pub use reading::read_tree;
pub use tree::Tree;
pub use yaml_tokens::Scalar;
