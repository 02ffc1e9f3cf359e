//! The graph of a network, read from a GML text.
#![tactic(auto)]

mod asked;
mod block;
mod edge;
mod fault;
mod graph;
pub mod laws;
mod node;
mod number;
mod outline;
mod reading;
mod scanner;
mod token;
mod value;

pub use fault::{GmlError, GmlFault, GmlKind};
pub use graph::{Edge, Edges, Graph, Node, Nodes};
pub use reading::read_gml;
