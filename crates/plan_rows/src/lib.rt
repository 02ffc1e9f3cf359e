//! The rows of hosts and the net that a run begins with, as its plan says them.
#![tactic(auto)]

mod rows;

pub use rows::{cut_lookahead, known_of, nodes_of, rows_of};
