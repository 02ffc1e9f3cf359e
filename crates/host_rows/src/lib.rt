//! The rows of hosts and of their processes: what a configuration and a graph say of them, and hosts open from.
#![tactic(auto)]

mod row;

pub use row::{ByteTexts, FinalState, ProcessRow, ProcessRows, Row};
