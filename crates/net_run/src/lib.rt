//! What is shown of a run over all hosts of a network.
#![tactic(auto)]

mod ending;
mod gathered;
mod heads;
mod laws;
mod notes;
mod output;
mod process_pieces;
mod streams;

pub use ending::put_rest;
pub use gathered::Gathered;
pub use heads::put_heads;
pub use laws::{parts_are_between, runs_grow};
pub use notes::put_notes;
pub use streams::put_streams;
