//! The outside of a run: a source of files by name, and a sink for what is shown.
#![tactic(auto)]

mod loops;
mod sink;
mod source;
mod tally;

pub use loops::{put_all, read_all};
pub use sink::{Sink, SinkTarget, WriteError};
pub use source::{ReadError, Source};
pub use tally::Tally;
