//! A source and a sink in memory, for tests and for programs that hold their files themselves.
#![tactic(auto)]

mod calls;
mod sink;
mod source;

pub use sink::MemSink;
pub use source::MemSource;
