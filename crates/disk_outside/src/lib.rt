//! The files and the streams of the machine, as a source and a sink.
#![tactic(auto)]

mod disk_sink;
mod disk_source;

pub use disk_sink::DiskSink;
pub use disk_source::DiskSource;
