//! The exact bytes of each line and file name that the simulator writes.
#![tactic(auto)]

mod address;
mod captured;
mod faults;
mod files;
mod hosts;
pub mod laws;
mod log;
mod pushed;
mod streams;
mod summary;

pub use captured::{cut_line, packet_line};
pub use faults::{FaultText, fault_line, note_line};
pub use files::{FileKind, capture_name, file_name, state_line};
pub use hosts::{HostLine, hosts_text};
pub use log::log_line;
pub use streams::{Fate, Stream, stream_line};
pub use summary::{Summary, summary_line};
