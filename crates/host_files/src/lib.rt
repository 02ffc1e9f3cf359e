//! What the descriptors of a host's processes name: open files, pipes, timers, eventfds and epolls,
//! each by a number.
#![tactic(auto)]

mod epolls;
mod file;
mod files;
mod slots;
mod timer;

pub use epolls::Epolls;
pub use file::{File, Object};
pub use files::Files;
pub use timer::KeptTimer;
