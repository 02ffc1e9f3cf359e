//! A process of a guest: what it starts with, and its turns.
#![tactic(auto)]

mod process;
mod start;
mod turning;

pub use process::{Process, Running, not_started};
pub use start::{Started, start_guest, texts_fit};
pub use turning::turn_slot;
