//! A host's queue of events, least key first.
#![tactic(auto)]

mod behind;
pub mod laws;
mod queue;

pub use queue::{Queue, Refused};
