//! What a run begins with, with what a run by rounds asks of it.
#![tactic(auto)]

mod opened;

pub use opened::{Opened, open, prepare};
