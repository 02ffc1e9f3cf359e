//! What limits a host's rate: a bucket of tokens, and the lane of packets that wait for them.
#![tactic(auto)]

mod bucket;
mod codel;
mod lane;
pub mod laws;

pub use bucket::Bucket;
pub use codel::{CodelState, isqrt};
pub use lane::{Lane, Pushed, QueueRule, Released};
