//! The random words that hosts draw.
#![tactic(auto)]

mod draws;

pub use draws::{Draws, Seeds};
