//! The world of hosts, and the rounds in which several workers fire its events: definitions, and laws of them.
#![tactic(auto)]

mod laws;
mod round_window;
mod step;

pub use laws::{least_event, window};
pub use round_window::Window;
pub use step::{Spot, Step};
