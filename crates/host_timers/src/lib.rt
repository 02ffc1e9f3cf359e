//! The clocks and timers of a guest.
#![tactic(auto)]

mod clock;
mod timer;

pub use clock::{Clock, Moment};
pub use timer::Timer;
