//! What a plan comes to, why it stops before its end, and what is put of either where nothing is run: the line of a stop, a
//! configuration, the lines of a capture.
#![tactic(auto)]

mod answer;
mod captured;
mod configured;
mod telling;

pub use answer::{Answer, Stop, ended};
pub use captured::list_capture;
pub use configured::show_config;
pub use telling::tell_stop;
