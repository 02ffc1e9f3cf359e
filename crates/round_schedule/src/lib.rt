//! The schedule of a round: several workers take hosts, fire their events, put the packets that are
//! made for other hosts, and give the hosts back, one step at a time and in any order that is allowed.
#![tactic(auto)]

mod allowing;
mod closing;
mod firing;
mod laws;
mod member;
mod putting;
mod round;
mod round_laws;
mod schedule;
mod taking;

pub use laws::every_schedule;
pub use round::Round;
pub use round_laws::{closed_round, rounds, same_end, whole_turns};
pub use schedule::law_schedule;
