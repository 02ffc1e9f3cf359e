//! Sets and bags of numbers, in which the least number that is absent is found 64 at a time, and bags
//! of ports.
#![tactic(auto)]

mod bag;
mod bits;
mod ports;
mod set;

pub use bag::NumberBag;
pub use ports::{FIRST_GIVEN, GIVEN, free_port, given_end, recount};
pub use set::NumberSet;
