//! The arguments of system calls in a guest's memory: spans of bytes, times and addresses.
#![tactic(auto)]

mod address;
mod span;
mod time;

pub use address::{
    AddressPlace, address_span, answer, family_of, sockaddr, sockaddr_of, wanted_place,
};
pub use span::{block, counted, eight, fill, four, sixteen, thirty_two};
pub use time::{deadline_after, deadline_at, time_span, timespec, timespec_of};
