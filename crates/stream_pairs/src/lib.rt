//! What hosts keep of their connections, put together: what became of the bytes that each end wrote.
#![tactic(auto)]

mod entries;
mod kept;
mod other_end;
mod pairing;

pub use kept::KeptStreams;
pub use pairing::directions;
