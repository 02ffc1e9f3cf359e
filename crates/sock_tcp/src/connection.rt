//! The connections of TCP (a profile of RFC 9293).

mod acknowledgement;
mod arrival;
mod calls;
mod carried;
mod congestion;
mod conn;
mod effects;
mod ending;
mod expiry;
mod lookup;
mod output;
mod process;
mod readiness;
mod resets;
mod retransmission;
mod segment;
mod text;
mod timer;

pub use carried::{Carried, Counts, add_carried};
pub use conn::Conn;
pub use effects::{Draft, Effects, Opened, Shut};
pub use lookup::place_in;
pub use readiness::bit_if;
pub use resets::reset_all;
