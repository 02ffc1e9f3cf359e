//! The headers, numbers, states and verdicts of TCP segments (a profile of RFC 9293).

mod congestion;
mod control;
mod header;
mod number;
mod state;
mod unmatched;
mod verdict;

pub use congestion::Congestion;
pub use control::Control;
pub use header::Header;
pub use number::{Distance, distance_to, number_at, number_past};
pub use state::{Phase, TcpState};
pub use unmatched::refusal;
pub use verdict::{Verdict, verdict_on};
