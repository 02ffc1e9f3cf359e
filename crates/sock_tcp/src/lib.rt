//! TCP connections and listeners (a profile of RFC 9293): what segments, processes and timers do to
//! them.
#![tactic(auto)]

mod connection;
mod listener;
mod segment;

pub use connection::{Carried, Conn, Counts, Effects, Opened, Shut};
pub use listener::Listener;
pub use segment::{Congestion, Control, Distance, Header, Phase, TcpState, Verdict, refusal};
