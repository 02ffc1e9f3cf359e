//! UDP sockets: what a socket is bound and connected to, and the datagrams that wait in it.
#![tactic(auto)]

mod datagram;
mod ends;
mod error;
mod filters;
mod socket;

pub use datagram::{Datagram, Received};
pub use ends::UdpEnds;
pub use error::UdpError;
pub use socket::UdpSock;
