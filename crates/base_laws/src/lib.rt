//! Laws of addresses and ports, of datagram sockets and of timers. Definitions of other crates alone, and no code that runs.
#![tactic(auto)]

pub mod ports;
pub mod sockets;
pub mod timers;
