//! A host, and what one event does to it.
#![tactic(auto)]

mod acting;
mod firing;
mod host;
mod running;
mod slice;
mod streams;

pub use host::Host;
pub use host_sockets::HostStream;
