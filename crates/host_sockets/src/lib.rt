//! The sockets of a host: what its network stack does at calls of processes, at packets that arrive
//! and at alarms, without guest memory and without descriptors.
#![tactic(auto)]

mod accept;
mod asking;
mod binding;
mod connect;
mod deliver;
mod given;
mod glance;
mod heard;
mod index;
mod moving;
mod names;
mod ports;
mod ready;
mod reply;
mod rises;
mod room;
mod slots;
mod sockets;
mod streams;
mod tables;
mod tcp_acts;
mod tcp_close;
mod tcp_sock;
mod turned;
mod udp;
mod udp_socks;

pub use glance::Glance;
pub use reply::{Accepted, Reply};
pub use sockets::Sockets;
pub use streams::HostStream;
pub use tcp_sock::{KeptTimer, TcpSock};
