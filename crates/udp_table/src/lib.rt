//! The UDP sockets of a host as ports and datagrams see them: what each is bound and connected to. A
//! free number, a free port and the socket that takes a datagram are found without a look at each.
#![tactic(auto)]

mod bound;
mod ends;
mod index;
mod table;

pub use table::UdpTable;
