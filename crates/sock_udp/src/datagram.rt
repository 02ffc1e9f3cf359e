//! Datagrams.

use sim_base::{Addr, Bytes};

/// A datagram that waits, with its sender.
#[derive(Drop)]
pub struct Datagram {
    pub from: Addr,
    pub bytes: Bytes,
}

/// How many bytes of a datagram were received, and its sender.
#[derive(Clone, Copy)]
pub struct Received {
    pub bytes: usize,
    pub from: Addr,
}
