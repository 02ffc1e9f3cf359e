//! Lines of the packet log.

use sim_base::{Act, HostId, Key, Packet, Time};

/// What happened to a packet, when and at which host.
#[derive(Drop)]
pub struct Line {
    pub time: Time,
    pub host: HostId,
    pub act: Act,
    pub packet: Packet,
}

/// A line with the key of the event whose firing it is from.
#[derive(Drop)]
pub struct Logged {
    pub key: Key,
    pub line: Line,
}
