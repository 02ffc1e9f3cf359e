//! Events, and packets on their way to another host.

use crate::alarm::AlarmTarget;
use crate::host::HostId;
use crate::key::Key;
use crate::packet::Packet;

/// What an event does. A process is named by its place in its host's list, from 0.
#[derive(Drop)]
pub enum What {
    /// The process is made and runs a slice.
    Start(u32),
    /// A blocked process calls its kept call again, or a paused one runs on.
    Go(u32),
    /// The process ends by its shutdown signal, if it has not ended.
    Shutdown(u32),
    /// A deadline of a blocked call, of a timer or of a connection has come. A stale serial does
    /// nothing.
    Alarm { target: AlarmTarget, serial: u64 },
    /// A packet to an address of the host itself arrives.
    Loop(Packet),
    /// The lane towards the network releases packets.
    Up,
    /// The lane of the host's router releases packets.
    Down,
    /// A packet of another host arrives at the router.
    Packet(Packet),
}

/// Something that happens at a moment of simulated time.
#[derive(Drop)]
pub struct Event {
    pub key: Key,
    pub what: What,
}

/// A packet that one host made for another, with the key of the event that it will be there.
#[derive(Drop)]
pub struct Parcel {
    pub key: Key,
    pub to: HostId,
    pub packet: Packet,
}
