//! What a capture tells.

ghost use Rattle.std.specs.Prelude.{◌≡◌, IfOk};
ghost use Rattle.pcap_text.specs.Packets.{IsPacketIn};

use crate::packets::packet_of;
use sim_base::{Bytes, NoMemory, Packet, Time};
use std::alloc::Global;
use std::marker::Model;

/// A packet in a capture.
#[derive(Drop)]
pub struct Record {
    /// Since 2000-01-01 00:00:00 UTC.
    pub time: Time,
    /// How many bytes the packet had.
    pub whole: u32,
    /// The first bytes of the packet.
    pub kept: Bytes,
}

impl Record {
    /// The packet whose whole datagram is kept, if there is one.
    pub fn packet(&self, alloc: Global) -> Result<Option<Packet>, NoMemory>
        ensures { IfOk result (IsPacketIn self.now) }
    {
        if self.kept.len() as u64 != u64::from(self.whole) {
            return Ok(None);
        }
        packet_of(alloc, self.kept.as_slice())
    }
}

/// The records of a capture, which contracts see as a list.
#[derive(Drop)]
pub struct Records {
    items: Vec<Record>,
}

impl Model for Records {
    ghost use Rattle.std.specs.Prelude.{List};
    ghost use Rattle.pcap_text.specs.declared.capture.Record.{Record};

    ghost Value = { List Record };

    ghost view = { λ r. r.items.items };
}

impl Records {
    pub fn as_slice(&self) -> &[Record]
        ensures { result.now ≡ self.now }
    {
        self.items.as_slice()
    }
}

impl From<Vec<Record>> for Records {
    ghost from_gives = { λ v r. r ≡ v.items };

    fn from(items: Vec<Record>) -> Records {
        Records { items }
    }
}

/// A capture of packets.
#[derive(Drop)]
pub struct Capture {
    /// The capture size: at most so many bytes are kept of each packet.
    pub size: u32,
    /// In the order of the file.
    pub records: Records,
}
