//! Packets of UDP (RFC 768) and TCP (RFC 9293) over IPv4 (RFC 791).

ghost use Rattle.std.specs.Prelude.{◌≡◌};

use crate::address::Addr;
use crate::bytes::Bytes;
use crate::size::{IPV4_HEADER, TCP_HEADER, UDP_HEADER};

/// The flags of a segment, by the bits of the header's fourteenth byte (RFC 9293, section 3.1).
pub const FIN: u8 = 1;

pub const SYN: u8 = 2;

pub const RST: u8 = 4;

pub const ACK: u8 = 16;

/// What a packet carries.
#[derive(Clone, Drop)]
pub enum Load {
    /// A datagram (RFC 768).
    Udp(Bytes),
    /// A segment without options (RFC 9293, section 3.1). `flags` has the bits `FIN`,
    /// `SYN`, `RST` and `ACK`.
    Tcp {
        flags: u8,
        seq: u32,
        ack: u32,
        window: u16,
        text: Bytes,
    },
}

/// A packet on its way from one end to another.
#[derive(Clone, Drop)]
pub struct Packet {
    pub from: Addr,
    pub to: Addr,
    pub load: Load,
}

impl Packet {
    ghost use Rattle.sim_base.specs.Packet.{packet_size};

    /// The size in bytes, with the headers.
    pub fn size(&self) -> u64
        ensures { result ≡ packet_size self.now }
    {
        let load = match &self.load {
            Load::Udp(text) => UDP_HEADER + text.len(),
            Load::Tcp { text, .. } => TCP_HEADER + text.len(),
        };
        (IPV4_HEADER + load) as u64
    }
}
