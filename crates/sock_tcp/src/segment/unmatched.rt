//! The answer to a segment of no connection (RFC 9293, section 3.10.7.1).

ghost use Rattle.std.specs.Prelude.{◌≡◌};
ghost use Rattle.sock_tcp.specs.segment.Refusal.{sent_back, header_refusal, refusal_of};

use crate::segment::header::Header;
use crate::segment::number::{number_at, number_past};
use sim_base::{ACK, Bytes, Load, Packet, RST};
use std::alloc::Global;

fn sent_back(alloc: Global, segment: &Packet, flags: u8, seq: u32, ack: u32) -> Packet
    ensures { result ≡ sent_back segment.now flags seq ack }
{
    Packet {
        from: segment.to,
        to: segment.from,
        load: Load::Tcp {
            flags,
            seq,
            ack,
            window: u16::MAX,
            text: Bytes::new(alloc),
        },
    }
}

#[tactic(auto, unfolding(crate::specs::segment::Refusal::header_refusal), using(crate::proofs::Segments::Numbers::wires))]
fn header_refusal(alloc: Global, segment: &Packet, header: Header, count: usize) -> Option<Packet>
    ensures { result ≡ header_refusal segment.now header count }
{
    if header.rst {
        return None;
    }
    if header.has_ack {
        return Some(sent_back(alloc, segment, RST, header.ack, 0));
    }
    let ends = u32::from(header.syn) + u32::from(header.fin);
    let ack = number_at(number_past(header.seq, count), ends);
    Some(sent_back(alloc, segment, RST | ACK, 0, ack))
}

/// What answers a segment that belongs to no connection and reaches no listener: nothing where it is
/// a RST, else a RST. It takes no memory.
pub fn refusal(alloc: Global, segment: &Packet) -> Option<Packet>
    ensures { result ≡ refusal_of segment.now }
{
    match &segment.load {
        Load::Udp(_) => None,
        Load::Tcp {
            flags,
            seq,
            ack,
            window,
            text,
        } => {
            let header = Header::new(*flags, *seq, *ack, *window);
            header_refusal(alloc, segment, header, text.len())
        }
    }
}
