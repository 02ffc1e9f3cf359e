//! The bytes of a capture.

ghost use Rattle.std.specs.Prelude.{◌≡◌, ◌≤◌, ◌+◌, ◌/◌, ◌%◌, ◌++◌, take, IfOk, OnOk, OnErr};
ghost use Rattle.sim_base.specs.Packet.{packet_size, max_packet};
ghost use Rattle.sim_base.specs.Units.{second, latest_time, unix_start};
ghost use Rattle.pcap_text.specs.Writing as spec;

use crate::datagram::datagram;
use sim_base::{Bytes, NoMemory, Packet, Time};
use std::alloc::Global;

/// The head of a file.
fn head_bytes(size: u32) -> [u8; 24]
    ensures { result ≡ spec.head size }
{
    let size = size.to_le_bytes();
    [
        0x4d, 0x3c, 0xb2, 0xa1, 2, 0, 4, 0, 0, 0, 0, 0, 0, 0, 0, 0, size[0], size[1], size[2],
        size[3], 101, 0, 0, 0,
    ]
}

/// Adds the head of a file that keeps at most so many bytes of each packet, or leaves the bytes as they were.
pub fn head(into: &mut Bytes, size: u32) -> Result<(), NoMemory>
    ensures ok { OnOk result (into.new ≡ into.old ++ spec.head size) }
    ensures err { OnErr result (into.new ≡ into.old) }
{
    into.extend_from_slice(&head_bytes(size))
}

/// The seconds of Unix time at which the simulation starts, 2000-01-01 00:00:00 UTC.
pub(crate) const START: u64 = 946_684_800;

/// The nanoseconds in a second.
pub(crate) const SECOND: u64 = 1_000_000_000;

/// What stands before the bytes of a record.
fn record_front(time: Time, kept: u32, whole: u32) -> [u8; 16]
    requires { time.nanos ≤ latest_time }
    ensures { result ≡ spec.record_front (unix_start + time.nanos / second) (time.nanos % second) kept whole }
{
    let seconds = ((START + time.nanos / SECOND) as u32).to_le_bytes();
    let nanos = ((time.nanos % SECOND) as u32).to_le_bytes();
    let kept = kept.to_le_bytes();
    let whole = whole.to_le_bytes();
    [
        seconds[0], seconds[1], seconds[2], seconds[3], nanos[0], nanos[1], nanos[2], nanos[3],
        kept[0], kept[1], kept[2], kept[3], whole[0], whole[1], whole[2], whole[3],
    ]
}

/// The first bytes of a list, at most so many.
pub(crate) fn front(bytes: &[u8], size: u32) -> &[u8]
    ensures { result.now ≡ take size bytes.now }
{
    let size = bytes.len().min(size as usize);
    &bytes[..size]
}

/// The record of a packet.
fn record_bytes(alloc: Global, size: u32, time: Time, packet: &Packet) -> Result<Bytes, NoMemory>
    requires packet { packet_size packet.now ≤ max_packet }
    requires time { time.nanos ≤ latest_time }
    ensures { IfOk result (λ bytes. bytes ≡ spec.packet_record size time packet.now) }
{
    let whole = datagram(alloc, packet)?;
    let kept = front(whole.as_slice(), size);
    let front = record_front(time, kept.len() as u32, whole.len() as u32);
    let mut bytes = Bytes::from(Vec::with_capacity(alloc, front.len() + kept.len())?);
    bytes.extend_from_slice(&front)?;
    bytes.extend_from_slice(kept)?;
    Ok(bytes)
}

/// Adds the record of a packet to a file that keeps at most `size` bytes of each, or leaves the bytes as they were.
pub fn record(
    alloc: Global,
    into: &mut Bytes,
    size: u32,
    time: Time,
    packet: &Packet,
) -> Result<(), NoMemory>
    requires packet { packet_size packet.now ≤ max_packet }
    requires time { time.nanos ≤ latest_time }
    ensures ok { OnOk result (into.new ≡ into.old ++ spec.packet_record size time packet.now) }
    ensures err { OnErr result (into.new ≡ into.old) }
{
    let bytes = record_bytes(alloc, size, time, packet)?;
    into.extend_from_slice(bytes.as_slice())
}
