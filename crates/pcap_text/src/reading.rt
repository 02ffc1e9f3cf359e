//! Reads a capture.

ghost use Rattle.std.specs.Prelude.{◌≡◌, ◌≤◌, ◌+◌, length, drop, None, Ok, IfOk, IfErr, OnOk, vec_len};
ghost use Rattle.sim_base.specs.Units.{microsecond};
ghost use Rattle.pcap_text.specs.Reading as spec;
ghost use Rattle.pcap_text.specs.Writing.{head_size, front_size};

use crate::capture::{Capture, Record, Records};
use crate::fault::{PcapError, PcapKind};
use crate::writing::{SECOND, START, front};
use sim_base::{Bytes, Time};
use std::alloc::Global;

/// The magic number of a file whose fractions of seconds are nanoseconds.
const NANOSECOND_MAGIC: u32 = 0xa1b2_3c4d;

/// The magic number of a file whose fractions of seconds are microseconds.
const MICROSECOND_MAGIC: u32 = 0xa1b2_c3d4;

/// LINKTYPE_RAW.
const RAW: u32 = 101;

/// The bytes of the head of a file.
const HEAD: usize = 24;

/// The bytes that stand before those of a packet.
const FRONT: usize = 16;

/// The two-byte number at a place.
fn half(bytes: &[u8], at: usize) -> u16
    requires { at + 2 ≤ length bytes.now }
    ensures { result ≡ spec.half bytes.now at }
{
    u16::from_le_bytes([bytes[at], bytes[at + 1]])
}

/// The four-byte number at a place.
fn word(bytes: &[u8], at: usize) -> u32
    requires { at + 4 ≤ length bytes.now }
    ensures { result ≡ spec.word bytes.now at }
{
    u32::from_le_bytes([bytes[at], bytes[at + 1], bytes[at + 2], bytes[at + 3]])
}

/// What the head of a file says of its records.
#[derive(Clone, Copy)]
struct Head {
    /// The nanoseconds in a unit of the fractions of seconds.
    unit: u32,
    /// The capture size.
    size: u32,
}

impl Head {
    /// The head of a file.
    #[tactic(auto, unfolding(crate::specs::Reading::head_checks))]
    fn read(bytes: &[u8]) -> Result<Head, PcapError>
        ensures unit { IfOk result (λ head. head.unit ≡ spec.unit_of bytes.now) }
        ensures size { IfOk result (λ head. head.size ≡ spec.size_of bytes.now) }
        ensures small { IfOk result (λ head. head.unit ≤ microsecond) }
        ensures length { OnOk result (head_size ≤ length bytes.now) }
        ensures checked { OnOk result (spec.first (spec.head_checks bytes.now) ≡ None) }
        ensures refused { IfErr result (spec.IsFound 0 (spec.first (spec.head_checks bytes.now))) }
    {
        if bytes.len() < HEAD {
            return Err(PcapKind::Truncated.at(0));
        }
        let magic = word(bytes, 0);
        if magic != NANOSECOND_MAGIC && magic != MICROSECOND_MAGIC {
            return Err(PcapKind::Magic.at(0));
        }
        if half(bytes, 4) != 2 || half(bytes, 6) != 4 {
            return Err(PcapKind::Version.at(0));
        }
        if word(bytes, 20) != RAW {
            return Err(PcapKind::Link.at(0));
        }
        let unit = if magic == MICROSECOND_MAGIC { 1000 } else { 1 };
        Ok(Head {
            unit,
            size: word(bytes, 16),
        })
    }

    /// The record at the front of the bytes that stand at an offset.
    #[tactic(auto, unfolding(crate::specs::Reading::record_checks))]
    fn record(self, alloc: Global, at: usize, bytes: &[u8]) -> Result<Record, PcapError>
        requires { self.unit ≤ microsecond }
        ensures record { IfOk result (λ r. r ≡ spec.record_of self.unit bytes.now) }
        ensures length { OnOk result (front_size + spec.kept_of bytes.now ≤ length bytes.now) }
        ensures kept { IfOk result (λ r. length r.kept ≡ spec.kept_of bytes.now) }
        ensures checked { OnOk result (spec.first (spec.record_checks self.unit self.size bytes.now) ≡ None) }
        ensures refused { IfErr result (spec.IsFound at (spec.first (spec.record_checks self.unit self.size bytes.now))) }
    {
        if bytes.len() < FRONT {
            return Err(PcapKind::Truncated.at(at));
        }
        let kept = word(bytes, 8);
        if bytes.len() < FRONT + kept as usize {
            return Err(PcapKind::Truncated.at(at));
        }
        let seconds = u64::from(word(bytes, 0));
        let nanos = u64::from(word(bytes, 4)) * u64::from(self.unit);
        if seconds < START || nanos >= SECOND {
            return Err(PcapKind::Time.at(at));
        }
        let whole = word(bytes, 12);
        if whole < kept || self.size < kept {
            return Err(PcapKind::Length.at(at));
        }
        let time = Time {
            nanos: (seconds - START) * SECOND + nanos,
        };
        let (_, text) = bytes.split_at(FRONT);
        let kept = Bytes::from_slice(alloc, front(text, kept))?;
        Ok(Record { time, whole, kept })
    }
}

/// The records of a file.
fn read_records(alloc: Global, head: Head, bytes: &[u8]) -> Result<Vec<Record>, PcapError>
    requires unit { head.unit ≤ microsecond }
    requires length { head_size ≤ length bytes.now }
    ensures records { IfOk result (λ rs. spec.records head.unit head.size head_size 0 (drop head_size bytes.now) ≡ Ok rs.items) }
    ensures refused { IfErr result (spec.IsRefusal (spec.records head.unit head.size head_size 0 (drop head_size bytes.now))) }
{
    let mut records = Vec::new(alloc);
    let (_, mut rest) = bytes.split_at(HEAD);
    let mut at = HEAD;
    while !rest.is_empty() {
        let record = head.record(alloc, at, rest)?;
        let (taken, after) = rest.split_at(FRONT + record.kept.len());
        records.push(record)?;
        at += taken.len();
        rest = after;
    }
    Ok(records)
}

/// What a capture tells, or its first fault.
#[tactic(auto, unfolding(crate::specs::Reading::pcap))]
pub fn read_pcap(alloc: Global, bytes: &[u8]) -> Result<Capture, PcapError>
    ensures read { IfOk result (λ capture. spec.pcap bytes.now ≡ Ok capture) }
    ensures refused { IfErr result (spec.IsRefusal (spec.pcap bytes.now)) }
{
    let head = Head::read(bytes)?;
    let records = read_records(alloc, head, bytes)?;
    Ok(Capture {
        size: head.size,
        records: Records::from(records),
    })
}
