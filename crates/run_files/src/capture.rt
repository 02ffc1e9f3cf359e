//! What the lines of the packet log bring into the captures of hosts.

ghost use Rattle.std.specs.Prelude.{◌≡◌, ◌++◌, ◌∷◌, [], IfOk, List, OnOk, map};
ghost use Rattle.std.specs.List.{list_any};
ghost use Rattle.run_outside.specs.declared.sink.SinkTarget.TheVariants as target;
ghost use Rattle.out_text.specs.Files.{capture_name};
ghost use Rattle.run_files.specs.Captured as spec;
ghost use Rattle.run_files.specs.inside.Captured as inside;
ghost use Rattle.run_files.specs.Captures as lines;
ghost use Rattle.host_link.specs.declared.line.Line.{Line as LineRecord};
ghost use Rattle.run_files.specs.Files.{put_of};
ghost use Rattle.run_files.specs.Grown.{with_bytes};
ghost use Rattle.run_files.specs.Listed.{said, by_host, names_of};
ghost use Rattle.host_link.specs.Logs.{kept_lines};

use crate::listed::{HostListing, Listing};
use crate::piece::{Piece, capture_piece};
use host_link::{Line, Logged};
use sim_base::{Act, Bytes, Ip, MAX_PACKET, NoMemory, Packet, Time};
use std::alloc::Global;

/// What lines bring into the two captures of a host.
#[derive(Drop)]
pub struct Captured {
    pub eth0: Bytes,
    pub lo: Bytes,
}

fn is_own(own: Ip, ip: Ip) -> bool
    ensures { result ≡ lines.is_own own ip }
{
    ip == Ip::LOOPBACK || ip == own
}

/// Whether a packet is one from the host to itself.
fn is_loopback(own: Ip, packet: &Packet) -> bool
    ensures { result ≡ lines.is_loopback own packet.now }
{
    is_own(own, packet.from.ip) && is_own(own, packet.to.ip)
}

/// Whether a packet was sent to the network, or came from there.
fn passes(act: Act) -> bool
    ensures { result ≡ lines.passes act }
{
    match act {
        Act::Send | Act::Recv | Act::SockFull | Act::NoPort => true,
        Act::Lost | Act::FullUp | Act::FullDown | Act::Codel => false,
    }
}

fn is_on_eth0(own: Ip, line: &Line) -> bool
    ensures { result ≡ lines.is_on_eth0 own line.now }
{
    passes(line.act) && !is_loopback(own, &line.packet)
}

fn is_on_lo(own: Ip, line: &Line) -> bool
    ensures { result ≡ lines.is_on_lo own line.now }
{
    line.act == Act::Send && is_loopback(own, &line.packet)
}

/// The latest time of a run.
const LATEST: Time = Time { nanos: 1 << 61 };

/// Whether a line's packet is no larger than Ethernet carries, and its time one that a run can have.
fn has_record(line: &Line) -> bool
    ensures { result ≡ lines.has_record line.now }
{
    line.packet.size() <= MAX_PACKET as u64 && line.time.nanos <= LATEST.nanos
}

/// The record of a line, behind others.
fn push_record(alloc: Global, records: &mut Bytes, size: u32, line: &Line) -> Result<(), NoMemory>
    ensures { OnOk result (records.new ≡ records.old ++ lines.line_record size line.now) }
{
    if !has_record(line) {
        return Ok(());
    }
    pcap_text::record(alloc, records, size, line.time, &line.packet)
}

/// A line of a host, in the capture that has it, if one does.
fn capture_line(
    alloc: Global,
    host: &HostListing,
    captured: &mut Captured,
    line: &Line,
) -> Result<(), NoMemory>
    ensures { OnOk result (captured.new ≡ inside.with_line (said host.now) line.now captured.old) }
{
    let Some(size) = host.capture else {
        return Ok(());
    };
    if is_on_eth0(host.address, line) {
        push_record(alloc, &mut captured.eth0, size, line)?;
    }
    if is_on_lo(host.address, line) {
        push_record(alloc, &mut captured.lo, size, line)?;
    }
    Ok(())
}

/// Nothing yet, for each host.
fn none_captured(alloc: Global, hosts: &[HostListing]) -> Result<Vec<Captured>, NoMemory>
    ensures { IfOk result (λ v. v.items ≡ spec.captured_from 0 (map said hosts.now) []) }
{
    let mut captured = Vec::with_capacity(alloc, hosts.len())?;
    for _ in hosts {
        captured.push(Captured {
            eth0: Bytes::new(alloc),
            lo: Bytes::new(alloc),
        })?;
    }
    Ok(captured)
}

/// A line, behind those of which this is what hosts captured.
fn capture_at(
    alloc: Global,
    hosts: &[HostListing],
    captured: &mut Vec<Captured>,
    line: &Line,
) -> Result<(), NoMemory>
    ensures { OnOk result ((before : List LineRecord) → captured.old.items ≡ spec.captured_from 0 (map said hosts.now) before
        → captured.new.items ≡ spec.captured_from 0 (map said hosts.now) (before ++ line.now ∷ [])) }
{
    let place = line.host.index as usize;
    let Some(host) = hosts.get(place) else {
        return Ok(());
    };
    if let Some(captured) = captured.get_mut(place) {
        capture_line(alloc, host, captured, line)?;
    }
    Ok(())
}

/// What the lines bring to each host.
fn capture_lines(
    alloc: Global,
    hosts: &[HostListing],
    lines: &[Logged],
) -> Result<Vec<Captured>, NoMemory>
    ensures { IfOk result (λ v. v.items ≡ spec.captured_from 0 (map said hosts.now) (kept_lines lines.now)) }
{
    let mut captured = none_captured(alloc, hosts)?;
    for line in lines {
        capture_at(alloc, hosts, &mut captured, &line.line)?;
    }
    Ok(captured)
}

/// Bytes for a capture of a host, behind other pieces, where there are any.
fn push_capture(
    alloc: Global,
    pieces: &mut Vec<Piece>,
    host: &str,
    loopback: bool,
    bytes: Bytes,
) -> Result<(), NoMemory>
    ensures { OnOk result (map put_of pieces.new.items ≡ map put_of pieces.old.items ++ with_bytes ((target.File (capture_name host.now loopback), bytes) ∷ [])) }
{
    if bytes.is_empty() {
        return Ok(());
    }
    pieces.push(capture_piece(alloc, host, loopback, bytes)?)?;
    Ok(())
}

/// Those of both captures.
fn push_captured(
    alloc: Global,
    pieces: &mut Vec<Piece>,
    host: &HostListing,
    captured: Captured,
) -> Result<(), NoMemory>
    ensures { OnOk result (map put_of pieces.new.items ≡ map put_of pieces.old.items ++ with_bytes (spec.host_captures spec.no_head (said host.now) captured)) }
{
    if host.capture.is_none() {
        return Ok(());
    }
    let name = host.name.as_str();
    push_capture(alloc, pieces, name, false, captured.eth0)?;
    push_capture(alloc, pieces, name, true, captured.lo)
}

/// Those of all hosts.
fn push_all_captured(
    alloc: Global,
    pieces: &mut Vec<Piece>,
    hosts: &[HostListing],
    captured: Vec<Captured>,
) -> Result<(), NoMemory>
    ensures { OnOk result (map put_of pieces.new.items ≡ map put_of pieces.old.items ++ with_bytes (by_host (spec.host_captures spec.no_head) (map said hosts.now) captured.items)) }
{
    for (host, captured) in hosts.iter().zip(captured) {
        push_captured(alloc, pieces, host, captured)?;
    }
    Ok(())
}

/// Whether any host captures.
pub(crate) fn any_captures(hosts: &[HostListing]) -> bool
    ensures { result ≡ list_any (λ host. inside.has_captures (said host)) hosts.now }
{
    hosts.iter().any(|host| host.capture.is_some())
}

/// What lines bring into the captures of all hosts, behind other pieces.
pub(crate) fn push_captures(
    alloc: Global,
    pieces: &mut Vec<Piece>,
    listing: &Listing,
    lines: &[Logged],
) -> Result<(), NoMemory>
    ensures { OnOk result (map put_of pieces.new.items ≡ map put_of pieces.old.items ++ with_bytes (spec.all_captures spec.no_head (names_of listing.now) (kept_lines lines.now))) }
{
    if !listing.captures {
        return Ok(());
    }
    let hosts = listing.hosts.as_slice();
    let captured = capture_lines(alloc, hosts, lines)?;
    push_all_captured(alloc, pieces, hosts, captured)
}
