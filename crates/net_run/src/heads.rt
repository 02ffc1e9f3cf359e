//! The heads of captures.

ghost use Rattle.std.specs.Prelude.{◌≡◌, ◌∷◌, ◌++◌, [], IfOk, OnOk, OnErr, map, option_map};
ghost use Rattle.run_outside.specs.Tally.{CountsWrites};
ghost use Rattle.run_outside.specs.declared.sink.SinkTarget.TheVariants as target;
ghost use Rattle.out_text.specs.Files.{capture_name};
ghost use Rattle.pcap_text.specs.Writing.{head};
ghost use Rattle.run_files.specs.Files.{put_of};
ghost use Rattle.run_files.specs.Listed.{said, names_of};
ghost use Rattle.net_run.specs.Heads as spec;
ghost use Rattle.net_run.specs.Pieces.{with_pieces, PutsFront};

use crate::output::put_pieces;
use run_files::{HostListing, Listing, Piece, capture_piece};
use run_outside::{Sink, WriteError};
use sim_base::{Bytes, NoMemory};
use std::alloc::Global;

/// The head of a capture.
fn head_bytes(alloc: Global, size: u32) -> Result<Bytes, NoMemory>
    ensures { IfOk result (λ bytes. bytes ≡ head size) }
{
    let mut bytes = Bytes::new(alloc);
    pcap_text::head(&mut bytes, size)?;
    Ok(bytes)
}

/// A capture, behind other pieces.
fn push_capture(
    alloc: Global,
    pieces: &mut Vec<Piece>,
    host: &str,
    loopback: bool,
    bytes: Bytes,
) -> Result<(), NoMemory>
    ensures { OnOk result (map put_of pieces.new.items ≡ map put_of pieces.old.items ++ (target.File (capture_name host.now loopback), bytes) ∷ []) }
{
    pieces.push(capture_piece(alloc, host, loopback, bytes)?)?;
    Ok(())
}

/// The head of a capture, behind other pieces.
fn push_head(
    alloc: Global,
    pieces: &mut Vec<Piece>,
    host: &str,
    loopback: bool,
    size: u32,
) -> Result<(), NoMemory>
    ensures { OnOk result (map put_of pieces.new.items ≡ map put_of pieces.old.items ++ (target.File (capture_name host.now loopback), head size) ∷ []) }
{
    let bytes = head_bytes(alloc, size)?;
    push_capture(alloc, pieces, host, loopback, bytes)?;
    Ok(())
}

/// Those of a host.
fn push_heads(alloc: Global, pieces: &mut Vec<Piece>, host: &HostListing) -> Result<(), NoMemory>
    ensures { OnOk result (map put_of pieces.new.items ≡ map put_of pieces.old.items ++ spec.host_heads (said host.now)) }
{
    let Some(size) = host.capture else {
        return Ok(());
    };
    let name = host.name.as_str();
    push_head(alloc, pieces, name, false, size)?;
    push_head(alloc, pieces, name, true, size)?;
    Ok(())
}

/// Those of all hosts.
fn head_pieces(alloc: Global, hosts: &[HostListing]) -> Result<Vec<Piece>, NoMemory>
    ensures { IfOk result (λ pieces. map put_of pieces.items ≡ spec.all_heads (map said hosts.now)) }
{
    let mut pieces = Vec::new(alloc);
    for host in hosts {
        push_heads(alloc, &mut pieces, host)?;
    }
    Ok(pieces)
}

/// Puts the head of each capture, which is there from then on.
pub fn put_heads<K: Sink>(alloc: Global, sink: &mut K, listing: &Listing) -> Result<(), WriteError>
    ensures ok { OnOk result (K.content sink.new ≡ option_map (with_pieces (spec.all_heads (names_of listing.now))) (K.content sink.old)) }
    ensures err { OnErr result (PutsFront (spec.all_heads (names_of listing.now)) (K.content sink.old) (K.content sink.new)) }
    ensures count { CountsWrites result (K.tally sink.old) (K.tally sink.new) }
{
    let pieces = match head_pieces(alloc, listing.hosts.as_slice()) {
        Ok(pieces) => pieces,
        Err(NoMemory) => return Err(WriteError::NoMemory),
    };
    put_pieces(sink, &pieces)?;
    Ok(())
}
