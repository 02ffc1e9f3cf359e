//! What is told of connections when a run is over.

ghost use Rattle.std.specs.Prelude.{◌≡◌, ◌++◌, IfOk, OnOk, OnErr, map, option_map, slice_get};
ghost use Rattle.run_outside.specs.Tally.{CountsWrites};
ghost use Rattle.run_files.specs.Listed.{said, names_of};
ghost use Rattle.net_run.specs.Pieces.{with_pieces, PutsFront};
ghost use Rattle.net_run.specs.Streams as spec;

use base_texts::Text;
use out_text::{Stream, stream_line};
use run_files::{HostListing, Listing};
use run_outside::{Sink, SinkTarget, WriteError, put_all};
use sim_base::NoMemory;
use std::alloc::Global;

/// The name of the host with a number.
fn name_of(hosts: &[HostListing], number: u32) -> &str
    ensures { result.now ≡ spec.name_in (slice_get (map said hosts.now) number) }
{
    match hosts.get(number as usize) {
        Some(host) => host.name.as_str(),
        None => "",
    }
}

/// The line of each direction.
fn lines_of(alloc: Global, hosts: &[HostListing], streams: &[Stream]) -> Result<Text, NoMemory>
    ensures { IfOk result (λ lines. lines ≡ spec.told_lines (map said hosts.now) streams.now) }
{
    let mut lines = Text::new(alloc);
    for stream in streams {
        let host = name_of(hosts, stream.host.index);
        stream_line(alloc, &mut lines, host, stream)?;
    }
    Ok(lines)
}

/// Puts the line of each direction on the output.
pub fn put_streams<K: Sink>(
    alloc: Global,
    sink: &mut K,
    listing: &Listing,
    streams: &[Stream],
) -> Result<(), WriteError>
    ensures ok { OnOk result (K.content sink.new ≡ option_map (with_pieces (spec.told_puts (names_of listing.now) streams.now)) (K.content sink.old)) }
    ensures err { OnErr result (PutsFront (spec.told_puts (names_of listing.now) streams.now) (K.content sink.old) (K.content sink.new)) }
    ensures count { CountsWrites result (K.tally sink.old) (K.tally sink.new) }
{
    match lines_of(alloc, listing.hosts.as_slice(), streams) {
        Ok(lines) => put_all(sink, &SinkTarget::Out, lines.as_bytes()),
        Err(NoMemory) => Err(WriteError::NoMemory),
    }
}
