//! What became of the bytes that each end wrote.

ghost use Rattle.std.specs.Prelude.{◌≡◌, ◌++◌, ◌≤◌, ◌^◌, List, Some, IfOk, OnOk, length, map, slice_get};
ghost use Rattle.sim_base.specs.declared.address.Ip.{Ip};
ghost use Rattle.stream_pairs.specs.Directions as spec;
ghost use Rattle.stream_pairs.specs.Directions.{Kept, kept_in};
ghost use Rattle.stream_pairs.specs.inside.Finding.{Indexes};

use crate::entries::{Pair, entries_of};
use crate::kept::KeptStreams;
use crate::other_end::other_end;
use host_sockets::HostStream;
use out_text::{Fate, Stream};
use sim_base::{Book, HostId, NoMemory};
use std::alloc::Global;
use std::collections::HashMap;

/// So many bytes are counted, and no more.
const MOST_COUNTED: u64 = 1 << 30;

fn is_long(stream: HostStream) -> bool
    ensures { result ≡ spec.is_long stream }
{
    stream.written >= MOST_COUNTED
}

/// What became of the bytes that went from one end to the other.
fn fate_between(from: HostStream, to: HostStream) -> Fate
    ensures { result ≡ spec.fate_between from to }
{
    if from.reused || to.reused {
        return Fate::Reused;
    }
    if is_long(from) || is_long(to) {
        return Fate::Long;
    }
    Fate::Counted {
        written: from.written,
        read: to.read,
        end: to.ended,
    }
}

/// What became of the bytes that the host at a place wrote to a connection.
fn direction(
    book: &Book,
    entries: &[HashMap<Pair, HostStream>],
    place: usize,
    host: HostId,
    stream: HostStream,
) -> Stream
    ensures { (all : List Kept) (k : Kept) → Indexes book.now entries.now all → slice_get all place ≡ Some k → host ≡ k.host → result ≡ spec.direction all k stream }
{
    let other = other_end(book, entries, place, stream);
    Stream {
        host,
        own: stream.own,
        peer: stream.peer,
        fate: fate_between(stream, other),
    }
}

/// The same of all its connections, behind other directions.
fn push_directions(
    into: &mut Vec<Stream>,
    book: &Book,
    entries: &[HashMap<Pair, HostStream>],
    place: usize,
    kept: &KeptStreams,
) -> Result<(), NoMemory>
    ensures { OnOk result ((all : List Kept) → Indexes book.now entries.now all → slice_get all place ≡ Some (kept_in kept.now)
        → into.new.items ≡ into.old.items ++ map (spec.direction all (kept_in kept.now)) kept.now.streams.items) }
{
    for stream in kept.streams.as_slice() {
        into.push(direction(book, entries, place, kept.host, *stream))?;
    }
    Ok(())
}

/// The addresses of hosts.
fn book_of(alloc: Global, kept: &[KeptStreams]) -> Result<Book, NoMemory>
    requires { length kept.now ≤ 2 ^ 32 }
    ensures { IfOk result (λ book. book ≡ map (λ k. k.address) kept.now) }
{
    let mut addresses = Vec::new(alloc);
    for each in kept {
        addresses.push(each.address)?;
    }
    Book::new(alloc, addresses)
}

/// What finds the pairs of each host.
fn all_entries(
    alloc: Global,
    kept: &[KeptStreams],
) -> Result<Vec<HashMap<Pair, HostStream>>, NoMemory>
    ensures { IfOk result (λ entries. (book : List Ip) → book ≡ map (λ k. k.address) kept.now → Indexes book entries.items (map kept_in kept.now)) }
{
    let mut entries = Vec::new(alloc);
    for each in kept {
        entries.push(entries_of(alloc, each.streams.as_slice())?)?;
    }
    Ok(entries)
}

/// What became of the bytes that each host wrote to each of its connections.
pub fn directions(alloc: Global, kept: &[KeptStreams]) -> Result<Vec<Stream>, NoMemory>
    requires { length kept.now ≤ 2 ^ 32 }
    ensures { IfOk result (λ streams. streams.items ≡ spec.directions (map kept_in kept.now)) }
{
    let book = book_of(alloc, kept)?;
    let entries = all_entries(alloc, kept)?;
    let mut streams = Vec::new(alloc);
    for (place, each) in kept.iter().enumerate() {
        push_directions(&mut streams, &book, entries.as_slice(), place, each)?;
    }
    Ok(streams)
}
