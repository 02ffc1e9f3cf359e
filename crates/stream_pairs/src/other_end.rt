//! What is kept at the other end of a connection.

ghost use Rattle.std.specs.Prelude.{◌≡◌, List, Some, map, slice_get, option_and_then};
ghost use Rattle.stream_pairs.specs.Directions as spec;
ghost use Rattle.stream_pairs.specs.Directions.{Kept};
ghost use Rattle.sim_base.specs.declared.address.Ip.{Ip};
ghost use Rattle.stream_pairs.specs.inside.Finding.{Indexes};

use crate::entries::Pair;
use host_sockets::HostStream;
use sim_base::{Addr, Book, Ip};
use std::collections::HashMap;

/// What is kept of a pair of which there was no record.
fn unused(own: Addr, peer: Addr) -> HostStream
    ensures { result ≡ spec.unused own peer }
{
    HostStream {
        own,
        peer,
        reused: false,
        written: 0,
        read: 0,
        ended: false,
    }
}

/// Whether a pair is within its host.
fn is_within(stream: HostStream) -> bool
    ensures { result ≡ spec.is_within stream }
{
    stream.own.ip == Ip::LOOPBACK || stream.peer.ip == Ip::LOOPBACK
}

/// The place of the host at the other end, if there is one, where the one at this end has a place.
fn other_place(book: &Book, place: usize, stream: HostStream) -> Option<usize>
    ensures { (all : List Kept) (k : Kept) → book.now ≡ map (λ other. other.address) all → slice_get all place ≡ Some k
        → option_and_then (slice_get all) result ≡ spec.other_host all k stream }
{
    if is_within(stream) {
        return Some(place);
    }
    match book.host_at(stream.peer.ip) {
        Some(host) => Some(host.index as usize),
        None => None,
    }
}

/// What the host at a place keeps of a pair.
fn kept_at(
    entries: &[HashMap<Pair, HostStream>],
    place: Option<usize>,
    own: Addr,
    peer: Addr,
) -> HostStream
    ensures { (all : List Kept) (book : List Ip) → Indexes book entries.now all → result ≡ spec.kept_at own peer (option_and_then (slice_get all) place) }
{
    let Some(place) = place else {
        return unused(own, peer);
    };
    let Some(kept) = entries.get(place) else {
        return unused(own, peer);
    };
    match kept.get(&Pair { own, peer }) {
        Some(stream) => *stream,
        None => unused(own, peer),
    }
}

/// What is kept at the other end, where the host at this end has a place.
pub(crate) fn other_end(
    book: &Book,
    entries: &[HashMap<Pair, HostStream>],
    place: usize,
    stream: HostStream,
) -> HostStream
    ensures { (all : List Kept) (k : Kept) → Indexes book.now entries.now all → slice_get all place ≡ Some k → result ≡ spec.other_end all k stream }
{
    let other = other_place(book, place, stream);
    kept_at(entries, other, stream.peer, stream.own)
}
