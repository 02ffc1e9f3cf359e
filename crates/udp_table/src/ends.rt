//! What sockets are bound and connected to.

ghost use Rattle.std.specs.Prelude.{◌≡◌, slice_index_or};
ghost use Rattle.std.specs.Bool.{OnTrue};
ghost use Rattle.sock_udp.specs.Socket.{is_bound_for, is_open_to};
ghost use Rattle.sim_base.specs.Addresses.{is_taken};
ghost use Rattle.udp_table.specs.Table.{local_in, end_in, takes_in};
ghost use Rattle.udp_table.specs.inside.Indexing.{at_place};

use sim_base::{Addr, Ip};
use sock_udp::UdpEnds;

/// Whether two sockets, where there are any, are bound and connected alike.
pub(crate) fn are_alike(a: Option<UdpEnds>, b: Option<UdpEnds>) -> bool
    ensures { OnTrue result (a ≡ b) }
{
    a == b
}

/// The socket at a place, if there is one.
pub(crate) fn at_place(places: &[Option<UdpEnds>], place: usize) -> Option<UdpEnds>
    ensures { result ≡ at_place places.now place }
{
    if place >= places.len() {
        return None;
    }
    places[place]
}

/// What the socket at a place is bound to, if there is one.
pub(crate) fn local_in(place: Option<UdpEnds>) -> Option<Addr>
    ensures { result ≡ local_in place }
{
    match place {
        Some(ends) => ends.local,
        None => None,
    }
}

/// Whether a socket at an end would meet the one at a place.
pub(crate) fn meets_in(place: Option<UdpEnds>, at: Addr) -> bool
    ensures { result ≡ is_taken (end_in (local_in place)) at }
{
    match local_in(place) {
        Some(other) => at.meets(other),
        None => false,
    }
}

/// Whether what is sent to an end goes to a socket that is bound so.
fn is_bound_for(local: Option<Addr>, to: Addr) -> bool
    ensures { result ≡ is_bound_for local to }
{
    match local {
        Some(at) => at.port == to.port && (at.ip == Ip::ANY || at.ip == to.ip),
        None => false,
    }
}

/// Whether a socket with this peer takes what comes from an end.
fn is_open_to(peer: Option<Addr>, from: Addr) -> bool
    ensures { result ≡ is_open_to peer from }
{
    match peer {
        Some(peer) => peer == from,
        None => true,
    }
}

/// Whether the socket at a place takes a datagram from one end to another.
pub(crate) fn takes(place: Option<UdpEnds>, from: Addr, to: Addr) -> bool
    ensures { result ≡ takes_in from to place }
{
    match place {
        Some(ends) => is_bound_for(ends.local, to) && is_open_to(ends.peer, from),
        None => false,
    }
}
