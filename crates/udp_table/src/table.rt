//! The table of UDP sockets.

ghost use Rattle.std.specs.Prelude.{◌≡◌, ◌<◌, ◌^◌, ℕ, List, Option, Some, is_none, position};
ghost use Rattle.std.specs.List.{position_or_len, list_any};
ghost use Rattle.sim_base.specs.Addresses.{least_free_port, is_taken};
ghost use Rattle.udp_table.specs.Table.{local_in, end_in, takes_in, bound_ends};
ghost use Rattle.udp_table.specs.declared.index.Index.{Index};
ghost use Rattle.udp_table.specs.inside.Indexing.{Changes, Indexes};

use crate::ends::{are_alike, meets_in, takes};
use crate::index::Index;
use number_sets::{FIRST_GIVEN, GIVEN};
use sim_base::{Addr, Errno, Ip, NoMemory};
use sock_udp::UdpEnds;
use std::alloc::Global;
use std::marker::Model;

/// So few sockets are looked at one by one for a datagram: they stand side by side in memory, and parts of an index don't.
const FEW: usize = 8;

/// What the UDP sockets of a host are bound and connected to, by their numbers; none has the number of
/// a socket that was closed.
///
/// Contracts see the list. Where memory for the index is wanting it is given up, and each socket is
/// looked at from then on.
pub struct UdpTable {
    places: Vec<Option<UdpEnds>>,
    index: Option<Index>,
}

/// By hand: a derived one would be proved anew in each crate that drops such a value.
impl Drop for UdpTable {
    fn drop(self) {
        let UdpTable { places, index } = self;
        drop(places);
        drop(index);
    }
}

impl Model for UdpTable {
    ghost use Rattle.std.specs.Prelude.{◌≡◌, List, Option, Some};
    ghost use Rattle.sock_udp.specs.declared.ends.UdpEnds.{UdpEnds};
    ghost use Rattle.udp_table.specs.declared.index.Index.{Index};
    ghost use Rattle.udp_table.specs.inside.Indexing.{Indexes};

    ghost Value = { List (Option UdpEnds) };

    ghost view = { λ t. t.places.items };

    ghost invariant = { λ t. (i : Index) → t.index ≡ Some i → Indexes i t.places.items };
}

/// The index, if there is one, follows a change of the socket at a place, or is given up.
fn follow(index: &mut Option<Index>, place: usize, was: Option<UdpEnds>, is: Option<UdpEnds>)
    requires { place < 2 ^ 63 }
    ensures { (old new : List (Option UdpEnds)) → Changes place was is old new → ((i : Index) → index.old ≡ Some i → Indexes i old)
        → (i : Index) → index.new ≡ Some i → Indexes i new }
{
    if let Some(kept) = index {
        if !kept.change(place, was, is) {
            *index = None;
        }
    }
}

/// The first place without a socket: each is looked at.
fn first_free(places: &[Option<UdpEnds>]) -> Option<usize>
    ensures { result ≡ position is_none places.now }
{
    places.iter().position(|place| place.is_none())
}

/// The first place without a socket, or else the one behind all.
fn free_place_in(places: &[Option<UdpEnds>]) -> usize
    ensures { result ≡ position_or_len is_none places.now }
{
    first_free(places).unwrap_or(places.len())
}

/// Whether a socket at an end would meet one of these: each is looked at.
fn is_taken_in(places: &[Option<UdpEnds>], at: Addr) -> bool
    ensures { result ≡ list_any (λ place. is_taken (end_in (local_in place)) at) places.now }
{
    places.iter().any(|place| meets_in(*place, at))
}

/// The least port from 10000 up that no socket has, if there is one: each socket is looked at for each
/// port below.
fn free_port_in(places: &[Option<UdpEnds>]) -> Option<u16>
    ensures { result ≡ least_free_port (bound_ends places.now) }
{
    for number in 0..GIVEN {
        let port = FIRST_GIVEN + number as u16;
        let at = Addr { ip: Ip::ANY, port };
        if !is_taken_in(places, at) {
            return Some(port);
        }
    }
    None
}

/// The first socket that takes a datagram: each is looked at.
fn taker_in(places: &[Option<UdpEnds>], from: Addr, to: Addr) -> Option<usize>
    ensures { result ≡ position (takes_in from to) places.now }
{
    places.iter().position(|place| takes(*place, from, to))
}

impl UdpTable {
    ghost use Rattle.std.specs.Prelude.{◌≡◌, ◌++◌, ◌∷◌, [], Some, slice_set, is_none, position, OnOk, OnErr};
    ghost use Rattle.std.specs.List.{position_or_len};
    ghost use Rattle.sim_base.specs.Addresses.{least_free_port, is_taken};
    ghost use Rattle.sock_udp.specs.Socket.{end_left};
    ghost use Rattle.udp_table.specs.Table.{takes_in, bound_ends};

    /// A table of no sockets. It takes no memory.
    pub fn new(alloc: Global) -> UdpTable
        ensures { result ≡ [] }
    {
        UdpTable {
            places: Vec::new(alloc),
            index: Some(Index::new(alloc)),
        }
    }

    /// A socket has the number behind all.
    pub fn push(&mut self, ends: UdpEnds) -> Result<(), NoMemory>
        ensures pushed { OnOk result (self.new ≡ self.old ++ Some ends ∷ []) }
        ensures unchanged { OnErr result (self.new ≡ self.old) }
    {
        let place = self.places.len();
        self.places.push(Some(ends))?;
        follow(&mut self.index, place, None, Some(ends));
        Ok(())
    }

    /// A socket that has a number is bound or connected otherwise, made or closed. After most acts it is as it was, and the index
    /// has nothing to follow.
    pub fn set(&mut self, place: usize, is: Option<UdpEnds>)
        ensures { self.new ≡ slice_set self.old place is }
    {
        if place >= self.places.len() {
            return;
        }
        let was = self.places[place];
        if are_alike(was, is) {
            return;
        }
        self.places[place] = is;
        follow(&mut self.index, place, was, is);
    }

    /// The least number that no socket has.
    pub fn free_place(&self) -> usize
        ensures { result ≡ position_or_len is_none self.now }
    {
        match &self.index {
            Some(index) => index.free_place(),
            None => free_place_in(self.places.as_slice()),
        }
    }

    /// The least port from 10000 up that no socket has, if there is one.
    pub fn free_port(&self) -> Option<u16>
        ensures { result ≡ least_free_port (bound_ends self.now) }
    {
        match &self.index {
            Some(index) => index.free_port(),
            None => free_port_in(self.places.as_slice()),
        }
    }

    /// Whether a socket at an end would meet one of these.
    fn is_taken(&self, at: Addr) -> bool
        ensures { result ≡ is_taken (bound_ends self.now) at }
    {
        match &self.index {
            Some(index) => index.is_taken(at),
            None => is_taken_in(self.places.as_slice(), at),
        }
    }

    /// What the sockets leave of an address that is asked for: its end, for port 0 at the least free
    /// port.
    ///
    /// `Eaddrnotavail`: no port is free. `Eaddrinuse`: a socket has the port, and the same address or
    /// either of them 0.0.0.0.
    pub fn end_left(&self, at: Addr) -> Result<Addr, Errno>
        ensures { result ≡ end_left (bound_ends self.now) at }
    {
        if at.port == 0 {
            return match self.free_port() {
                Some(port) => Ok(Addr { ip: at.ip, port }),
                None => Err(Errno::Eaddrnotavail),
            };
        }
        if self.is_taken(at) {
            return Err(Errno::Eaddrinuse);
        }
        Ok(at)
    }

    /// The number of the socket that takes a datagram from one end to another.
    pub fn taker(&self, from: Addr, to: Addr) -> Option<usize>
        ensures { result ≡ position (takes_in from to) self.now }
    {
        let places = self.places.as_slice();
        match &self.index {
            Some(index) if places.len() > FEW => index.taker(places, from, to),
            _ => taker_in(places, from, to),
        }
    }
}
