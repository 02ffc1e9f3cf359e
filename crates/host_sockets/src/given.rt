//! The ports that TCP sockets have, of those that are given: from 10000 up.

ghost use Rattle.std.specs.Prelude.{◌≡◌, ◌≢◌, ℕ, ◌+◌, ◌-◌, ◌^◌, ◌<◌, ◌≤◌, true, length, max, slice_index_or};
ghost use Rattle.std.specs.List.{sum_by};
ghost use Rattle.number_sets.specs.Bags.{Holds};
ghost use Rattle.number_sets.specs.Ports.{once};
ghost use Rattle.host_sockets.specs.inside.Given.{times, no_ports};

use crate::tcp_sock::TcpSock;
use number_sets::{NumberBag, free_port, given_end, recount};
use sim_base::Addr;
use std::alloc::Global;

/// The given ports, counted from the first one, of what a socket is bound to and of the own end of
/// its connection.
#[derive(Clone, Copy)]
pub struct Had {
    pub bound: Option<u16>,
    pub own: Option<u16>,
}

/// The ports of a socket without ends.
const NO_PORTS: Had = Had {
    bound: None,
    own: None,
};

/// The given ports of sockets by their places, as they were entered, and how many ends have each.
#[derive(Drop)]
pub struct Given {
    pub(crate) ends: Vec<Had>,
    pub(crate) counts: NumberBag,
}

impl TcpSock {
    ghost use Rattle.std.specs.Prelude.{◌≡◌};
    ghost use Rattle.host_sockets.specs.TcpSocket.{TcpSocket};
    ghost use Rattle.host_sockets.specs.SocketsStand.{SocketStands};
    ghost use Rattle.host_sockets.specs.inside.Given.{own_end, had_of};

    /// The own end of its connection, if it has one.
    fn own_end(&self) -> Option<Addr>
        ensures { (s : TcpSocket) → SocketStands self.now s → result ≡ own_end s.tcb }
    {
        match &self.conn {
            Some(conn) => Some(conn.control().local),
            None => None,
        }
    }

    /// The given ports of its ends.
    fn had(&self) -> Had
        ensures { (s : TcpSocket) → SocketStands self.now s → result ≡ had_of s }
    {
        Had {
            bound: given_end(self.bound),
            own: given_end(self.own_end()),
        }
    }
}

/// The ends of a socket have other ports than they had. Answers whether that is counted: it
/// isn't where memory is wanting.
fn recount_both(counts: &mut NumberBag, was: Had, is: Had) -> bool
    ensures { result ≡ true → (f : ℕ → ℕ) → Holds counts.old f
        → Holds counts.new (λ n. f n + once is.bound n - once was.bound n + once is.own n - once was.own n) }
{
    if recount(counts, was.bound, is.bound) {
        recount(counts, was.own, is.own)
    } else {
        false
    }
}

/// Makes entries up to a place, without ports. Answers whether it did, as `recount_both`.
fn grow(ends: &mut Vec<Had>, place: usize) -> bool
    requires { place < 2 ^ 63 }
    ensures within { result ≡ true → place < length ends.new.items }
    ensures same { (k : ℕ) → slice_index_or ends.new.items k no_ports ≡ slice_index_or ends.old.items k no_ports }
    ensures sums { (n : ℕ) → sum_by (times n) ends.new.items ≡ sum_by (times n) ends.old.items }
    ensures long { length ends.new.items ≤ max (length ends.old.items) (place + 1) }
{
    if place < ends.len() {
        return true;
    }
    ends.resize(place + 1, NO_PORTS).is_ok()
}

/// Enters the ports of the socket at a place. Answers whether it did, as `recount_both`.
fn enter(ends: &mut Vec<Had>, place: usize, is: Had) -> bool
    requires { place < 2 ^ 63 }
    ensures here { result ≡ true → slice_index_or ends.new.items place no_ports ≡ is }
    ensures others { result ≡ true → (k : ℕ) → k ≢ place → slice_index_or ends.new.items k no_ports ≡ slice_index_or ends.old.items k no_ports }
    ensures sums { result ≡ true → (n : ℕ) → sum_by (times n) ends.new.items + times n (slice_index_or ends.old.items place no_ports)
        ≡ sum_by (times n) ends.old.items + times n is }
    ensures long { length ends.new.items ≤ max (length ends.old.items) (place + 1) }
{
    if !grow(ends, place) {
        return false;
    }
    ends[place] = is;
    true
}

impl Given {
    ghost use Rattle.std.specs.Prelude.{◌≡◌, true, Option, Some, List, [], ℕ, slice_index_or};
    ghost use Rattle.std.specs.List.{flat_map};
    ghost use Rattle.sim_base.specs.Addresses.{least_free_port};
    ghost use Rattle.host_sockets.specs.TcpSocket.{TcpSocket, ends_of};
    ghost use Rattle.host_sockets.specs.SocketsStand.{AllStand};
    ghost use Rattle.host_sockets.specs.inside.Given.{no_ports};
    ghost use Rattle.host_sockets.specs.inside.Indexing.{CountsOthers, CountsAll};

    /// No socket has a port.
    pub(crate) fn new(alloc: Global) -> Given
        ensures { CountsAll result [] }
    {
        Given {
            ends: Vec::new(alloc),
            counts: NumberBag::new(alloc),
        }
    }

    /// The ports by which the socket at a place was entered.
    fn entry(&self, place: usize) -> Had
        ensures { result ≡ slice_index_or self.now.ends.items place no_ports }
    {
        if place >= self.ends.len() {
            return NO_PORTS;
        }
        self.ends[place]
    }

    /// Enters the socket at a place as it is now. Answers whether it did: it doesn't where memory is
    /// wanting.
    pub(crate) fn update(&mut self, socks: &[TcpSock], place: usize) -> bool
        requires { CountsOthers place self.old socks.now }
        ensures { result ≡ true → CountsAll self.new socks.now }
    {
        if place >= socks.len() {
            return true;
        }
        let is = socks[place].had();
        let was = self.entry(place);
        if recount_both(&mut self.counts, was, is) {
            enter(&mut self.ends, place, is)
        } else {
            false
        }
    }

    /// The least given port that no end has, if there is one. It isn't known where the socket at the
    /// place `last` acts, which isn't entered.
    pub(crate) fn free_port(&self, socks: &[TcpSock], last: usize) -> Option<Option<u16>>
        requires { CountsOthers last self.now socks.now }
        ensures { (free : Option ℕ) → result ≡ Some free → (sockets : List TcpSocket) → AllStand socks.now sockets
            → free ≡ least_free_port (flat_map ends_of sockets) }
    {
        if last < socks.len() {
            return None;
        }
        Some(free_port(&self.counts))
    }
}
