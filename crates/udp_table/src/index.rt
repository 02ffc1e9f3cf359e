//! An index of UDP sockets: it finds what a look at each of them finds.

ghost use Rattle.std.specs.Prelude.{◌≡◌, ◌<◌, ◌^◌, ◌==◌, ℕ, true, if◌then◌else◌, Option, Some, None, is_some};
ghost use Rattle.number_sets.specs.Sets.{has};
ghost use Rattle.udp_table.specs.inside.Indexing.{earlier};

use crate::bound::{is_met_at, move_end, note};
use crate::ends::{at_place, local_in, takes};
use number_sets::{NumberBag, NumberSet, free_port, given_end, recount};
use sim_base::{Addr, Ip};
use sock_udp::UdpEnds;
use std::alloc::Global;
use std::collections::HashMap;

/// The places that are taken, how many sockets have each given port, the place that is bound to each
/// end, and the addresses that ends have or had: few, since a host has one.
#[derive(Drop)]
pub struct Index {
    pub(crate) taken: NumberSet,
    pub(crate) ports: NumberBag,
    pub(crate) bound: HashMap<Addr, usize>,
    pub(crate) addresses: Vec<Ip>,
}

/// A place is taken from now on, or isn't. Answers whether that is entered: it isn't where memory is
/// wanting.
fn mark(taken: &mut NumberSet, place: usize, is_taken: bool) -> bool
    requires { place < 2 ^ 63 }
    ensures { result ≡ true → (k : ℕ) → has taken.new k ≡ (if k == place then is_taken else has taken.old k) }
{
    if is_taken {
        return taken.insert(place).is_ok();
    }
    taken.remove(place);
    true
}

/// The earlier one of two places, where there are any.
fn earlier(a: Option<usize>, b: Option<usize>) -> Option<usize>
    ensures { result ≡ earlier a b }
{
    match (a, b) {
        (Some(a), Some(b)) => Some(a.min(b)),
        (Some(a), None) => Some(a),
        (None, b) => b,
    }
}

impl Index {
    ghost use Rattle.std.specs.Prelude.{◌≡◌, ◌<◌, ◌^◌, ℕ, true, List, [], Option, Some, is_none, position};
    ghost use Rattle.std.specs.List.{position_or_len};
    ghost use Rattle.sim_base.specs.Addresses.{least_free_port, is_taken};
    ghost use Rattle.udp_table.specs.Table.{local_in, takes_in, bound_ends};
    ghost use Rattle.udp_table.specs.inside.Indexing.{at_place, Changes, Indexes};

    /// An index of no sockets.
    pub(crate) fn new(alloc: Global) -> Index
        ensures { Indexes result [] }
    {
        Index {
            taken: NumberSet::new(alloc),
            ports: NumberBag::new(alloc),
            bound: HashMap::new(alloc),
            addresses: Vec::new(alloc),
        }
    }

    /// The socket at a place changes. Answers whether that is entered: it isn't where memory is
    /// wanting, or another socket has its end.
    pub(crate) fn change(&mut self, place: usize, was: Option<UdpEnds>, is: Option<UdpEnds>) -> bool
        requires { place < 2 ^ 63 }
        ensures { result ≡ true → (old new : List (Option UdpEnds)) → Changes place was is old new → Indexes self.old old → Indexes self.new new }
    {
        let from = local_in(was);
        let to = local_in(is);
        if !mark(&mut self.taken, place, is.is_some()) {
            return false;
        }
        let was_port = given_end(from);
        let is_port = given_end(to);
        if !recount(&mut self.ports, was_port, is_port) {
            return false;
        }
        if !note(&mut self.addresses, to) {
            return false;
        }
        move_end(&mut self.bound, place, from, to)
    }

    /// The first place without a socket, or else the one behind all.
    pub(crate) fn free_place(&self) -> usize
        ensures { (places : List (Option UdpEnds)) → Indexes self.now places → result ≡ position_or_len is_none places }
    {
        self.taken.least_absent()
    }

    /// The least port from 10000 up that no socket has, if there is one.
    pub(crate) fn free_port(&self) -> Option<u16>
        ensures { (places : List (Option UdpEnds)) → Indexes self.now places → result ≡ least_free_port (bound_ends places) }
    {
        free_port(&self.ports)
    }

    /// Whether a socket at an end would meet one of these: they have its port at one of their addresses.
    pub(crate) fn is_taken(&self, at: Addr) -> bool
        ensures { (places : List (Option UdpEnds)) → Indexes self.now places → result ≡ is_taken (bound_ends places) at }
    {
        is_met_at(&self.bound, self.addresses.as_slice(), at)
    }

    /// The place of the socket that is bound to an end, where it takes a datagram.
    fn taker_at(&self, places: &[Option<UdpEnds>], at: Addr, from: Addr, to: Addr) -> Option<usize>
        ensures takes { Indexes self.now places.now → (k : ℕ) → result ≡ Some k → takes_in from to (at_place places.now k) ≡ true }
        ensures only { Indexes self.now places.now → (k : ℕ) → local_in (at_place places.now k) ≡ Some at → takes_in from to (at_place places.now k) ≡ true
            → result ≡ Some k }
    {
        match self.bound.get(&at).copied() {
            Some(place) => {
                if takes(at_place(places, place), from, to) {
                    Some(place)
                } else {
                    None
                }
            }
            None => None,
        }
    }

    /// The first socket that takes a datagram: it is bound to 0.0.0.0 and the port, or to the
    /// destination.
    pub(crate) fn taker(&self, places: &[Option<UdpEnds>], from: Addr, to: Addr) -> Option<usize>
        ensures { Indexes self.now places.now → result ≡ position (takes_in from to) places.now }
    {
        let any = Addr {
            ip: Ip::ANY,
            port: to.port,
        };
        let wide = self.taker_at(places, any, from, to);
        let narrow = self.taker_at(places, to, from, to);
        earlier(wide, narrow)
    }
}
