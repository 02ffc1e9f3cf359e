//! The tables of an index of TCP sockets.

ghost use Rattle.std.specs.Prelude.{◌≡◌, ◌≢◌, ◌<◌, ℕ, ◌==◌, true, false, Some, length, slice_get, IfSome};
ghost use Rattle.std.specs.List.{list_any};
ghost use Rattle.std.specs.HashMap.{get};
ghost use Rattle.host_sockets.specs.TcpSocket.{TcpSocket};
ghost use Rattle.host_sockets.specs.SocketsStand.{SocketStands};
ghost use Rattle.host_sockets.specs.inside.Ends.{same_ends, ends_in, live_ends};

use crate::slots::{Sought, first_among, place_in, sought_at};
use crate::tcp_sock::TcpSock;
use sim_base::Addr;
use sock_tcp::Control;
use std::alloc::Global;
use std::collections::HashMap;

/// The two ends of a connection.
#[derive(Clone, Copy, PartialEq, Eq, PartialOrd, Ord, Hash)]
pub struct Ends {
    pub own: Addr,
    pub other: Addr,
}

/// The places of sockets: of those with live connections by their ends, and of those that have
/// listened; and the ends by which the socket that acts now was entered.
#[derive(Drop)]
pub struct Tables {
    pub(crate) places: HashMap<Ends, usize>,
    pub(crate) ears: Vec<usize>,
    pub(crate) was: Option<Ends>,
}

/// The ends of a connection while it is live.
fn ends_in(control: Control) -> Option<Ends>
    ensures { result ≡ ends_in control }
{
    if control.state.is_over() {
        None
    } else {
        Some(Ends {
            own: control.local,
            other: control.peer,
        })
    }
}

impl TcpSock {
    ghost use Rattle.std.specs.Prelude.{◌≡◌, is_some};
    ghost use Rattle.host_sockets.specs.TcpSocket.{TcpSocket};
    ghost use Rattle.host_sockets.specs.SocketsStand.{SocketStands};
    ghost use Rattle.host_sockets.specs.inside.Ends.{live_ends};

    /// The ends of its live connection, if it has one.
    fn live_ends(&self) -> Option<Ends>
        ensures { (s : TcpSocket) → SocketStands self.now s → result ≡ live_ends s }
    {
        match &self.conn {
            Some(conn) => ends_in(conn.control()),
            None => None,
        }
    }

    /// Whether it listens.
    fn is_listening(&self) -> bool
        ensures { (s : TcpSocket) → SocketStands self.now s → result ≡ is_some s.listen }
    {
        self.listener.is_some()
    }
}

/// The ends of the live connection of the socket at a place, if it has one.
pub(crate) fn ends_at(socks: &[TcpSock], place: usize) -> Option<Ends>
    ensures ends { (c : TcpSock) (s : TcpSocket) → slice_get socks.now place ≡ Some c → SocketStands c s → result ≡ live_ends s }
    ensures within { IfSome result (λ _. place < length socks.now) }
{
    if place >= socks.len() {
        return None;
    }
    socks[place].live_ends()
}

/// Takes out the entry of a place at these ends. Those of other places stay.
fn forget(places: &mut HashMap<Ends, usize>, place: usize, ends: Ends)
    ensures { (q : Ends) (k : ℕ) → k ≢ place → get same_ends places.old q ≡ Some k → get same_ends places.new q ≡ Some k }
{
    if let Some(found) = places.get(&ends).copied() {
        if found == place {
            let _ = places.remove(&ends);
        }
    }
}

/// Takes out the entry of a place at some ends, if there are any. Those of other places stay.
fn forget_if(places: &mut HashMap<Ends, usize>, place: usize, was: Option<Ends>)
    ensures { (q : Ends) (k : ℕ) → k ≢ place → get same_ends places.old q ≡ Some k → get same_ends places.new q ≡ Some k }
{
    if let Some(ends) = was {
        forget(places, place, ends);
    }
}

/// Whether the entry at these ends is that of another socket which has their live connection.
fn is_anothers(places: &HashMap<Ends, usize>, socks: &[TcpSock], place: usize, ends: Ends) -> bool
    ensures { result ≡ false → (k : ℕ) (c : TcpSock) (s : TcpSocket) → k ≢ place → slice_get socks.now k ≡ Some c → SocketStands c s
        → live_ends s ≡ Some ends → get same_ends places.now ends ≡ Some k → ⊥ }
{
    match places.get(&ends).copied() {
        Some(found) => {
            if found == place {
                false
            } else {
                let Ends { own, other } = ends;
                sought_at(socks, found, Sought::Record { own, other })
            }
        }
        None => false,
    }
}

/// Enters a place at these ends. Answers whether it did: it doesn't where memory is wanting, or
/// another socket has the live connection of these ends.
fn enter(places: &mut HashMap<Ends, usize>, socks: &[TcpSock], place: usize, ends: Ends) -> bool
    ensures here { result ≡ true → get same_ends places.new ends ≡ Some place }
    ensures others { result ≡ true → (k : ℕ) (c : TcpSock) (s : TcpSocket) (q : Ends) → k ≢ place → slice_get socks.now k ≡ Some c → SocketStands c s
        → live_ends s ≡ Some q → get same_ends places.old q ≡ Some k → get same_ends places.new q ≡ Some k }
{
    if is_anothers(places, socks, place, ends) {
        return false;
    }
    places.insert(ends, place).is_ok()
}

/// Moves the entry of a place from some ends to others. Answers whether it did, as `enter`.
fn move_ends(
    places: &mut HashMap<Ends, usize>,
    socks: &[TcpSock],
    place: usize,
    was: Option<Ends>,
    is: Option<Ends>,
) -> bool
    ensures here { result ≡ true → (q : Ends) → is ≡ Some q → get same_ends places.new q ≡ Some place }
    ensures others { result ≡ true → (k : ℕ) (c : TcpSock) (s : TcpSocket) (q : Ends) → k ≢ place → slice_get socks.now k ≡ Some c → SocketStands c s
        → live_ends s ≡ Some q → get same_ends places.old q ≡ Some k → get same_ends places.new q ≡ Some k }
{
    if was != is {
        forget_if(places, place, was);
    }
    match is {
        Some(ends) => enter(places, socks, place, ends),
        None => true,
    }
}

/// Enters a place if it listens. Answers whether it did: it doesn't where memory is wanting.
fn enter_ear(ears: &mut Vec<usize>, place: usize, listens: bool) -> bool
    ensures here { result ≡ true → listens ≡ true → list_any (λ j. j == place) ears.new.items ≡ true }
    ensures others { (k : ℕ) → list_any (λ j. j == k) ears.old.items ≡ true → list_any (λ j. j == k) ears.new.items ≡ true }
{
    if !listens || ears.as_slice().contains(&place) {
        return true;
    }
    ears.push(place).is_ok()
}

impl Tables {
    ghost use Rattle.std.specs.Prelude.{◌≡◌, true, ◌<◌, List, [], length, position, IfSome};
    ghost use Rattle.host_sockets.specs.TcpSocket.{TcpSocket};
    ghost use Rattle.host_sockets.specs.SocketsStand.{AllStand};
    ghost use Rattle.host_sockets.specs.inside.Lookup.{is_sought};
    ghost use Rattle.host_sockets.specs.inside.Indexing.{FindsOthers, FindsAll};

    /// Tables without entries.
    pub(crate) fn new(alloc: Global) -> Tables
        ensures { FindsAll result [] }
    {
        Tables {
            places: HashMap::new(alloc),
            ears: Vec::new(alloc),
            was: None,
        }
    }

    /// Enters the socket at a place as it is now. Answers whether it did.
    pub(crate) fn update(&mut self, socks: &[TcpSock], place: usize) -> bool
        requires { FindsOthers place self.old socks.now }
        ensures { result ≡ true → FindsAll self.new socks.now }
    {
        if place >= socks.len() {
            return true;
        }
        let sock = &socks[place];
        let is = sock.live_ends();
        let listens = sock.is_listening();
        move_ends(&mut self.places, socks, place, self.was, is)
            && enter_ear(&mut self.ears, place, listens)
    }

    /// The place of the first socket that is looked for. The one at the place `last` may have no
    /// entry.
    pub(crate) fn place_of(&self, socks: &[TcpSock], last: usize, sought: Sought) -> Option<usize>
        requires { FindsOthers last self.now socks.now }
        ensures place { (sockets : List TcpSocket) → AllStand socks.now sockets → result ≡ position (is_sought sought) sockets }
        ensures within { IfSome result (λ place. place < length socks.now) }
    {
        match sought {
            Sought::Free => place_in(socks, sought),
            Sought::Record { own, other } => match self.places.get(&Ends { own, other }) {
                Some(place) => first_among(socks, &[*place], last, sought),
                None => first_among(socks, &[], last, sought),
            },
            Sought::Keeper { .. } => first_among(socks, self.ears.as_slice(), last, sought),
            Sought::Listener { .. } => first_among(socks, self.ears.as_slice(), last, sought),
        }
    }
}
