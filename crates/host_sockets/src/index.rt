//! An index of the TCP sockets of a host: it finds what a look at each of them finds.

ghost use Rattle.std.specs.Prelude.{◌≡◌, ℕ, Some};
ghost use Rattle.host_sockets.specs.declared.given.Given.{Given};
ghost use Rattle.host_sockets.specs.declared.room.Room.{Room};
ghost use Rattle.host_sockets.specs.declared.tables.Tables.{Tables};
ghost use Rattle.host_sockets.specs.inside.Indexing.{FindsOthers, FindsAll, KnowsOthers, KnowsAll, CountsOthers, CountsAll};

use crate::given::Given;
use crate::room::{Room, free_place_in};
use crate::slots::{Sought, place_in};
use crate::tables::{Tables, ends_at};
use crate::tcp_sock::TcpSock;
use std::alloc::Global;

/// Finds sockets by tables. The socket that acted last is looked at each time, and entered once
/// another one acts. Where memory for the tables is wanting they are given up, and each socket is
/// looked at from then on.
#[derive(Drop)]
pub struct Index {
    pub(crate) tables: Option<Tables>,
    pub(crate) room: Option<Room>,
    pub(crate) given: Option<Given>,
    pub(crate) last: usize,
}

/// No socket has this place.
pub(crate) const NO_PLACE: usize = usize::MAX;

/// Tables, if there are any, with the socket at the place `last` entered as it is now. That at the
/// place `next` acts then.
fn updated(tables: Option<Tables>, socks: &[TcpSock], last: usize, next: usize) -> Option<Tables>
    requires { (t : Tables) → tables ≡ Some t → FindsOthers last t socks.now }
    ensures { (t : Tables) → result ≡ Some t → FindsAll t socks.now }
{
    match tables {
        Some(mut tables) => {
            if tables.update(socks, last) {
                tables.was = ends_at(socks, next);
                Some(tables)
            } else {
                None
            }
        }
        None => None,
    }
}

/// What is known of the room for new sockets, if it is, with the socket at the place `last` entered
/// as it is now.
fn told(room: Option<Room>, socks: &[TcpSock], last: usize) -> Option<Room>
    requires { (r : Room) → room ≡ Some r → KnowsOthers last r socks.now }
    ensures { (r : Room) → result ≡ Some r → KnowsAll r socks.now }
{
    match room {
        Some(mut room) => {
            if room.update(socks, last) {
                Some(room)
            } else {
                None
            }
        }
        None => None,
    }
}

/// The ports that sockets have, if they are known, with the socket at the place `last` entered as it
/// is now.
fn counted(given: Option<Given>, socks: &[TcpSock], last: usize) -> Option<Given>
    requires { (g : Given) → given ≡ Some g → CountsOthers last g socks.now }
    ensures { (g : Given) → result ≡ Some g → CountsAll g socks.now }
{
    match given {
        Some(mut given) => {
            if given.update(socks, last) {
                Some(given)
            } else {
                None
            }
        }
        None => None,
    }
}

impl Index {
    ghost use Rattle.std.specs.Prelude.{◌≡◌, ◌<◌, ℕ, Option, Some, List, [], length, position, IfSome};
    ghost use Rattle.std.specs.List.{position_or_len, flat_map};
    ghost use Rattle.sim_base.specs.Addresses.{least_free_port};
    ghost use Rattle.host_sockets.specs.TcpSocket.{TcpSocket, is_free, ends_of};
    ghost use Rattle.host_sockets.specs.SocketsStand.{AllStand};
    ghost use Rattle.host_sockets.specs.inside.Lookup.{is_sought};
    ghost use Rattle.host_sockets.specs.inside.Indexing.{Indexes};

    /// An index of no sockets.
    pub(crate) fn new(alloc: Global) -> Index
        ensures { Indexes result [] }
    {
        Index {
            tables: Some(Tables::new(alloc)),
            room: Some(Room::new(alloc)),
            given: Some(Given::new(alloc)),
            last: 0,
        }
    }

    /// The socket at a place acts from now on: until another one does, the index knows that it may
    /// change.
    pub(crate) fn turn_to(&mut self, socks: &[TcpSock], place: usize)
        requires { Indexes self.old socks.now }
        ensures indexes { Indexes self.new socks.now }
        ensures last { self.new.last ≡ place }
    {
        if self.last == place {
            return;
        }
        self.tables = updated(self.tables.take(), socks, self.last, place);
        self.room = told(self.room.take(), socks, self.last);
        self.given = counted(self.given.take(), socks, self.last);
        self.last = place;
    }

    /// The place of the first socket that is looked for.
    pub(crate) fn place_of(&self, socks: &[TcpSock], sought: Sought) -> Option<usize>
        requires { Indexes self.now socks.now }
        ensures place { (sockets : List TcpSocket) → AllStand socks.now sockets → result ≡ position (is_sought sought) sockets }
        ensures within { IfSome result (λ place. place < length socks.now) }
    {
        match &self.tables {
            Some(tables) => tables.place_of(socks, self.last, sought),
            None => place_in(socks, sought),
        }
    }

    /// The least given port that no end has, if there is one, where that is known: not while a socket
    /// acts.
    pub(crate) fn free_port(&self, socks: &[TcpSock]) -> Option<Option<u16>>
        requires { Indexes self.now socks.now }
        ensures { (free : Option ℕ) → result ≡ Some free → (sockets : List TcpSocket) → AllStand socks.now sockets
            → free ≡ least_free_port (flat_map ends_of sockets) }
    {
        match &self.given {
            Some(given) => given.free_port(socks, self.last),
            None => None,
        }
    }

    /// The first place that is free, or else the one behind all.
    pub(crate) fn free_place(&self, socks: &[TcpSock]) -> usize
        requires { Indexes self.now socks.now }
        ensures { (sockets : List TcpSocket) → AllStand socks.now sockets → result ≡ position_or_len is_free sockets }
    {
        match &self.room {
            Some(room) => room.free_place(socks, self.last),
            None => free_place_in(socks),
        }
    }
}
