//! What a new TCP socket may take: the least place that is free.

ghost use Rattle.std.specs.Prelude.{◌≡◌, List};
ghost use Rattle.std.specs.List.{position_or_len};
ghost use Rattle.host_sockets.specs.TcpSocket.{TcpSocket, is_free};
ghost use Rattle.host_sockets.specs.SocketsStand.{AllStand};

use crate::slots::{Sought, place_in};
use crate::tcp_sock::TcpSock;
use number_sets::NumberSet;
use std::alloc::Global;

/// The places of sockets that aren't free.
#[derive(Drop)]
pub struct Room {
    pub(crate) taken: NumberSet,
}

/// The first place that is free, or else the one behind all: each socket is looked at.
pub(crate) fn free_place_in(socks: &[TcpSock]) -> usize
    ensures { (sockets : List TcpSocket) → AllStand socks.now sockets → result ≡ position_or_len is_free sockets }
{
    place_in(socks, Sought::Free).unwrap_or(socks.len())
}

impl Room {
    ghost use Rattle.std.specs.Prelude.{◌≡◌, true, List, []};
    ghost use Rattle.std.specs.List.{position_or_len};
    ghost use Rattle.host_sockets.specs.TcpSocket.{TcpSocket, is_free};
    ghost use Rattle.host_sockets.specs.SocketsStand.{AllStand};
    ghost use Rattle.host_sockets.specs.inside.Indexing.{KnowsOthers, KnowsAll};

    /// Nothing is taken.
    pub(crate) fn new(alloc: Global) -> Room
        ensures { KnowsAll result [] }
    {
        Room {
            taken: NumberSet::new(alloc),
        }
    }

    /// Enters the socket at a place as it is now. Answers whether it did: it doesn't where memory is
    /// wanting.
    pub(crate) fn update(&mut self, socks: &[TcpSock], place: usize) -> bool
        requires { KnowsOthers place self.old socks.now }
        ensures { result ≡ true → KnowsAll self.new socks.now }
    {
        if place >= socks.len() {
            return true;
        }
        if socks[place].is_free() {
            self.taken.remove(place);
            return true;
        }
        self.taken.insert(place).is_ok()
    }

    /// The first place that is free, or else the one behind all. Where the socket at the place `last`
    /// acts, which isn't entered, each one is looked at.
    pub(crate) fn free_place(&self, socks: &[TcpSock], last: usize) -> usize
        requires { KnowsOthers last self.now socks.now }
        ensures { (sockets : List TcpSocket) → AllStand socks.now sockets → result ≡ position_or_len is_free sockets }
    {
        if last < socks.len() {
            return free_place_in(socks);
        }
        self.taken.least_absent().min(socks.len())
    }
}
