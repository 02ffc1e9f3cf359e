//! A TCP socket.

ghost use Rattle.std.specs.Prelude.{◌≡◌};
ghost use Rattle.sock_tcp.specs.connection.Pairs.{is_pair};
ghost use Rattle.sock_tcp.specs.listener.Listen.{listens_at};

use sim_base::{Addr, Ip, Packet};
use sock_tcp::{Conn, Control, Listener};
use std::alloc::Global;

/// The timer of a connection that a listener keeps: the two ends, and the serial of its alarm.
#[derive(Clone, Copy)]
pub struct KeptTimer {
    pub own: Addr,
    pub other: Addr,
    pub serial: u64,
}

/// A TCP socket, or what a closed one leaves behind: its connection lives on until it is over.
#[derive(Drop)]
pub struct TcpSock {
    pub(crate) held: bool,
    pub(crate) bound: Option<Addr>,
    pub(crate) conn: Option<Conn>,
    pub(crate) listener: Option<Listener>,
    pub(crate) serial: u64,
    pub(crate) timers: Vec<KeptTimer>,
}

/// Whether a live connection has these two ends.
fn is_pair(control: Control, own: Addr, other: Addr) -> bool
    ensures { result ≡ is_pair own other control }
{
    !control.state.is_over() && control.local == own && control.peer == other
}

/// Whether a listener at an end takes what asks for a connection to another.
fn listens_at(at: Addr, to: Addr) -> bool
    ensures { result ≡ listens_at to at }
{
    at.port == to.port && (at.ip == Ip::ANY || at.ip == to.ip)
}

impl TcpSock {
    ghost use Rattle.std.specs.Prelude.{◌≡◌};
    ghost use Rattle.host_sockets.specs.TcpSocket.{TcpSocket, fresh, is_free, has_record, keeps_record, listens_to};
    ghost use Rattle.host_sockets.specs.StandsFor.{SocketStands};
    ghost use Rattle.host_sockets.specs.inside.Made.{makes_record};

    /// A socket that is unbound and has nothing else, or the place of one.
    pub(crate) fn fresh(alloc: Global, held: bool) -> TcpSock
        ensures { SocketStands result (fresh held) }
    {
        TcpSock {
            held,
            bound: None,
            conn: None,
            listener: None,
            serial: 0,
            timers: Vec::new(alloc),
        }
    }

    /// The allocator of what it holds.
    pub(crate) fn alloc(&self) -> Global {
        *self.timers.allocator()
    }

    /// Whether a new socket may take its place.
    pub(crate) fn is_free(&self) -> bool
        ensures { (s : TcpSocket) → SocketStands self.now s → result ≡ is_free s }
    {
        !(self.held || self.conn.is_some() || self.listener.is_some())
    }

    /// Whether it has the live connection of two ends.
    pub(crate) fn has_record(&self, own: Addr, other: Addr) -> bool
        ensures { (s : TcpSocket) → SocketStands self.now s → result ≡ has_record own other s }
    {
        match &self.conn {
            Some(conn) => is_pair(conn.control(), own, other),
            None => false,
        }
    }

    /// Whether its listener keeps the live connection of two ends.
    pub(crate) fn keeps_record(&self, own: Addr, other: Addr) -> bool
        ensures { (s : TcpSocket) → SocketStands self.now s → result ≡ keeps_record own other s }
    {
        match &self.listener {
            Some(listener) => listener.is_kept(own, other),
            None => false,
        }
    }

    /// Whether it listens for connections to an end.
    pub(crate) fn listens_to(&self, to: Addr) -> bool
        ensures { (s : TcpSocket) → SocketStands self.now s → result ≡ listens_to to s }
    {
        match &self.listener {
            Some(listener) => listens_at(listener.local(), to),
            None => false,
        }
    }

    /// Whether its listener makes a connection of a segment.
    pub(crate) fn makes_record(&self, packet: &Packet) -> bool
        ensures { (s : TcpSocket) → SocketStands self.now s → result ≡ makes_record packet.now s.listen }
    {
        match &self.listener {
            Some(listener) => listener.makes_record(packet),
            None => false,
        }
    }
}
