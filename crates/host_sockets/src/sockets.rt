//! The sockets of a host.

ghost use Rattle.std.proofs.Props.{props};
ghost use Rattle.host_sockets.specs.inside.Indexing.{Indexes};

use crate::index::{Index, NO_PLACE};
use crate::rises::put_none;
use crate::tcp_sock::TcpSock;
use crate::udp_socks::UdpSocks;
use host_fds::Rises;
use sim_base::{Ip, NoMemory};
use sock_tcp::Carried;
use std::alloc::Global;

/// The sockets of a host and their rises, by their numbers, the connections that closed ones leave
/// behind, what those carried that are gone, and how many were made. After a call that answers want of
/// memory nothing is known of them.
pub struct Sockets {
    pub(crate) own: Ip,
    pub(crate) udp: UdpSocks,
    pub(crate) tcp: Vec<TcpSock>,
    pub(crate) udp_risen: Vec<Rises>,
    pub(crate) tcp_risen: Vec<Rises>,
    pub(crate) gone: Vec<Carried>,
    pub(crate) made: usize,
    pub(crate) index: Index,
    ghost indexed: { Indexes index tcp.items } by { Prim.hlevel props },
}

/// By hand: a derived one would be proved anew in each crate that drops such a value.
impl Drop for Sockets {
    fn drop(self) {
        let Sockets {
            own: _,
            udp,
            tcp,
            udp_risen,
            tcp_risen,
            gone,
            made: _,
            index,
        } = self;
        drop(udp);
        drop(tcp);
        drop(udp_risen);
        drop(tcp_risen);
        drop(gone);
        drop(index);
    }
}

impl Sockets {
    ghost use Rattle.std.specs.Prelude.{◌≡◌, ◌<◌, ◌≤◌, length, IfOk, OnOk};
    ghost use Rattle.host_sockets.specs.TcpSocket.{TcpSocket};
    ghost use Rattle.host_sockets.specs.Sockets.{SocketsRecord, no_sockets, put_tcp_at, tcp_place, put_tcp, new_tcp};
    ghost use Rattle.host_sockets.specs.StandsFor.{SocketStands, Stand};
    ghost use Rattle.host_sockets.specs.inside.Made.{MakesRoom};

    /// The sockets of a host with this address, which has none yet.
    pub fn new(alloc: Global, own: Ip) -> Sockets
        ensures { Stand result (no_sockets own) }
    {
        Sockets {
            own,
            udp: UdpSocks::new(alloc),
            tcp: Vec::new(alloc),
            udp_risen: Vec::new(alloc),
            tcp_risen: Vec::new(alloc),
            gone: Vec::new(alloc),
            made: 0,
            index: Index::new(alloc),
        }
    }

    /// The host's address.
    pub fn own(&self) -> Ip
        ensures { (t : SocketsRecord) → Stand self.now t → result ≡ t.own }
    {
        self.own
    }

    pub(crate) fn alloc(&self) -> Global {
        *self.tcp.allocator()
    }

    /// The TCP socket with a number acts from now on.
    pub(crate) fn turn_to(&mut self, k: usize)
        ensures own { self.new.own ≡ self.old.own }
        ensures udp { self.new.udp ≡ self.old.udp }
        ensures tcp { self.new.tcp ≡ self.old.tcp }
        ensures udp_risen { self.new.udp_risen ≡ self.old.udp_risen }
        ensures tcp_risen { self.new.tcp_risen ≡ self.old.tcp_risen }
        ensures gone { self.new.gone ≡ self.old.gone }
        ensures acts { self.new.index.last ≡ k }
        ensures stands { (t : SocketsRecord) → Stand self.old t → Stand self.new t }
    {
        self.index.turn_to(self.tcp.as_slice(), k);
    }

    /// A connection is made. Room is taken for what it carries, so that none is wanted when it is let go.
    pub(crate) fn make_room(&mut self) -> Result<(), NoMemory>
        ensures stands { OnOk result ((t : SocketsRecord) → Stand self.old t → Stand self.new t) }
        ensures room { OnOk result (MakesRoom self.old self.new) }
    {
        self.made = self.made.saturating_add(1);
        self.gone
            .reserve(self.made.saturating_sub(self.gone.len()))?;
        Ok(())
    }

    /// The least number that a new TCP socket may take.
    fn tcp_place(&self) -> usize
        ensures { (t : SocketsRecord) → Stand self.now t → result ≡ tcp_place t }
    {
        self.index.free_place(self.tcp.as_slice())
    }

    /// Puts a TCP socket at a place of the list.
    fn set_tcp(&mut self, place: usize, sock: TcpSock) -> Result<(), NoMemory>
        requires { place < length self.old.tcp.items }
        ensures { OnOk result ((t : SocketsRecord) (s : TcpSocket) → Stand self.old t → SocketStands sock s
            → Stand self.new (put_tcp_at place s t)) }
    {
        self.turn_to(place);
        self.tcp[place] = sock;
        put_none(&mut self.tcp_risen, place)?;
        Ok(())
    }

    /// Puts a TCP socket behind the list, which ends before a place.
    fn push_tcp(&mut self, place: usize, sock: TcpSock) -> Result<(), NoMemory>
        requires { length self.old.tcp.items ≤ place }
        ensures { OnOk result ((t : SocketsRecord) (s : TcpSocket) → Stand self.old t → SocketStands sock s
            → Stand self.new (put_tcp_at place s t)) }
    {
        let behind = self.tcp.len();
        self.turn_to(behind);
        self.tcp.push(sock)?;
        put_none(&mut self.tcp_risen, place)?;
        Ok(())
    }

    /// Puts a TCP socket at a place of the list, or behind it.
    fn put_tcp_at(&mut self, place: usize, sock: TcpSock) -> Result<(), NoMemory>
        ensures { OnOk result ((t : SocketsRecord) (s : TcpSocket) → Stand self.old t → SocketStands sock s
            → Stand self.new (put_tcp_at place s t)) }
    {
        if place < self.tcp.len() {
            return self.set_tcp(place, sock);
        }
        self.push_tcp(place, sock)
    }

    /// Puts a TCP socket at the least number that is free, and answers it.
    pub(crate) fn put_tcp(&mut self, sock: TcpSock) -> Result<usize, NoMemory>
        ensures place { IfOk result (λ k. (t : SocketsRecord) → Stand self.old t → k ≡ tcp_place t) }
        ensures stands { OnOk result ((t : SocketsRecord) (s : TcpSocket) → Stand self.old t → SocketStands sock s
            → Stand self.new (put_tcp s t)) }
    {
        self.turn_to(NO_PLACE);
        let place = self.tcp_place();
        self.put_tcp_at(place, sock)?;
        Ok(place)
    }

    /// Makes a TCP socket, and answers its number, the least one that is free (`socket(2)`).
    pub fn new_tcp(&mut self) -> Result<usize, NoMemory>
        ensures place { IfOk result (λ k. (t : SocketsRecord) → Stand self.old t → k ≡ (new_tcp t).0) }
        ensures stands { OnOk result ((t : SocketsRecord) → Stand self.old t → Stand self.new (new_tcp t).1) }
    {
        let sock = TcpSock::fresh(self.alloc(), true);
        self.put_tcp(sock)
    }
}
