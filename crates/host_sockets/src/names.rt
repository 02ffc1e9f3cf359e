//! The ends of sockets.

use crate::sockets::Sockets;
use crate::tcp_sock::TcpSock;
use host_wants::Refusal;
use sim_base::{Addr, Errno};
use udp_slots::NOWHERE;

impl TcpSock {
    ghost use Rattle.std.specs.Prelude.{◌≡◌};
    ghost use Rattle.host_sockets.specs.TcpSocket.{TcpSocket};
    ghost use Rattle.host_sockets.specs.Names.{name_in, peer_in};
    ghost use Rattle.host_sockets.specs.StandsFor.{SocketStands};

    /// Its own end.
    fn name(&self) -> Addr
        ensures { (s : TcpSocket) → SocketStands self.now s → result ≡ name_in s.tcb s.bound }
    {
        match &self.conn {
            Some(conn) => conn.control().local,
            None => self.bound.unwrap_or(NOWHERE),
        }
    }

    /// The other end.
    fn peer(&self) -> Result<Addr, Refusal>
        ensures { (s : TcpSocket) → SocketStands self.now s → result ≡ peer_in s.tcb }
    {
        match &self.conn {
            Some(conn) => Ok(conn.control().peer),
            None => Err(Refusal::Errno(Errno::Enotconn)),
        }
    }
}

impl Sockets {
    ghost use Rattle.std.specs.Prelude.{◌≡◌};
    ghost use Rattle.host_sockets.specs.Sockets.{SocketsRecord};
    ghost use Rattle.host_sockets.specs.Names.{tcp_name, tcp_peer};
    ghost use Rattle.host_sockets.specs.StandsFor.{Stand};

    /// The own end of the TCP socket with a number: its connection's, or what it is bound to, or
    /// 0.0.0.0:0 (`getsockname(2)`).
    ///
    /// Refused by `Ebadf` where there is no such socket.
    pub fn tcp_name(&self, k: usize) -> Result<Addr, Refusal>
        ensures { (t : SocketsRecord) → Stand self.now t → result ≡ tcp_name k t }
    {
        if k >= self.tcp.len() {
            return Err(Refusal::Errno(Errno::Ebadf));
        }
        Ok(self.tcp[k].name())
    }

    /// The other end of the connection of the TCP socket with a number, also while it connects
    /// (`getpeername(2)`).
    ///
    /// Refused in this order: `Ebadf`, there is no such socket; `Enotconn`, it has no connection.
    pub fn tcp_peer(&self, k: usize) -> Result<Addr, Refusal>
        ensures { (t : SocketsRecord) → Stand self.now t → result ≡ tcp_peer k t }
    {
        if k >= self.tcp.len() {
            return Err(Refusal::Errno(Errno::Ebadf));
        }
        self.tcp[k].peer()
    }
}
