//! What sockets are ready for, by the bits of `poll(2)`.

use crate::sockets::Sockets;
use crate::tcp_sock::TcpSock;
use sim_base::{POLLHUP, POLLOUT};

impl TcpSock {
    ghost use Rattle.std.specs.Prelude.{◌≡◌};
    ghost use Rattle.host_sockets.specs.TcpSocket.{TcpSocket};
    ghost use Rattle.host_sockets.specs.Ready.{ready_of};
    ghost use Rattle.host_sockets.specs.StandsFor.{SocketStands};

    /// What it is ready for: as its connection is, or its listener, and a fresh one is ready to be
    /// written and hung up.
    pub(crate) fn ready(&self) -> u16
        ensures { (s : TcpSocket) → SocketStands self.now s → result ≡ ready_of s.tcb s.listen }
    {
        if let Some(conn) = &self.conn {
            return conn.ready();
        }
        match &self.listener {
            Some(listener) => listener.ready(),
            None => POLLOUT + POLLHUP,
        }
    }
}

impl Sockets {
    ghost use Rattle.std.specs.Prelude.{◌≡◌};
    ghost use Rattle.host_sockets.specs.Sockets.{SocketsRecord};
    ghost use Rattle.host_sockets.specs.Ready.{tcp_ready, tcp_seen};
    ghost use Rattle.host_sockets.specs.StandsFor.{Stand};

    /// What the TCP socket with a number is ready for; a number without a socket for nothing.
    pub fn tcp_ready(&self, k: usize) -> u16
        ensures { (t : SocketsRecord) → Stand self.now t → result ≡ tcp_ready k t }
    {
        if k >= self.tcp.len() {
            return 0;
        }
        self.tcp[k].ready()
    }

    /// The same with `POLLRDHUP`, where the peer's FIN was taken.
    pub fn tcp_seen(&self, k: usize) -> u16
        ensures { (t : SocketsRecord) → Stand self.now t → result ≡ tcp_seen k t }
    {
        if k >= self.tcp.len() {
            return 0;
        }
        self.tcp[k].bits()
    }
}
