//! What is seen of a socket before and after an act on it.

ghost use Rattle.std.specs.Prelude.{◌≡◌};
ghost use Rattle.host_sockets.specs.Rises.{slot_glance};

use crate::tcp_sock::TcpSock;
use sim_base::POLLRDHUP;
use sock_udp::UdpSock;

/// The bits of `poll(2)` that hold of a socket, and how much waits in it.
#[derive(Clone, Copy)]
pub struct Glance {
    pub bits: u16,
    pub waiting: usize,
}

/// What is seen in the place of a UDP socket.
pub(crate) fn slot_glance(slot: &Option<UdpSock>) -> Glance
    ensures { result ≡ slot_glance slot.now }
{
    match slot {
        Some(sock) => Glance {
            bits: sock.ready(),
            waiting: sock.len(),
        },
        None => Glance {
            bits: 0,
            waiting: 0,
        },
    }
}

impl TcpSock {
    ghost use Rattle.std.specs.Prelude.{◌≡◌};
    ghost use Rattle.host_sockets.specs.TcpSocket.{TcpSocket};
    ghost use Rattle.host_sockets.specs.Rises.{end_bit, bits_of, waiting_of, tcp_glance};
    ghost use Rattle.host_sockets.specs.StandsFor.{SocketStands};

    /// `POLLRDHUP` where its peer's FIN was taken.
    fn end_bit(&self) -> u16
        ensures { (s : TcpSocket) → SocketStands self.now s → result ≡ end_bit s.tcb }
    {
        match &self.conn {
            Some(conn) => {
                if conn.control().fin_taken {
                    POLLRDHUP
                } else {
                    0
                }
            }
            None => 0,
        }
    }

    /// The bits that hold of it: what it is ready for, and `POLLRDHUP`.
    pub(crate) fn bits(&self) -> u16
        ensures { (s : TcpSocket) → SocketStands self.now s → result ≡ bits_of s }
    {
        self.ready() | self.end_bit()
    }

    /// How many bytes wait in its connection, or whole connections at its listener.
    fn waiting(&self) -> usize
        ensures { (s : TcpSocket) → SocketStands self.now s → result ≡ waiting_of s.tcb s.listen }
    {
        if let Some(conn) = &self.conn {
            return conn.unread();
        }
        match &self.listener {
            Some(listener) => listener.waiting(),
            None => 0,
        }
    }

    /// What is seen of it.
    pub(crate) fn glance(&self) -> Glance
        ensures { (s : TcpSocket) → SocketStands self.now s → result ≡ tcp_glance s }
    {
        Glance {
            bits: self.bits(),
            waiting: self.waiting(),
        }
    }
}
