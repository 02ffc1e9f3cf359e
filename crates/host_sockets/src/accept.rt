//! Accepting connections.

use crate::reply::Accepted;
use crate::sockets::Sockets;
use crate::tcp_sock::TcpSock;
use host_wants::{CallError, Refusal};
use sim_base::{Errno, NoMemory};
use sock_tcp::Conn;
use std::alloc::Global;

impl TcpSock {
    ghost use Rattle.std.specs.Prelude.{◌≡◌, is_none};
    ghost use Rattle.sim_base.specs.declared.errno.Errno.TheVariants.{Einval};
    ghost use Rattle.sim_base.specs.Refusals.{refuse_if};
    ghost use Rattle.host_wants.specs.declared.error.Refusal.TheVariants as refusal;
    ghost use Rattle.sock_tcp.specs.connection.StandsFor.{StandsFor};
    ghost use Rattle.sock_tcp.specs.connection.Tcb.{Tcb};
    ghost use Rattle.host_sockets.specs.TcpSocket.{TcpSocket};
    ghost use Rattle.host_sockets.specs.Accepting.{accepted, accepts_in};
    ghost use Rattle.host_sockets.specs.StandsFor.{SocketStands};

    /// The socket of a connection that was accepted.
    fn accepted(alloc: Global, conn: Conn) -> TcpSock
        ensures { (r : Tcb) → StandsFor conn r → SocketStands result (accepted r) }
    {
        TcpSock {
            held: true,
            bound: None,
            conn: Some(conn),
            listener: None,
            serial: 0,
            timers: Vec::new(alloc),
        }
    }

    /// Refuses a socket that doesn't listen.
    fn refuse_unlistening(&self) -> Result<(), Refusal>
        ensures { (s : TcpSocket) → SocketStands self.now s
            → result ≡ refuse_if (is_none s.listen) (refusal.Errno Einval) }
    {
        if self.listener.is_none() {
            Err(Refusal::Errno(Errno::Einval))
        } else {
            Ok(())
        }
    }

    /// Whether no whole connection waits.
    #[tactic(auto, using(crate::proofs::AcceptQueue::none_waits))]
    fn none_waits(&self) -> bool
        ensures { (s : TcpSocket) → SocketStands self.now s → result ≡ is_none (accepts_in s.listen) }
    {
        match &self.listener {
            Some(listener) => listener.waiting() == 0,
            None => true,
        }
    }
}

impl Sockets {
    ghost use Rattle.std.specs.Prelude.{◌≡◌, is_none, IfOk, OnOk};
    ghost use Rattle.sock_tcp.specs.connection.StandsFor.{StandsFor};
    ghost use Rattle.sock_tcp.specs.connection.Tcb.{Tcb};
    ghost use Rattle.host_sockets.specs.Sockets.{SocketsRecord};
    ghost use Rattle.host_sockets.specs.Accepting.{accept_asked, accepts_at, accept_ready, placed, accepts_tcp};
    ghost use Rattle.host_sockets.specs.inside.Accepting.{TakesAt};
    ghost use Rattle.host_sockets.specs.StandsFor.{Stand, Becomes};

    /// Whether the TCP socket with a number listens.
    ///
    /// Refused in this order: `Ebadf`, there is no such socket; `Einval`, it doesn't listen.
    pub fn accept_asked(&self, k: usize) -> Result<(), Refusal>
        ensures { (t : SocketsRecord) → Stand self.now t → result ≡ accept_asked k t }
    {
        if k >= self.tcp.len() {
            return Err(Refusal::Errno(Errno::Ebadf));
        }
        self.tcp[k].refuse_unlistening()
    }

    /// Whether no whole connection waits at the socket with a number.
    fn none_waits_at(&self, k: usize) -> bool
        ensures { (t : SocketsRecord) → Stand self.now t → result ≡ is_none (accepts_at k t) }
    {
        if k >= self.tcp.len() {
            return true;
        }
        self.tcp[k].none_waits()
    }

    /// Whether a whole connection waits at the TCP socket with a number.
    ///
    /// Refused as by `accept_asked`, and else where none waits: the call does.
    pub fn accept_ready(&self, k: usize) -> Result<(), Refusal>
        ensures { (t : SocketsRecord) → Stand self.now t → result ≡ accept_ready k t }
    {
        self.accept_asked(k)?;
        if self.none_waits_at(k) {
            return Err(Refusal::Wait(None));
        }
        Ok(())
    }

    /// The oldest whole connection of the listener with a number, which keeps it no more.
    fn take_at(&mut self, k: usize) -> Option<Conn>
        ensures { (t : SocketsRecord) → Stand self.old t → TakesAt (accepts_at k t) k t result self.new }
    {
        if k >= self.tcp.len() {
            return None;
        }
        let before = self.begin_act(k);
        let sock = &mut self.tcp[k];
        let conn = sock.take_conn()?;
        self.end_act(k, before);
        Some(conn)
    }

    /// Puts an accepted connection into a new socket.
    fn place_conn(&mut self, conn: Conn) -> Result<Accepted, NoMemory>
        ensures answer { IfOk result (λ answer. (t : SocketsRecord) (r : Tcb) → Stand self.old t → StandsFor conn r → answer ≡ (placed r t).0) }
        ensures stands { OnOk result ((t : SocketsRecord) (r : Tcb) → Stand self.old t → StandsFor conn r → Stand self.new (placed r t).1) }
    {
        let peer = conn.control().peer;
        let sock = TcpSock::accepted(self.alloc(), conn);
        let socket = self.put_tcp(sock)?;
        Ok(Accepted { socket, peer })
    }

    /// Gives the oldest whole connection of the listener with a number a socket of its own
    /// (`accept(2)`).
    ///
    /// Refused in this order: `Ebadf`, there is no such socket; `Einval`, it doesn't listen; where
    /// no whole connection waits the call does.
    #[tactic(auto, unfolding(crate::specs::Accepting::accepts_tcp))]
    pub fn accept_tcp(&mut self, k: usize) -> Result<Accepted, CallError>
        ensures { (t : SocketsRecord) → Stand self.old t → Becomes (accepts_tcp k t) t self.new result }
    {
        self.accept_asked(k)?;
        match self.take_at(k) {
            Some(conn) => {
                let accepted = self.place_conn(conn)?;
                Ok(accepted)
            }
            None => Err(CallError::Refused(Refusal::Wait(None))),
        }
    }
}
