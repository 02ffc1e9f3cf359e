//! Calls that bind TCP sockets, and make them listen.

use crate::index::NO_PLACE;
use crate::sockets::Sockets;
use crate::tcp_sock::TcpSock;
use host_wants::{CallError, Refusal};
use sim_base::{Addr, Errno, Ip};
use sock_tcp::Listener;
use std::alloc::Global;

impl TcpSock {
    ghost use Rattle.std.specs.Prelude.{◌≡◌, is_some};
    ghost use Rattle.sim_base.specs.declared.errno.Errno.TheVariants.{Einval};
    ghost use Rattle.sim_base.specs.Refusals.{refuse_if};
    ghost use Rattle.host_wants.specs.declared.error.Refusal.TheVariants as refusal;
    ghost use Rattle.host_sockets.specs.TcpSocket.{TcpSocket, with_bound};
    ghost use Rattle.host_sockets.specs.Binding.{bind_begins, listening};
    ghost use Rattle.host_sockets.specs.StandsFor.{SocketStands};

    /// What refuses to bind it on a host with this address, before ports are looked at.
    fn may_bind(&self, own: Ip, at: Addr) -> Result<(), Refusal>
        ensures { (s : TcpSocket) → SocketStands self.now s → result ≡ bind_begins own at s }
    {
        if self.bound.is_some() {
            return Err(Refusal::Errno(Errno::Einval));
        }
        if !at.ip.is_local(own) {
            return Err(Refusal::Errno(Errno::Eaddrnotavail));
        }
        Ok(())
    }

    /// Refuses to let it listen where it has a connection.
    fn may_listen(&self) -> Result<(), Refusal>
        ensures { (s : TcpSocket) → SocketStands self.now s → result ≡ refuse_if (is_some s.tcb) (refusal.Errno Einval) }
    {
        if self.conn.is_some() {
            Err(Refusal::Errno(Errno::Einval))
        } else {
            Ok(())
        }
    }

    /// It is bound to an end.
    fn bind(&mut self, at: Addr)
        ensures { (s : TcpSocket) → SocketStands self.old s → SocketStands self.new (with_bound at s) }
    {
        self.bound = Some(at);
    }

    /// It listens on an end, or its queue holds another number of connections from now on.
    fn listen(&mut self, alloc: Global, at: Addr, backlog: i32)
        ensures { (s : TcpSocket) → SocketStands self.old s → SocketStands self.new (listening at backlog s) }
    {
        self.bound = Some(at);
        if let Some(listener) = &mut self.listener {
            listener.set_backlog(backlog);
            return;
        }
        self.listener = Some(Listener::new(alloc, at, backlog));
    }
}

impl Sockets {
    ghost use Rattle.std.specs.Prelude.{◌≡◌};
    ghost use Rattle.host_sockets.specs.Sockets.{SocketsRecord, changes_at};
    ghost use Rattle.host_sockets.specs.TcpSocket.{with_bound};
    ghost use Rattle.host_sockets.specs.Binding.{tcp_bound, bind_begun, bind_asked, binds_tcp, listen_begun, listen_asked, listening, listens_tcp};
    ghost use Rattle.host_sockets.specs.StandsFor.{Stand, Becomes};
    ghost use Rattle.host_sockets.specs.inside.StandsFor.{Asks};

    /// Whether the TCP socket with a number is bound by `bind_tcp` or `listen_tcp`.
    pub fn bound_tcp(&self, k: usize) -> bool
        ensures { (t : SocketsRecord) → Stand self.now t → result ≡ tcp_bound k t }
    {
        if k >= self.tcp.len() {
            return false;
        }
        self.tcp[k].bound.is_some()
    }

    /// What refuses to bind the socket with a number, before ports are looked at.
    fn may_bind(&self, k: usize, at: Addr) -> Result<(), Refusal>
        ensures { (t : SocketsRecord) → Stand self.now t → result ≡ bind_begun k at t }
    {
        if k >= self.tcp.len() {
            return Err(Refusal::Errno(Errno::Ebadf));
        }
        self.tcp[k].may_bind(self.own, at)
    }

    /// Where the socket with a number is bound that asks for an end.
    fn end_to_bind(&self, k: usize, at: Addr) -> Result<Addr, CallError>
        ensures { (t : SocketsRecord) → Stand self.now t → Asks (bind_asked k at t) result }
    {
        self.may_bind(k, at)?;
        let end = match self.end_asked(at)? {
            Some(end) => end,
            None => return Err(CallError::Refused(Refusal::Errno(Errno::Eaddrnotavail))),
        };
        if self.is_met(at, end)? {
            return Err(CallError::Refused(Refusal::Errno(Errno::Eaddrinuse)));
        }
        Ok(end)
    }

    fn bind_at(&mut self, k: usize, at: Addr)
        ensures { (t : SocketsRecord) → Stand self.old t → Stand self.new (changes_at k (with_bound at) t) }
    {
        if k >= self.tcp.len() {
            return;
        }
        let before = self.begin_act(k);
        let sock = &mut self.tcp[k];
        sock.bind(at);
        self.end_act(k, before);
    }

    /// Binds the TCP socket with a number to an address, for port 0 at the least port from 10000 up
    /// that no TCP socket or connection of the host has (`bind(2)`).
    ///
    /// Refused in this order: `Ebadf`, there is no such socket; `Einval`, it is bound;
    /// `Eaddrnotavail`, the address is not 0.0.0.0, 127.0.0.1 or the host's, or no port is free;
    /// `Eaddrinuse`, another TCP socket of the host is bound to the port, and to the same address or
    /// either of them to 0.0.0.0. Connections alone don't stand in its way.
    #[tactic(auto, unfolding(crate::specs::Binding::binds_tcp))]
    pub fn bind_tcp(&mut self, k: usize, at: Addr) -> Result<(), CallError>
        ensures { (t : SocketsRecord) → Stand self.old t → Becomes (binds_tcp k at t) t self.new result }
    {
        self.turn_to(NO_PLACE);
        let end = self.end_to_bind(k, at)?;
        self.bind_at(k, end);
        Ok(())
    }

    /// What refuses to make the socket with a number listen, before ports are looked at.
    fn may_listen(&self, k: usize) -> Result<(), Refusal>
        ensures { (t : SocketsRecord) → Stand self.now t → result ≡ listen_begun k t }
    {
        if k >= self.tcp.len() {
            return Err(Refusal::Errno(Errno::Ebadf));
        }
        self.tcp[k].may_listen()
    }

    /// The end that the socket with a number listens on.
    fn end_to_listen(&self, k: usize) -> Result<Addr, CallError>
        ensures { (t : SocketsRecord) → Stand self.now t → Asks (listen_asked k t) result }
    {
        self.may_listen(k)?;
        self.bound_or_free(k)
    }

    fn listen_at(&mut self, k: usize, at: Addr, backlog: i32)
        ensures { (t : SocketsRecord) → Stand self.old t → Stand self.new (changes_at k (listening at backlog) t) }
    {
        if k >= self.tcp.len() {
            return;
        }
        let alloc = self.alloc();
        let before = self.begin_act(k);
        let sock = &mut self.tcp[k];
        sock.listen(alloc, at, backlog);
        self.end_act(k, before);
    }

    /// Makes the TCP socket with a number listen, or changes how many connections its queue holds: as
    /// many as `backlog` asks for, at least 1 and at most 128 (`listen(2)`). An unbound one is bound
    /// to 0.0.0.0 and the least free port.
    ///
    /// Refused in this order: `Ebadf`, there is no such socket; `Einval`, it is connected or
    /// connecting; `Eaddrnotavail`, no port is free.
    #[tactic(auto, unfolding(crate::specs::Binding::listens_tcp))]
    pub fn listen_tcp(&mut self, k: usize, backlog: i32) -> Result<(), CallError>
        ensures { (t : SocketsRecord) → Stand self.old t → Becomes (listens_tcp k backlog t) t self.new result }
    {
        self.turn_to(NO_PLACE);
        let at = self.end_to_listen(k)?;
        self.listen_at(k, at, backlog);
        Ok(())
    }
}
