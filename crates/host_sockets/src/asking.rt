//! What refuses calls on a TCP socket.

ghost use Rattle.std.specs.Prelude.{◌≡◌, Some};
ghost use Rattle.sock_tcp.specs.connection.StandsFor.{StandsFor};
ghost use Rattle.sock_tcp.specs.connection.Tcb.{Tcb};
ghost use Rattle.host_wants.specs.Refusals.{broken_pipe};
ghost use Rattle.host_sockets.specs.Connecting.{refuse_connected, connect_ends, reach_from};
ghost use Rattle.host_sockets.specs.Moving.{may_write, would_read, may_recv};

use crate::tcp_sock::TcpSock;
use host_wants::Refusal;
use sim_base::{Addr, Book, Errno, Ip, Signal, State, stays_inside};
use sock_tcp::{Conn, Control};

/// What refuses a write where nobody reads: the process ends by SIGPIPE, or is told where it asked
/// not to be ended.
fn broken_pipe(quiet: bool) -> Refusal
    ensures { result ≡ broken_pipe quiet }
{
    if quiet {
        Refusal::Errno(Errno::Epipe)
    } else {
        Refusal::End(State::Signaled(Signal::SigPipe))
    }
}

/// What refuses a write of so many bytes over a connection.
fn may_write(conn: &Conn, count: usize, quiet: bool) -> Result<(), Refusal>
    ensures { (r : Tcb) → StandsFor conn.now r → result ≡ may_write count quiet (Some r) }
{
    let control = conn.control();
    if let Some(errno) = control.error {
        return Err(Refusal::Kept(errno));
    }
    if control.state.is_syn_sent() {
        return Err(Refusal::Errno(Errno::Enotconn));
    }
    if !control.takes_bytes() {
        return Err(broken_pipe(quiet));
    }
    if count > 0 && conn.room() == 0 {
        return Err(Refusal::Wait(None));
    }
    Ok(())
}

/// Whether a read from a connection answers.
fn would_read(conn: &Conn, control: Control) -> bool
    ensures { (r : Tcb) → StandsFor conn.now r → control ≡ r.control → result ≡ would_read r }
{
    conn.unread() > 0 || control.fin_taken || control.reading_ended || control.state.is_over()
}

/// What refuses a read from a connection.
fn may_read(conn: &Conn) -> Result<(), Refusal>
    ensures { (r : Tcb) → StandsFor conn.now r → result ≡ may_recv (Some r) }
{
    let control = conn.control();
    if let Some(errno) = control.error {
        return Err(Refusal::Kept(errno));
    }
    if control.state.is_syn_sent() {
        return Err(Refusal::Errno(Errno::Enotconn));
    }
    if would_read(conn, control) {
        Ok(())
    } else {
        Err(Refusal::Wait(None))
    }
}

/// What refuses to connect a socket that has a connection.
fn refuse_connected(control: Control) -> Result<(), Refusal>
    ensures { (r : Tcb) → control ≡ r.control → result ≡ refuse_connected (Some r) }
{
    if control.state.is_syn_sent() {
        return Err(Refusal::Errno(Errno::Ealready));
    }
    if !control.was_established {
        if let Some(errno) = control.error {
            return Err(Refusal::Kept(errno));
        }
    }
    Err(Refusal::Errno(Errno::Eisconn))
}

/// What refuses a connect that waited for a connection.
fn connect_ends(control: Control) -> Result<(), Refusal>
    ensures { (r : Tcb) → control ≡ r.control → result ≡ connect_ends (Some r) }
{
    if control.state.is_syn_sent() {
        return Err(Refusal::Wait(None));
    }
    if !control.was_established {
        if let Some(errno) = control.error {
            return Err(Refusal::Kept(errno));
        }
    }
    Ok(())
}

/// Whether a socket that is bound so may send to an address.
fn reach(hosts: &Book, to: Ip, bound: Option<Addr>) -> Result<(), Refusal>
    ensures { result ≡ reach_from hosts.now to bound }
{
    if !hosts.is_reachable(to) {
        return Err(Refusal::Errno(Errno::Enetunreach));
    }
    if stays_inside(bound) && to != Ip::LOOPBACK {
        return Err(Refusal::Errno(Errno::Einval));
    }
    Ok(())
}

impl TcpSock {
    ghost use Rattle.std.specs.Prelude.{◌≡◌, is_none, is_some};
    ghost use Rattle.sim_base.specs.declared.errno.Errno.TheVariants.{Enotconn, Eopnotsupp};
    ghost use Rattle.sim_base.specs.Refusals.{refuse_if};
    ghost use Rattle.host_wants.specs.declared.error.Refusal.TheVariants as refusal;
    ghost use Rattle.host_sockets.specs.TcpSocket.{TcpSocket, connected, kept_error};
    ghost use Rattle.host_sockets.specs.Connecting.{connect_begins, connect_ends};
    ghost use Rattle.host_sockets.specs.Moving.{reach_given, may_send, may_recv};
    ghost use Rattle.host_sockets.specs.StandsFor.{SocketStands};

    /// The error that its connection keeps.
    pub(crate) fn kept_error(&self) -> Option<Errno>
        ensures { (s : TcpSocket) → SocketStands self.now s → result ≡ kept_error s.tcb }
    {
        match &self.conn {
            Some(conn) => conn.control().error,
            None => None,
        }
    }

    /// Refuses a socket that isn't connected.
    pub(crate) fn refuse_unconnected(&self) -> Result<(), Refusal>
        ensures { (s : TcpSocket) → SocketStands self.now s
            → result ≡ refuse_if (is_none (connected s.tcb)) (refusal.Errno Enotconn) }
    {
        match &self.conn {
            Some(conn) => {
                if conn.control().state.is_syn_sent() {
                    Err(Refusal::Errno(Errno::Enotconn))
                } else {
                    Ok(())
                }
            }
            None => Err(Refusal::Errno(Errno::Enotconn)),
        }
    }

    /// What refuses an address that a send is given.
    fn reach_given(&self, hosts: &Book, to: Option<Addr>) -> Result<(), Refusal>
        ensures { (s : TcpSocket) → SocketStands self.now s → result ≡ reach_given hosts.now to s }
    {
        match to {
            Some(to) => reach(hosts, to.ip, self.bound),
            None => Ok(()),
        }
    }

    /// What refuses a write.
    fn may_write(&self, count: usize, quiet: bool) -> Result<(), Refusal>
        ensures { (s : TcpSocket) → SocketStands self.now s → result ≡ may_write count quiet s.tcb }
    {
        match &self.conn {
            Some(conn) => may_write(conn, count, quiet),
            None => Err(Refusal::Errno(Errno::Enotconn)),
        }
    }

    /// What refuses a send of so many bytes.
    pub(crate) fn may_send(
        &self,
        hosts: &Book,
        count: usize,
        to: Option<Addr>,
        quiet: bool,
    ) -> Result<(), Refusal>
        ensures { (s : TcpSocket) → SocketStands self.now s → result ≡ may_send hosts.now count to quiet s }
    {
        self.reach_given(hosts, to)?;
        self.may_write(count, quiet)
    }

    /// What refuses a read.
    pub(crate) fn may_recv(&self) -> Result<(), Refusal>
        ensures { (s : TcpSocket) → SocketStands self.now s → result ≡ may_recv s.tcb }
    {
        match &self.conn {
            Some(conn) => may_read(conn),
            None => Err(Refusal::Errno(Errno::Enotconn)),
        }
    }

    /// Refuses a socket that has a connection.
    fn refuse_connected(&self) -> Result<(), Refusal>
        ensures { (s : TcpSocket) → SocketStands self.now s → result ≡ refuse_connected s.tcb }
    {
        match &self.conn {
            Some(conn) => refuse_connected(conn.control()),
            None => Ok(()),
        }
    }

    /// What refuses to connect it, before ports are looked at.
    pub(crate) fn may_connect(&self, hosts: &Book, to: Addr) -> Result<(), Refusal>
        ensures { (s : TcpSocket) → SocketStands self.now s → result ≡ connect_begins hosts.now to s }
    {
        self.refuse_connected()?;
        self.refuse_listening()?;
        reach(hosts, to.ip, self.bound)?;
        if to.port == 0 {
            return Err(Refusal::Errno(Errno::Eaddrnotavail));
        }
        Ok(())
    }

    /// Refuses a listener.
    fn refuse_listening(&self) -> Result<(), Refusal>
        ensures { (s : TcpSocket) → SocketStands self.now s → result ≡ refuse_if (is_some s.listen) (refusal.Errno Eopnotsupp) }
    {
        if self.listener.is_some() {
            Err(Refusal::Errno(Errno::Eopnotsupp))
        } else {
            Ok(())
        }
    }

    /// What refuses a connect that waited.
    pub(crate) fn connect_ends(&self) -> Result<(), Refusal>
        ensures { (s : TcpSocket) → SocketStands self.now s → result ≡ connect_ends s.tcb }
    {
        match &self.conn {
            Some(conn) => connect_ends(conn.control()),
            None => Err(Refusal::Errno(Errno::Enotconn)),
        }
    }
}
