//! The ends that the sockets of a host have.

ghost use Rattle.std.specs.Prelude.{◌≡◌, option_map};
ghost use Rattle.sim_base.specs.Addresses.{at_port};

use crate::slots::Sought;
use crate::sockets::Sockets;
use crate::tcp_sock::TcpSock;
use host_wants::{CallError, Refusal};
use sim_base::{Addr, Errno, Ip, NoMemory, at_free_port, is_taken};

/// An address at a port, if there is one.
pub(crate) fn at_port(ip: Ip, port: Option<u16>) -> Option<Addr>
    ensures { result ≡ option_map (at_port ip) port }
{
    match port {
        Some(port) => Some(Addr { ip, port }),
        None => None,
    }
}

impl TcpSock {
    ghost use Rattle.std.specs.Prelude.{◌≡◌, ◌||◌, ◌++◌, OnOk};
    ghost use Rattle.host_sockets.specs.TcpSocket.{TcpSocket, bound_end, record_end, ends_of};
    ghost use Rattle.host_sockets.specs.StandsFor.{SocketStands};

    /// Adds the end that it is bound to, if it is.
    fn add_bound(&self, ends: &mut Vec<Addr>) -> Result<(), NoMemory>
        ensures { OnOk result ((s : TcpSocket) → SocketStands self.now s → ends.new.items ≡ ends.old.items ++ bound_end s.bound) }
    {
        if let Some(at) = self.bound {
            ends.push(at)?;
        }
        Ok(())
    }

    /// Adds the own end of its connection, if it has one.
    fn add_record_end(&self, ends: &mut Vec<Addr>) -> Result<(), NoMemory>
        ensures { OnOk result ((s : TcpSocket) → SocketStands self.now s → ends.new.items ≡ ends.old.items ++ record_end s.tcb) }
    {
        if let Some(conn) = &self.conn {
            ends.push(conn.control().local)?;
        }
        Ok(())
    }

    /// Adds both.
    fn add_ends(&self, ends: &mut Vec<Addr>) -> Result<(), NoMemory>
        ensures { OnOk result ((s : TcpSocket) → SocketStands self.now s → ends.new.items ≡ ends.old.items ++ ends_of s) }
    {
        self.add_bound(ends)?;
        self.add_record_end(ends)
    }
}

impl Sockets {
    ghost use Rattle.std.specs.Prelude.{◌≡◌, Some, IfOk};
    ghost use Rattle.sim_base.specs.Addresses.{at_free_port, with_port, is_taken};
    ghost use Rattle.host_sockets.specs.Sockets.{SocketsRecord, bound_ends, tcp_ends, has_pair};
    ghost use Rattle.host_sockets.specs.Binding.{bound_to_use};
    ghost use Rattle.host_sockets.specs.StandsFor.{Stand};
    ghost use Rattle.host_sockets.specs.inside.StandsFor.{Asks};

    /// Whether a live connection has this pair of ends.
    pub(crate) fn has_pair(&self, own: Addr, other: Addr) -> bool
        ensures { (t : SocketsRecord) → Stand self.now t → result ≡ has_pair own other t }
    {
        self.place_of(Sought::Record { own, other }).is_some()
            || self.place_of(Sought::Keeper { own, other }).is_some()
    }

    /// The ends that TCP sockets are bound to.
    fn bound_ends(&self) -> Result<Vec<Addr>, NoMemory>
        ensures { IfOk result (λ ends. (t : SocketsRecord) → Stand self.now t → ends.items ≡ bound_ends t) }
    {
        let mut ends = Vec::new(self.alloc());
        for sock in &self.tcp {
            sock.add_bound(&mut ends)?;
        }
        Ok(ends)
    }

    /// The ends that TCP sockets and their connections have.
    fn tcp_ends(&self) -> Result<Vec<Addr>, NoMemory>
        ensures { IfOk result (λ ends. (t : SocketsRecord) → Stand self.now t → ends.items ≡ tcp_ends t) }
    {
        let mut ends = Vec::new(self.alloc());
        for sock in &self.tcp {
            sock.add_ends(&mut ends)?;
        }
        Ok(ends)
    }

    /// An address at the least port from 10000 up that no TCP socket or connection has. Where a socket
    /// acts now, the ends of each are looked at.
    fn free_end(&self, ip: Ip) -> Result<Option<Addr>, NoMemory>
        ensures { IfOk result (λ end. (t : SocketsRecord) → Stand self.now t → end ≡ at_free_port (tcp_ends t) ip) }
    {
        if let Some(port) = self.index.free_port(self.tcp.as_slice()) {
            return Ok(at_port(ip, port));
        }
        let ends = self.tcp_ends()?;
        Ok(at_free_port(ends.as_slice(), ip))
    }

    /// The end that is asked for, for port 0 at the least free port.
    pub(crate) fn end_asked(&self, at: Addr) -> Result<Option<Addr>, NoMemory>
        ensures { IfOk result (λ end. (t : SocketsRecord) → Stand self.now t → end ≡ with_port (tcp_ends t) at) }
    {
        if at.port == 0 {
            return self.free_end(at.ip);
        }
        Ok(Some(at))
    }

    /// Whether a socket is bound to what stands in the way of an end that was asked for. For port 0
    /// none is: no socket has the port.
    pub(crate) fn is_met(&self, at: Addr, end: Addr) -> Result<bool, NoMemory>
        ensures { IfOk result (λ met. (t : SocketsRecord) → Stand self.now t → with_port (tcp_ends t) at ≡ Some end → met ≡ is_taken (bound_ends t) end) }
    {
        if at.port == 0 {
            return Ok(false);
        }
        let bound = self.bound_ends()?;
        Ok(is_taken(bound.as_slice(), end))
    }

    /// What the TCP socket with a number is bound to, or else 0.0.0.0 and the least free port.
    pub(crate) fn bound_or_free(&self, k: usize) -> Result<Addr, CallError>
        ensures { (t : SocketsRecord) → Stand self.now t → Asks (bound_to_use k t) result }
    {
        if k >= self.tcp.len() {
            return Err(CallError::Refused(Refusal::Errno(Errno::Ebadf)));
        }
        if let Some(at) = self.tcp[k].bound {
            return Ok(at);
        }
        match self.free_end(Ip::ANY)? {
            Some(at) => Ok(at),
            None => Err(CallError::Refused(Refusal::Errno(Errno::Eaddrnotavail))),
        }
    }
}
