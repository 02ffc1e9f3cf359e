//! Sockets.

ghost use Rattle.std.specs.Prelude.{◌≡◌, ◌<◌, ◌≤◌, ◌++◌, ◌↔◌, [], min, length, take, drop, IfOk, IfErr, OnOk, OnErr, IsTrue};
ghost use Rattle.sim_base.specs.Addresses.{any, at_free_port};
ghost use Rattle.sock_udp.specs.Socket as spec;

use crate::datagram::{Datagram, Received};
use crate::error::UdpError;
use crate::filters::{is_bound_for, is_open_to};
use sim_base::{
    Addr, Around, Bytes, Errno, Ip, Load, MAX_DATAGRAM, NoMemory, POLLIN, POLLOUT, Packet,
    at_free_port, is_taken, source_ip, stays_inside, with_port,
};
use std::alloc::Global;
use std::collections::VecDeque;
use std::marker::Model;

/// How many datagrams may wait in a socket.
const WAITING: usize = 64;

/// A UDP socket (RFC 768).
///
/// Contracts see what it is bound to, what it is connected to, and the datagrams that wait in it,
/// the oldest first.
pub struct UdpSock {
    local: Option<Addr>,
    peer: Option<Addr>,
    waiting: VecDeque<Datagram>,
}

/// By hand: a derived one would be proved anew in each crate that drops such a value.
impl Drop for UdpSock {
    fn drop(self) {
        let UdpSock {
            local: _,
            peer: _,
            waiting,
        } = self;
        drop(waiting);
    }
}

impl Model for UdpSock {
    ghost use Rattle.std.specs.Prelude.{◌≤◌, length};
    ghost use Rattle.sock_udp.specs.Socket.{UdpState, limit};

    ghost Value = { UdpState };

    ghost view = { λ s. record { local = s.local; peer = s.peer; waiting = s.waiting.items } };

    ghost invariant = { λ s. length s.waiting.items ≤ limit };
}

impl UdpSock {
    /// A socket that is neither bound nor connected.
    pub fn new(alloc: Global) -> UdpSock
        ensures { result ≡ spec.new_socket }
    {
        UdpSock {
            local: None,
            peer: None,
            waiting: VecDeque::new(alloc),
        }
    }

    /// What the socket is bound to.
    pub fn local(&self) -> Option<Addr>
        ensures { result ≡ self.now.local }
    {
        self.local
    }

    /// What the socket is connected to.
    pub fn peer(&self) -> Option<Addr>
        ensures { result ≡ self.now.peer }
    {
        self.peer
    }

    /// How many datagrams wait.
    pub fn len(&self) -> usize
        ensures len { result ≡ length self.now.waiting }
        ensures limit { length self.now.waiting ≤ spec.limit }
    {
        self.waiting.len()
    }

    pub fn is_empty(&self) -> bool
        ensures { IsTrue result ↔ (self.now.waiting ≡ []) }
    {
        self.waiting.is_empty()
    }

    /// Binds the socket to an address, for port 0 at the least free port from 10000 up (`bind(2)`).
    ///
    /// Refused in this order: `Einval`, the socket is bound; `Eaddrnotavail`, the address is not
    /// 0.0.0.0, 127.0.0.1 or the host's, or no port is free; `Eaddrinuse`, another socket of the
    /// host has the port, and the same address or either of them 0.0.0.0.
    pub fn bind(&mut self, around: &Around, at: Addr) -> Result<(), Errno>
        ensures bound { OnOk result (spec.bind around.now at self.old ≡ Ok self.new) }
        ensures refused { IfErr result (λ errno. spec.bind around.now at self.old ≡ Err errno) }
        ensures unchanged { OnErr result (self.new ≡ self.old) }
    {
        let left = end_left(around.bound, at);
        self.bind_at(around, at.ip, left)
    }

    /// Binds the socket as `bind` does at an address of which this is left: the end that it gets, or why
    /// it gets none. What others are bound to isn't looked at.
    pub fn bind_at(
        &mut self,
        around: &Around,
        ip: Ip,
        left: Result<Addr, Errno>,
    ) -> Result<(), Errno>
        ensures bound { OnOk result (spec.bound_at around.now ip left self.old ≡ Ok self.new) }
        ensures refused { IfErr result (λ errno. spec.bound_at around.now ip left self.old ≡ Err errno) }
        ensures unchanged { OnErr result (self.new ≡ self.old) }
    {
        if self.local.is_some() {
            return Err(Errno::Einval);
        }
        if !ip.is_local(around.own) {
            return Err(Errno::Eaddrnotavail);
        }
        let at = left?;
        self.local = Some(at);
        Ok(())
    }

    /// Connects the socket to another end, and binds it if it is unbound (`connect(2)`).
    ///
    /// Refused in this order: `Enetunreach`, the address is neither 127.0.0.1 nor that of a host;
    /// `Einval`, the socket is bound to 127.0.0.1 and the address is another; `Eaddrnotavail`, the
    /// port is 0, or no port is free.
    pub fn connect(&mut self, around: &Around, to: Addr) -> Result<(), Errno>
        ensures connected { OnOk result (spec.connect around.now to self.old ≡ Ok self.new) }
        ensures refused { IfErr result (λ errno. spec.connect around.now to self.old ≡ Err errno) }
        ensures unchanged { OnErr result (self.new ≡ self.old) }
    {
        let own = self.end_to_use(around);
        self.connect_at(around, own, to)
    }

    /// Connects the socket as `connect` does where this is its own end, if it has one or a port is
    /// free. What others are bound to isn't looked at.
    pub fn connect_at(&mut self, around: &Around, own: Option<Addr>, to: Addr) -> Result<(), Errno>
        ensures connected { OnOk result (spec.connected around.now to self.old own ≡ Ok self.new) }
        ensures refused { IfErr result (λ errno. spec.connected around.now to self.old own ≡ Err errno) }
        ensures unchanged { OnErr result (self.new ≡ self.old) }
    {
        self.reach(around, to)?;
        if to.port == 0 {
            return Err(Errno::Eaddrnotavail);
        }
        let at = own.ok_or(Errno::Eaddrnotavail)?;
        self.local = Some(at);
        self.peer = Some(to);
        Ok(())
    }

    /// Makes the packet of a datagram, to an address or else to the peer, and binds the socket if
    /// it is unbound (`send(2)`, `sendto(2)`).
    ///
    /// Refused in this order: `Emsgsize`, there are more than 1,472 bytes; `Edestaddrreq`, there is
    /// neither an address nor a peer; `Enetunreach` and `Einval` as for `connect`; `Eaddrnotavail`,
    /// no port is free. After want of memory the socket is as before.
    pub fn send(
        &mut self,
        around: &Around,
        bytes: &[u8],
        to: Option<Addr>,
    ) -> Result<Packet, UdpError>
        ensures sent { IfOk result (λ packet. spec.send around.now bytes.now to self.old ≡ Ok (packet, self.new)) }
        ensures failed { IfErr result (spec.Fails (spec.send around.now bytes.now to self.old)) }
        ensures unchanged { OnErr result (self.new ≡ self.old) }
    {
        let own = self.end_to_use(around);
        self.send_at(around, own, bytes, to)
    }

    /// Sends as `send` does where this is the socket's own end, if it has one or a port is free. What
    /// others are bound to isn't looked at.
    pub fn send_at(
        &mut self,
        around: &Around,
        own: Option<Addr>,
        bytes: &[u8],
        to: Option<Addr>,
    ) -> Result<Packet, UdpError>
        ensures sent { IfOk result (λ packet. spec.sent around.now bytes.now to self.old own ≡ Ok (packet, self.new)) }
        ensures failed { IfErr result (spec.Fails (spec.sent around.now bytes.now to self.old own)) }
        ensures unchanged { OnErr result (self.new ≡ self.old) }
    {
        let (at, to) = self.ends_between(around, own, bytes.len(), to)?;
        let load = Load::Udp(Bytes::from_slice(*self.waiting.allocator(), bytes)?);
        self.local = Some(at);
        let from = Addr {
            ip: source_ip(around.own, at.ip, to.ip),
            port: at.port,
        };
        Ok(Packet { from, to, load })
    }

    /// Whether a datagram from one end to another goes to this socket: it has the port, its address
    /// is 0.0.0.0 or the destination, and its peer, if it has one, is the sender.
    pub fn takes(&self, from: Addr, to: Addr) -> bool
        ensures { result ≡ spec.takes from to self.now }
    {
        is_bound_for(self.local, to) && is_open_to(self.peer, from)
    }

    /// A datagram arrives. False: 64 wait already, and it is dropped. After want of memory the
    /// socket is as before.
    pub fn arrive(&mut self, from: Addr, bytes: &[u8]) -> Result<bool, NoMemory>
        ensures arrived { IfOk result (λ taken. (taken, self.new) ≡ spec.arrive from bytes.now self.old) }
        ensures room { OnErr result (length self.old.waiting < spec.limit) }
        ensures unchanged { OnErr result (self.new ≡ self.old) }
    {
        if self.waiting.len() >= WAITING {
            return Ok(false);
        }
        let bytes = Bytes::from_slice(*self.waiting.allocator(), bytes)?;
        self.waiting.push_back(Datagram { from, bytes })?;
        Ok(true)
    }

    /// Takes the oldest datagram, cut at the buffer's end: what does not fit is lost (`recv(2)`).
    ///
    /// Refused by `Eagain` where none waits.
    pub fn recv(&mut self, into: &mut [u8]) -> Result<Received, Errno>
        ensures received { IfOk result (λ received. spec.recv into.old self.old ≡ Ok (received, into.new, self.new)) }
        ensures refused { IfErr result (λ errno. spec.recv into.old self.old ≡ Err errno) }
        ensures unchanged { OnErr result (self.new ≡ self.old) }
        ensures untouched { OnErr result (into.new ≡ into.old) }
    {
        match self.waiting.pop_front() {
            Some(datagram) => {
                let bytes = copy_front(datagram.bytes.as_slice(), into);
                Ok(Received {
                    bytes,
                    from: datagram.from,
                })
            }
            None => Err(Errno::Eagain),
        }
    }

    /// What the socket is ready for, by the bits of `poll(2)`: `POLLIN` where a datagram waits, and
    /// always `POLLOUT`.
    pub fn ready(&self) -> u16
        ensures { result ≡ spec.ready self.now }
    {
        if self.waiting.is_empty() {
            POLLOUT
        } else {
            POLLIN + POLLOUT
        }
    }

    /// Whether the socket may send to an address.
    fn reach(&self, around: &Around, to: Addr) -> Result<(), Errno>
        ensures { result ≡ spec.reach around.now to self.now }
    {
        if !around.hosts.is_reachable(to.ip) {
            return Err(Errno::Enetunreach);
        }
        if stays_inside(self.local) && to.ip != Ip::LOOPBACK {
            return Err(Errno::Einval);
        }
        Ok(())
    }

    /// The end that the socket is bound to, or would be by sending or connecting, if a port is free.
    fn end_to_use(&self, around: &Around) -> Option<Addr>
        ensures { result ≡ spec.or_else self.now.local (at_free_port around.now.bound any) }
    {
        match self.local {
            Some(at) => Some(at),
            None => at_free_port(around.bound, Ip::ANY),
        }
    }

    /// The two ends of a datagram of so many bytes, where the first one is this, if there is one.
    fn ends_between(
        &self,
        around: &Around,
        own: Option<Addr>,
        size: usize,
        to: Option<Addr>,
    ) -> Result<(Addr, Addr), Errno>
        ensures { result ≡ spec.ends_between around.now size to self.now own }
    {
        if size > MAX_DATAGRAM {
            return Err(Errno::Emsgsize);
        }
        let to = to.or(self.peer).ok_or(Errno::Edestaddrreq)?;
        self.reach(around, to)?;
        let at = own.ok_or(Errno::Eaddrnotavail)?;
        Ok((at, to))
    }
}

/// What the others' ends leave of an address that is asked for.
fn end_left(others: &[Addr], at: Addr) -> Result<Addr, Errno>
    ensures { result ≡ spec.end_left others.now at }
{
    let end = with_port(others, at).ok_or(Errno::Eaddrnotavail)?;
    if is_taken(others, end) {
        return Err(Errno::Eaddrinuse);
    }
    Ok(end)
}

/// Copies what fits to the front of a buffer, and answers how many bytes that is.
fn copy_front(bytes: &[u8], into: &mut [u8]) -> usize
    ensures count { result ≡ min (length into.old) (length bytes.now) }
    ensures copied { into.new ≡ take result bytes.now ++ drop result into.old }
{
    let count = bytes.len().min(into.len());
    into[..count].copy_from_slice(&bytes[..count]);
    count
}
