//! Calls on UDP sockets, and datagrams that arrive.

use crate::glance::slot_glance;
use crate::ports::at_port;
use crate::rises::put_none;
use crate::sockets::Sockets;
use host_wants::{CallError, Refusal};
use sim_base::{Act, Addr, Around, Book, Errno, Ip, NoMemory, Packet};
use sock_udp::{Datagram, UdpSock};
use udp_slots::slot as udp_slot;

impl Sockets {
    ghost use Rattle.std.specs.Prelude.{◌≡◌, ◌≤◌, length, position, Some, IfOk, OnOk};
    ghost use Rattle.sim_base.specs.Addresses.{any, at_free_port};
    ghost use Rattle.sock_udp.specs.Socket.{UdpState, or_else, end_left};
    ghost use Rattle.host_sockets.specs.Sockets.{SocketsRecord};
    ghost use Rattle.host_sockets.specs.Arriving.{takes_in, datagram_at, datagram_arrives};
    ghost use Rattle.host_sockets.specs.Names.{udp_name, udp_peer};
    ghost use Rattle.host_sockets.specs.Ready.{udp_ready};
    ghost use Rattle.host_sockets.specs.Udp.{udp_in, udp_bound, udp_place, put_udp_at, new_udp, closes_udp, udp_ends, binds_udp, connects_udp, udp_fits, sends_udp, recv_udp_asked, receives_udp};
    ghost use Rattle.host_sockets.specs.StandsFor.{Stand, Becomes};

    /// The least number that a new UDP socket may take.
    fn udp_place(&self) -> usize
        ensures { (t : SocketsRecord) → Stand self.now t → result ≡ udp_place t }
    {
        self.udp.free_place()
    }

    fn put_udp_at(&mut self, place: usize, sock: UdpSock) -> Result<(), NoMemory>
        ensures { OnOk result ((t : SocketsRecord) → Stand self.old t → Stand self.new (put_udp_at place sock t)) }
    {
        self.udp.put(place, sock)?;
        put_none(&mut self.udp_risen, place)
    }

    /// Makes a UDP socket, and answers its number, the least one that is free (`socket(2)`).
    #[tactic(auto, unfolding(crate::specs::Udp::new_udp))]
    pub fn new_udp(&mut self) -> Result<usize, NoMemory>
        ensures place { IfOk result (λ k. (t : SocketsRecord) → Stand self.old t → k ≡ (new_udp t).0) }
        ensures stands { OnOk result ((t : SocketsRecord) → Stand self.old t → Stand self.new (new_udp t).1) }
    {
        let place = self.udp_place();
        let sock = UdpSock::new(self.alloc());
        self.put_udp_at(place, sock)?;
        Ok(place)
    }

    /// Closes the UDP socket with a number (`close(2)`): what waits in it is dropped.
    #[tactic(auto, unfolding(crate::specs::Udp::closes_udp))]
    pub fn close_udp(&mut self, k: usize)
        ensures { (t : SocketsRecord) → Stand self.old t → Stand self.new (closes_udp k t) }
    {
        self.udp.close(k);
    }

    /// What the UDP sockets leave of an address that is asked for.
    fn udp_end_left(&self, at: Addr) -> Result<Addr, Errno>
        ensures { (t : SocketsRecord) → Stand self.now t → result ≡ end_left (udp_ends t) at }
    {
        self.udp.end_left(at)
    }

    /// Binds the UDP socket with a number to an address, for port 0 at the least port from 10000 up
    /// that no UDP socket of the host has (`bind(2)`).
    ///
    /// Refused in this order: `Ebadf`, there is no such socket; then as by `UdpSock::bind`.
    pub fn bind_udp(&mut self, hosts: &Book, k: usize, at: Addr) -> Result<(), CallError>
        ensures { (t : SocketsRecord) → Stand self.old t → Becomes (binds_udp hosts.now k at t) t self.new result }
    {
        let left = self.udp_end_left(at);
        let around = Around {
            own: self.own,
            hosts,
            bound: &[],
        };
        if k >= self.udp.slots.len() {
            return Err(CallError::Refused(Refusal::Errno(Errno::Ebadf)));
        }
        let slot = &mut self.udp.slots[k];
        let before = slot_glance(slot);
        let answer = udp_slot::bind(slot, &around, at.ip, left);
        self.udp.table.set(k, udp_slot::ends(slot));
        self.end_udp_act(k, before);
        answer
    }

    /// The own end with which the UDP socket with a number sends or is connected: what it is bound to, or
    /// else 0.0.0.0 and the least free port, if there is one.
    fn udp_end_to_use(&self, k: usize) -> Option<Addr>
        ensures { (t : SocketsRecord) (u : UdpState) → Stand self.now t → udp_in k t ≡ Some u → result ≡ or_else u.local (at_free_port (udp_ends t) any) }
    {
        if k >= self.udp.slots.len() {
            return None;
        }
        match udp_slot::local(&self.udp.slots[k]) {
            Some(at) => Some(at),
            None => at_port(Ip::ANY, self.udp.free_port()),
        }
    }

    /// Connects the UDP socket with a number to another end, and binds it if it is unbound
    /// (`connect(2)`).
    ///
    /// Refused in this order: `Ebadf`, there is no such socket; then as by `UdpSock::connect`.
    pub fn connect_udp(&mut self, hosts: &Book, k: usize, to: Addr) -> Result<(), CallError>
        ensures { (t : SocketsRecord) → Stand self.old t → Becomes (connects_udp hosts.now k to t) t self.new result }
    {
        let own = self.udp_end_to_use(k);
        let around = Around {
            own: self.own,
            hosts,
            bound: &[],
        };
        if k >= self.udp.slots.len() {
            return Err(CallError::Refused(Refusal::Errno(Errno::Ebadf)));
        }
        let slot = &mut self.udp.slots[k];
        let before = slot_glance(slot);
        let answer = udp_slot::connect(slot, &around, own, to);
        self.udp.table.set(k, udp_slot::ends(slot));
        self.end_udp_act(k, before);
        answer
    }

    /// Whether a datagram of so many bytes may be sent from the UDP socket with a number, before the
    /// bytes and an address, if one is given, are read.
    ///
    /// Refused in this order: `Ebadf`, there is no such socket; `Emsgsize`, there are more than 1,472
    /// bytes; `Edestaddrreq`, there is neither an address nor a peer.
    pub fn udp_fits(&self, k: usize, count: usize, given: bool) -> Result<(), Refusal>
        ensures { (t : SocketsRecord) → Stand self.now t → result ≡ udp_fits k count given t }
    {
        if k >= self.udp.slots.len() {
            return Err(Refusal::Errno(Errno::Ebadf));
        }
        udp_slot::fits(&self.udp.slots[k], count, given)
    }

    /// Whether the UDP socket with a number is bound.
    pub fn bound_udp(&self, k: usize) -> bool
        ensures { (t : SocketsRecord) → Stand self.now t → result ≡ udp_bound k t }
    {
        if k >= self.udp.slots.len() {
            return false;
        }
        udp_slot::local(&self.udp.slots[k]).is_some()
    }

    /// Makes the packet of a datagram from the UDP socket with a number, to an address or else to
    /// its peer, and binds the socket if it is unbound (`send(2)`, `sendto(2)`).
    ///
    /// Refused in this order: `Ebadf`, there is no such socket; then as by `UdpSock::send`.
    pub fn send_udp(
        &mut self,
        hosts: &Book,
        k: usize,
        bytes: &[u8],
        to: Option<Addr>,
    ) -> Result<Packet, CallError>
        ensures { (t : SocketsRecord) → Stand self.old t → Becomes (sends_udp hosts.now k bytes.now to t) t self.new result }
    {
        let own = self.udp_end_to_use(k);
        let around = Around {
            own: self.own,
            hosts,
            bound: &[],
        };
        if k >= self.udp.slots.len() {
            return Err(CallError::Refused(Refusal::Errno(Errno::Ebadf)));
        }
        let slot = &mut self.udp.slots[k];
        let before = slot_glance(slot);
        let answer = udp_slot::send(slot, &around, own, bytes, to);
        self.udp.table.set(k, udp_slot::ends(slot));
        self.end_udp_act(k, before);
        answer
    }

    /// Whether a datagram waits in the UDP socket with a number. Refused by `Ebadf` where there is
    /// no such socket; where none waits the call does.
    pub fn recv_udp_asked(&self, k: usize) -> Result<(), Refusal>
        ensures { (t : SocketsRecord) → Stand self.now t → result ≡ recv_udp_asked k t }
    {
        if k >= self.udp.slots.len() {
            return Err(Refusal::Errno(Errno::Ebadf));
        }
        udp_slot::recv_asked(&self.udp.slots[k])
    }

    /// Takes the oldest datagram of the UDP socket with a number, cut at so many bytes: what does
    /// not fit is lost (`recv(2)`).
    ///
    /// Refused in this order: `Ebadf`, there is no such socket; where none waits the call does.
    pub fn recv_udp(&mut self, k: usize, count: usize) -> Result<Datagram, CallError>
        ensures row { (t : SocketsRecord) → Stand self.old t → Becomes (receives_udp k count t) t self.new result }
        ensures at_most { IfOk result (λ datagram. length datagram.bytes ≤ count) }
    {
        if k >= self.udp.slots.len() {
            return Err(CallError::Refused(Refusal::Errno(Errno::Ebadf)));
        }
        let alloc = self.alloc();
        let slot = &mut self.udp.slots[k];
        let before = slot_glance(slot);
        let answer = udp_slot::recv(slot, alloc, count);
        self.udp.table.set(k, udp_slot::ends(slot));
        self.end_udp_act(k, before);
        answer
    }

    /// The own end of the UDP socket with a number: what it is bound to, or 0.0.0.0:0
    /// (`getsockname(2)`).
    ///
    /// Refused by `Ebadf` where there is no such socket.
    pub fn udp_name(&self, k: usize) -> Result<Addr, Refusal>
        ensures { (t : SocketsRecord) → Stand self.now t → result ≡ udp_name k t }
    {
        if k >= self.udp.slots.len() {
            return Err(Refusal::Errno(Errno::Ebadf));
        }
        udp_slot::name(&self.udp.slots[k])
    }

    /// The end that the UDP socket with a number is connected to (`getpeername(2)`).
    ///
    /// Refused in this order: `Ebadf`, there is no such socket; `Enotconn`, it isn't connected.
    pub fn udp_peer(&self, k: usize) -> Result<Addr, Refusal>
        ensures { (t : SocketsRecord) → Stand self.now t → result ≡ udp_peer k t }
    {
        if k >= self.udp.slots.len() {
            return Err(Refusal::Errno(Errno::Ebadf));
        }
        udp_slot::peer(&self.udp.slots[k])
    }

    /// What the UDP socket with a number is ready for; a number without a socket for nothing.
    pub fn udp_ready(&self, k: usize) -> u16
        ensures { (t : SocketsRecord) → Stand self.now t → result ≡ udp_ready k t }
    {
        if k >= self.udp.slots.len() {
            return 0;
        }
        udp_slot::ready(&self.udp.slots[k])
    }

    /// The number of the UDP socket that takes a datagram from one end to another.
    fn taker(&self, from: Addr, to: Addr) -> Option<usize>
        ensures { (t : SocketsRecord) → Stand self.now t → result ≡ position (takes_in from to) t.udp }
    {
        self.udp.taker(from, to)
    }

    /// A datagram arrives at the UDP socket with a number.
    fn arrive_at(&mut self, k: usize, from: Addr, bytes: &[u8]) -> Result<Act, NoMemory>
        ensures act { IfOk result (λ act. (t : SocketsRecord) → Stand self.old t → act ≡ (datagram_at from bytes.now (Some k) t).0) }
        ensures stands { OnOk result ((t : SocketsRecord) → Stand self.old t → Stand self.new (datagram_at from bytes.now (Some k) t).1) }
    {
        if k >= self.udp.slots.len() {
            return Ok(Act::NoPort);
        }
        let slot = &mut self.udp.slots[k];
        let before = slot_glance(slot);
        let answer = udp_slot::arrive(slot, from, bytes);
        self.udp.table.set(k, udp_slot::ends(slot));
        self.end_udp_act(k, before);
        answer
    }

    /// A datagram arrives.
    #[tactic(auto, unfolding(crate::specs::Arriving::datagram_arrives))]
    pub(crate) fn deliver_datagram(
        &mut self,
        from: Addr,
        to: Addr,
        bytes: &[u8],
    ) -> Result<Act, NoMemory>
        ensures act { IfOk result (λ act. (t : SocketsRecord) → Stand self.old t → act ≡ (datagram_arrives from to bytes.now t).0) }
        ensures stands { OnOk result ((t : SocketsRecord) → Stand self.old t → Stand self.new (datagram_arrives from to bytes.now t).1) }
    {
        if let Some(k) = self.taker(from, to) {
            return self.arrive_at(k, from, bytes);
        }
        Ok(Act::NoPort)
    }
}
