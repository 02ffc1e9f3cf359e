//! Packets that arrive, and alarms.

ghost use Rattle.std.specs.Prelude.{◌≡◌};
ghost use Rattle.sock_tcp.specs.listener.Listen.{asks_in, load_header};

use crate::slots::Sought;
use crate::sockets::Sockets;
use host_wants::Outlet;
use sim_base::{Act, Load, NoMemory, Packet, Time};
use sock_tcp::{Header, refusal};

/// Whether a load is a segment that asks for a connection.
fn asks(load: &Load) -> bool
    ensures { result ≡ asks_in (load_header load.now) }
{
    match load {
        Load::Udp(_) => false,
        Load::Tcp {
            flags,
            seq,
            ack,
            window,
            ..
        } => {
            let header = Header::new(*flags, *seq, *ack, *window);
            header.syn && !header.has_ack && !header.rst
        }
    }
}

impl Sockets {
    ghost use Rattle.std.specs.Prelude.{◌≡◌, ◌<◌, true, Some, length, position, slice_get, IfOk, IfSome, OnOk};
    ghost use Rattle.host_sockets.specs.declared.tcp_sock.TcpSock.{TcpSock};
    ghost use Rattle.host_sockets.specs.TcpSocket.{TcpSocket};
    ghost use Rattle.host_sockets.specs.Sockets.{SocketsRecord};
    ghost use Rattle.host_sockets.specs.inside.Lookup.{is_sought};
    ghost use Rattle.host_sockets.specs.inside.Made.{makes_record, MakesRoom};
    ghost use Rattle.host_sockets.specs.TcpActs.{acts_at};
    ghost use Rattle.host_sockets.specs.Arriving.{asked_listener, hearer, record_takes, listener_hears, heard_at, segment_arrives, arrives};
    ghost use Rattle.host_sockets.specs.Alarms.{alarm_comes};
    ghost use Rattle.host_sockets.specs.StandsFor.{SocketStands, Stand, Leaves, Delivers};

    /// The number of the first TCP socket that is looked for.
    pub(crate) fn place_of(&self, sought: Sought) -> Option<usize>
        ensures place { (t : SocketsRecord) → Stand self.now t → result ≡ position (is_sought sought) t.tcp }
        ensures within { IfSome result (λ place. place < length self.now.tcp.items) }
    {
        self.index.place_of(self.tcp.as_slice(), sought)
    }

    /// The connection of the socket with a number takes a segment.
    fn record_arrive(
        &mut self,
        outlet: &mut Outlet,
        now: Time,
        k: usize,
        packet: &Packet,
    ) -> Result<(), NoMemory>
        ensures { OnOk result ((t : SocketsRecord) → Stand self.old t
            → Leaves self.new outlet.new (acts_at k (record_takes now packet.now k) t outlet.old)) }
    {
        if k >= self.tcp.len() {
            return Ok(());
        }
        let before = self.begin_act(k);
        let sock = &mut self.tcp[k];
        let answer = sock.arrive(outlet, now, k, packet, &mut self.gone);
        self.end_act(k, before);
        answer
    }

    /// The listener of the socket with a number takes a segment.
    fn listener_arrive(
        &mut self,
        outlet: &mut Outlet,
        now: Time,
        k: usize,
        packet: &Packet,
    ) -> Result<(), NoMemory>
        ensures { OnOk result ((t : SocketsRecord) → Stand self.old t
            → Leaves self.new outlet.new (acts_at k (listener_hears now packet.now k) t outlet.old)) }
    {
        if k >= self.tcp.len() {
            return Ok(());
        }
        let before = self.begin_act(k);
        let sock = &mut self.tcp[k];
        let answer = sock.hear(outlet, now, k, packet, &mut self.gone);
        self.end_act(k, before);
        answer
    }

    /// Whether the listener of the socket with a number makes a connection of a segment.
    fn makes_record(&self, k: usize, packet: &Packet) -> bool
        ensures is { (c : TcpSock) (s : TcpSocket) → slice_get self.now.tcp.items k ≡ Some c → SocketStands c s → result ≡ makes_record packet.now s.listen }
        ensures within { result ≡ true → k < length self.now.tcp.items }
    {
        match self.tcp.get(k) {
            Some(sock) => sock.makes_record(packet),
            None => false,
        }
    }

    /// The listener that a segment asks for a connection, if it does.
    fn asked_listener(&self, packet: &Packet) -> Option<usize>
        ensures { (t : SocketsRecord) → Stand self.now t → result ≡ asked_listener packet.now t }
    {
        if asks(&packet.load) {
            self.place_of(Sought::Listener { to: packet.to })
        } else {
            None
        }
    }

    /// The listener that takes a segment which reaches no connection of a socket.
    fn hearer(&self, packet: &Packet) -> Option<usize>
        ensures { (t : SocketsRecord) → Stand self.now t → result ≡ hearer packet.now t }
    {
        let keeper = self.place_of(Sought::Keeper {
            own: packet.to,
            other: packet.from,
        });
        if keeper.is_some() {
            keeper
        } else {
            self.asked_listener(packet)
        }
    }

    /// Room is taken for what a connection carries that the socket with a number makes of a segment.
    fn make_room_for(&mut self, k: usize, packet: &Packet) -> Result<(), NoMemory>
        ensures stands { OnOk result ((t : SocketsRecord) → Stand self.old t → Stand self.new t) }
        ensures room { OnOk result ((c : TcpSock) (s : TcpSocket) → slice_get self.old.tcp.items k ≡ Some c → SocketStands c s
            → makes_record packet.now s.listen ≡ true → MakesRoom self.old self.new) }
    {
        if self.makes_record(k, packet) {
            return self.make_room();
        }
        Ok(())
    }

    /// A segment that reaches no connection of a socket.
    fn deliver_to_listener(
        &mut self,
        outlet: &mut Outlet,
        now: Time,
        packet: &Packet,
    ) -> Result<Act, NoMemory>
        ensures { IfOk result (λ act. (t : SocketsRecord) → Stand self.old t
            → Delivers act self.new outlet.new (heard_at now packet.now (hearer packet.now t) t outlet.old)) }
    {
        if let Some(k) = self.hearer(packet) {
            self.make_room_for(k, packet)?;
            self.listener_arrive(outlet, now, k, packet)?;
            return Ok(Act::Recv);
        }
        if let Some(answer) = refusal(self.alloc(), packet) {
            outlet.send(answer)?;
        }
        Ok(Act::NoPort)
    }

    /// A segment arrives.
    #[tactic(auto, unfolding(crate::specs::Arriving::segment_arrives))]
    fn deliver_segment(
        &mut self,
        outlet: &mut Outlet,
        now: Time,
        packet: &Packet,
    ) -> Result<Act, NoMemory>
        ensures { IfOk result (λ act. (t : SocketsRecord) → Stand self.old t
            → Delivers act self.new outlet.new (segment_arrives now packet.now t outlet.old)) }
    {
        let sought = Sought::Record {
            own: packet.to,
            other: packet.from,
        };
        if let Some(k) = self.place_of(sought) {
            self.record_arrive(outlet, now, k, packet)?;
            return Ok(Act::Recv);
        }
        self.deliver_to_listener(outlet, now, packet)
    }

    /// A packet arrives. Answers what the packet log tells of it: `Recv`, a socket, connection or
    /// listener takes it; `SockFull`, the queue of its UDP socket is full; `NoPort`, nothing takes
    /// it, and a segment is answered by a RST unless it is one.
    pub fn deliver(
        &mut self,
        outlet: &mut Outlet,
        now: Time,
        packet: &Packet,
    ) -> Result<Act, NoMemory>
        ensures { IfOk result (λ act. (t : SocketsRecord) → Stand self.old t
            → Delivers act self.new outlet.new (arrives now packet.now t outlet.old)) }
    {
        match &packet.load {
            Load::Udp(bytes) => {
                let act = self.deliver_datagram(packet.from, packet.to, bytes.as_slice())?;
                Ok(act)
            }
            Load::Tcp { .. } => self.deliver_segment(outlet, now, packet),
        }
    }

    /// An alarm of the TCP socket with a number comes. A serial that is stale does nothing.
    pub fn expire(
        &mut self,
        outlet: &mut Outlet,
        now: Time,
        k: usize,
        serial: u64,
    ) -> Result<(), NoMemory>
        ensures { OnOk result ((t : SocketsRecord) → Stand self.old t
            → Leaves self.new outlet.new (alarm_comes now k serial t outlet.old)) }
    {
        if k >= self.tcp.len() {
            return Ok(());
        }
        let before = self.begin_act(k);
        let sock = &mut self.tcp[k];
        let answer = sock.expire(outlet, now, k, serial, &mut self.gone);
        self.end_act(k, before);
        answer
    }
}
