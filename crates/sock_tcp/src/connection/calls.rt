//! The calls on a connection.

use crate::connection::carried::Counts;
use crate::connection::conn::{BUFFER_SIZE, Conn};
use crate::connection::effects::{Draft, Effects, Opened, Shut};
use crate::segment::{Control, Header, TcpState, number_at};
use circular_buffer::HeapCircularBuffer;
use sim_base::{ACK, Addr, Bytes, Errno, Load, NoMemory, Packet, SYN};
use std::alloc::Global;

impl Conn {
    ghost use Rattle.std.specs.Prelude.{◌≡◌, ℕ, true, IfOk, OnOk};
    ghost use Rattle.sock_tcp.specs.segment.Number.{wire};
    ghost use Rattle.sock_tcp.specs.segment.State.{is_opening};
    ghost use Rattle.sock_tcp.specs.connection.Tcb.{Tcb, unread};
    ghost use Rattle.sock_tcp.specs.segment.Control.{fresh_control};
    ghost use Rattle.sock_tcp.specs.connection.Arrival.{takes_load, takes_packet};
    ghost use Rattle.sock_tcp.specs.connection.Process.{fresh_tcb, opened, answered, room, flows, shuts, closes, expires, error_taken};
    ghost use Rattle.sock_tcp.specs.connection.StandsFor.{StandsFor, Does, Gives, Follows};

    /// A record that has sent its SYN, with its two buffers made whole.
    #[tactic(auto, unfolding(crate::specs::connection::Process::fresh_tcb, crate::specs::segment::Control::fresh_control, crate::specs::segment::Number::wire))]
    fn begin(
        alloc: Global,
        local: Addr,
        peer: Addr,
        state: TcpState,
        iss: u32,
        rcv: u32,
    ) -> Result<Conn, NoMemory>
        requires { is_opening state ≡ true }
        ensures { IfOk result (λ conn. (irs at : ℕ) → rcv ≡ wire irs at
            → StandsFor conn (fresh_tcb (fresh_control local peer state) iss irs at)) }
    {
        let control = Control::new(local, peer, state);
        let send = HeapCircularBuffer::with_capacity(alloc, BUFFER_SIZE)?;
        let receive = HeapCircularBuffer::with_capacity(alloc, BUFFER_SIZE)?;
        Ok(Conn {
            control,
            una: iss,
            sent: 1,
            highest: 1,
            duplicates: 0,
            recover: 0,
            rcv,
            counts: Counts {
                written: 0,
                read: 0,
            },
            send,
            receive,
        })
    }

    /// Opens a connection: its SYN goes out, with the number `iss` (RFC 9293, section 3.10.1).
    #[tactic(auto, unfolding(crate::specs::connection::Process::opened))]
    pub fn open(alloc: Global, local: Addr, peer: Addr, iss: u32) -> Result<Opened, NoMemory>
        ensures { IfOk result (λ made. Gives made.conn made.effects (opened local peer iss)) }
    {
        let conn = Conn::begin(alloc, local, peer, TcpState::SynSent, iss, 0)?;
        let mut draft = Draft::started(alloc);
        draft.send(conn.control.without_ack(alloc, SYN, iss))?;
        let effects = conn.finish(draft);
        Ok(Opened { conn, effects })
    }

    /// Answers a SYN with the number `seq`: the SYN and ACK goes out (RFC 9293, section 3.10.7.2).
    #[tactic(auto, unfolding(crate::specs::connection::Process::answered))]
    pub(crate) fn answer_syn(
        alloc: Global,
        local: Addr,
        peer: Addr,
        iss: u32,
        seq: u32,
    ) -> Result<Opened, NoMemory>
        ensures { IfOk result (λ made. Gives made.conn made.effects (answered local peer iss seq)) }
    {
        let rcv = number_at(seq, 1);
        let conn = Conn::begin(alloc, local, peer, TcpState::SynReceived, iss, rcv)?;
        let mut draft = Draft::started(alloc);
        draft.send(conn.with_ack(SYN | ACK, 0, Bytes::new(alloc)))?;
        let effects = conn.finish(draft);
        Ok(Opened { conn, effects })
    }

    /// Takes a segment of the record's pair (RFC 9293, section 3.10.7).
    #[tactic(auto, unfolding(crate::specs::connection::Arrival::takes_packet))]
    pub fn arrive(&mut self, segment: &Packet) -> Result<Effects, NoMemory>
        ensures { IfOk result (Follows (takes_packet segment.now) self.old self.new) }
    {
        let mut draft = Draft::new(self.alloc());
        self.take_load(&mut draft, &segment.load)?;
        Ok(self.finish(draft))
    }

    /// Sends what a read or a write brings about.
    pub fn flow(&mut self) -> Result<Effects, NoMemory>
        ensures { IfOk result (Follows flows self.old self.new) }
    {
        let mut draft = Draft::new(self.alloc());
        self.flow_on(&mut draft)?;
        Ok(self.finish(draft))
    }

    /// Ends one direction or both.
    pub fn app_shut(&mut self, how: Shut) -> Result<Effects, NoMemory>
        ensures { IfOk result (Follows (shuts how) self.old self.new) }
    {
        let mut draft = Draft::new(self.alloc());
        self.shut(&mut draft, how)?;
        Ok(self.finish(draft))
    }

    /// Closes the socket.
    pub fn app_close(&mut self) -> Result<Effects, NoMemory>
        ensures { IfOk result (Follows closes self.old self.new) }
    {
        let mut draft = Draft::new(self.alloc());
        self.close(&mut draft)?;
        Ok(self.finish(draft))
    }

    /// The timer expires; where it doesn't run, nothing happens.
    pub fn timer(&mut self) -> Result<Effects, NoMemory>
        ensures { IfOk result (Follows expires self.old self.new) }
    {
        let mut draft = Draft::new(self.alloc());
        self.expire(&mut draft)?;
        Ok(self.finish(draft))
    }

    /// State, flags and timer.
    pub fn control(&self) -> Control
        ensures { (r : Tcb) → StandsFor self.now r → result ≡ r.control }
    {
        self.control
    }

    /// How many bytes wait that the process hasn't read.
    pub fn unread(&self) -> usize
        ensures { (r : Tcb) → StandsFor self.now r → result ≡ unread r }
    {
        self.receive.len()
    }

    /// How many more bytes the send buffer holds.
    pub fn room(&self) -> usize
        ensures { (r : Tcb) → StandsFor self.now r → result ≡ room r }
    {
        BUFFER_SIZE - self.send.len()
    }

    /// Takes the kept error.
    #[tactic(auto, unfolding(crate::specs::connection::Process::error_taken))]
    pub fn take_error(&mut self) -> Option<Errno>
        ensures error { (r : Tcb) → StandsFor self.old r → result ≡ r.control.error }
        ensures stands { (r : Tcb) → StandsFor self.old r → StandsFor self.new (error_taken r) }
    {
        let error = self.control.error;
        self.control.error = None;
        error
    }

    /// Takes what a packet carries.
    fn take_load(&mut self, draft: &mut Draft, load: &Load) -> Result<(), NoMemory>
        ensures { OnOk result (Does (takes_load load.now) self.old draft.old self.new draft.new) }
    {
        match load {
            Load::Udp(_) => Ok(()),
            Load::Tcp {
                flags,
                seq,
                ack,
                window,
                text,
            } => {
                let header = Header::new(*flags, *seq, *ack, *window);
                self.take_segment(draft, header, text.as_slice())
            }
        }
    }
}
