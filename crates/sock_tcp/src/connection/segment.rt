//! The segments that a connection sends (RFC 9293, section 3.1).

use crate::connection::conn::{BUFFER_SIZE, Conn};
use crate::connection::effects::Draft;
use crate::segment::number_at;
use sim_base::{ACK, Bytes, NoMemory, Packet, RST, SYN};
use std::alloc::Global;

impl Conn {
    ghost use Rattle.std.specs.Prelude.{◌≡◌, ◌+◌, ◌-◌, ◌^◌, ◌<◌, length, OnOk};
    ghost use Rattle.sock_tcp.specs.connection.Tcb.{Tcb, buffer_size, own_window};
    ghost use Rattle.sock_tcp.specs.segment.Number.{wire};
    ghost use Rattle.sock_tcp.specs.connection.Segment.{with_ack, sends_ack, sends_syn_ack, sends_reset, sends_refusal};
    ghost use Rattle.sock_tcp.specs.connection.StandsFor.{StandsFor, Does};

    pub(crate) fn alloc(&self) -> Global {
        *self.send.allocator()
    }

    /// How many more bytes the receive buffer holds.
    pub(crate) fn own_window(&self) -> u16
        ensures value { result ≡ buffer_size - length self.now.receive.items }
        ensures window { (r : Tcb) → StandsFor self.now r → result ≡ own_window r }
    {
        (BUFFER_SIZE - self.receive.len()) as u16
    }

    /// The number so far behind the first one that isn't acknowledged.
    #[tactic(auto, using(crate::proofs::Segments::Numbers::wires))]
    pub(crate) fn number(&self, offset: usize) -> u32
        requires { offset < 2 ^ 32 }
        ensures value { result ≡ wire self.now.una offset }
        ensures stands { (r : Tcb) → StandsFor self.now r → result ≡ wire r.iss (r.una + offset) }
    {
        number_at(self.una, offset as u32)
    }

    /// A segment with ACK, whose number is so far behind the first one that isn't acknowledged.
    #[tactic(auto, unfolding(crate::specs::connection::Segment::with_ack))]
    pub(crate) fn with_ack(&self, flags: u8, offset: usize, text: Bytes) -> Packet
        requires { offset < 2 ^ 32 }
        ensures { (r : Tcb) → StandsFor self.now r → result ≡ with_ack r flags (r.una + offset) text }
    {
        let seq = self.number(offset);
        self.control
            .segment(flags, seq, self.rcv, self.own_window(), text)
    }

    #[tactic(auto, unfolding(crate::specs::connection::Segment::sends_ack))]
    pub(crate) fn send_ack(&self, draft: &mut Draft) -> Result<(), NoMemory>
        ensures { OnOk result (Does sends_ack self.now draft.old self.now draft.new) }
    {
        let empty = Bytes::new(self.alloc());
        draft.send(self.with_ack(ACK, self.sent, empty))?;
        Ok(())
    }

    #[tactic(auto, unfolding(crate::specs::connection::Segment::sends_syn_ack))]
    pub(crate) fn send_syn_ack(&self, draft: &mut Draft) -> Result<(), NoMemory>
        ensures { OnOk result (Does sends_syn_ack self.now draft.old self.now draft.new) }
    {
        let empty = Bytes::new(self.alloc());
        draft.send(self.with_ack(SYN | ACK, 0, empty))?;
        Ok(())
    }

    #[tactic(auto, unfolding(crate::specs::connection::Segment::sends_reset))]
    pub(crate) fn send_reset(&self, draft: &mut Draft) -> Result<(), NoMemory>
        ensures { OnOk result (Does sends_reset self.now draft.old self.now draft.new) }
    {
        let seq = self.number(self.sent);
        draft.send(self.control.without_ack(self.alloc(), RST, seq))?;
        Ok(())
    }

    #[tactic(auto, unfolding(crate::specs::connection::Segment::sends_refusal))]
    pub(crate) fn send_refusal(&self, draft: &mut Draft, ack: u32) -> Result<(), NoMemory>
        ensures { OnOk result (Does (sends_refusal ack) self.now draft.old self.now draft.new) }
    {
        draft.send(self.control.without_ack(self.alloc(), RST, ack))?;
        Ok(())
    }
}
