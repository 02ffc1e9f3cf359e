//! What an arriving segment does to a connection (RFC 9293, section 3.10.7).

use crate::connection::conn::Conn;
use crate::connection::effects::Draft;
use crate::segment::{Distance, Header, Verdict, distance_to, number_at, number_past, verdict_on};
use sim_base::{Errno, NoMemory};

impl Conn {
    ghost use Rattle.std.specs.Prelude.{◌≡◌, ◌+◌, ◌-◌, ◌≤◌, length, true, OnOk};
    ghost use Rattle.sock_tcp.specs.connection.Tcb.{Tcb, buffer_size, changed};
    ghost use Rattle.sock_tcp.specs.segment.Number.{distance};
    ghost use Rattle.sock_tcp.specs.segment.State.{is_opening};
    ghost use Rattle.sock_tcp.specs.segment.Verdict.{ComesIn};
    ghost use Rattle.sock_tcp.specs.connection.Arrival.{verdict, fresh_text, fitting_text, keeps, discards, text_comes, receives_text, fin_is_due, fin_received, receives_fin, wants_ack, answers, waits_again, concludes, unless_over, receives, connects, acts_on, takes_segment};
    ghost use Rattle.sock_tcp.specs.connection.StandsFor.{StandsFor, Does};

    /// The text that begins where it is expected: what was received before is cut off.
    fn fresh<'a>(&self, seq: u32, text: &'a [u8]) -> &'a [u8]
        ensures { result.now ≡ fresh_text (distance self.now.rcv seq) text.now }
    {
        match distance_to(self.rcv, seq) {
            Distance::Ahead(0) => text,
            Distance::Ahead(_) => &text[..0],
            Distance::Behind(by) => {
                let known = by as usize;
                if known < text.len() {
                    &text[known..]
                } else {
                    &text[..0]
                }
            }
        }
    }

    /// As much of it as the own window holds.
    #[tactic(auto, unfolding(crate::specs::connection::Arrival::fitting_text), using(crate::proofs::Connections::Received::fits))]
    fn fitting<'a>(&self, header: Header, text: &'a [u8]) -> &'a [u8]
        ensures within { length result.now + length self.now.receive.items ≤ buffer_size }
        ensures stands { (r : Tcb) → StandsFor self.now r → result.now ≡ fitting_text header text.now r }
    {
        let fresh = self.fresh(header.seq, text);
        let count = fresh.len().min(usize::from(self.own_window()));
        &fresh[..count]
    }

    #[tactic(auto, unfolding(crate::specs::connection::Arrival::keeps), using(crate::proofs::Segments::Numbers::wires, crate::proofs::Connections::Received::kept))]
    fn keep(&mut self, bytes: &[u8])
        requires { length bytes.now + length self.old.receive.items ≤ buffer_size }
        ensures { (r : Tcb) → StandsFor self.old r → StandsFor self.new (keeps bytes.now r) }
    {
        self.rcv = number_past(self.rcv, bytes.len());
        self.receive.fill_from_slice(bytes);
    }

    #[tactic(auto, unfolding(crate::specs::connection::Arrival::discards), using(crate::proofs::Segments::Numbers::wires))]
    fn discard(&mut self, count: usize)
        ensures { (r : Tcb) → StandsFor self.old r → StandsFor self.new (discards count r) }
    {
        self.rcv = number_past(self.rcv, count);
    }

    /// Keeps text, throws it away, or resets the connection for it.
    #[tactic(auto, unfolding(crate::specs::connection::Arrival::text_comes))]
    fn take(&mut self, draft: &mut Draft, bytes: &[u8]) -> Result<(), NoMemory>
        requires { length bytes.now + length self.old.receive.items ≤ buffer_size }
        ensures { OnOk result (Does (text_comes bytes.now) self.old draft.old self.new draft.new) }
    {
        if bytes.is_empty() {
            return Ok(());
        }
        if self.control.closed {
            self.send_reset(draft)?;
            self.vanish(draft);
        } else if self.control.reading_ended {
            self.discard(bytes.len());
        } else {
            self.keep(bytes);
        }
        Ok(())
    }

    #[tactic(auto, unfolding(crate::specs::connection::Arrival::receives_text))]
    fn receive_text(
        &mut self,
        draft: &mut Draft,
        header: Header,
        text: &[u8],
    ) -> Result<(), NoMemory>
        ensures { OnOk result (Does (receives_text header text.now) self.old draft.old self.new draft.new) }
    {
        if self.control.state.takes_text() {
            let bytes = self.fitting(header, text);
            self.take(draft, bytes)?;
        }
        Ok(())
    }

    /// Whether a FIN comes where it is expected.
    fn fin_is_due(&self, header: Header, text: &[u8]) -> bool
        ensures { (r : Tcb) → StandsFor self.now r → result ≡ fin_is_due header text.now r }
    {
        header.fin
            && self.control.state.takes_text()
            && number_past(header.seq, text.len()) == self.rcv
    }

    /// Takes the FIN.
    #[tactic(auto, unfolding(crate::specs::connection::Arrival::fin_received), using(crate::proofs::Segments::Numbers::wires, crate::proofs::Segments::States::phases))]
    fn take_fin(&mut self)
        ensures { (r : Tcb) → StandsFor self.old r → StandsFor self.new (fin_received r) }
    {
        self.rcv = number_at(self.rcv, 1);
        self.control.state = self.control.state.after_peer_fin();
        self.control.fin_taken = true;
    }

    #[tactic(auto, unfolding(crate::specs::connection::Arrival::receives_fin))]
    fn receive_fin(&mut self, draft: &Draft, header: Header, text: &[u8])
        ensures { Does (receives_fin header text.now) self.old draft.now self.new draft.now }
    {
        if self.fin_is_due(header, text) {
            self.take_fin();
        }
    }

    /// Whether a segment is answered by an ACK.
    #[tactic(auto, unfolding(crate::specs::connection::Arrival::wants_ack))]
    fn wants_ack(&self, header: Header, text: &[u8]) -> bool
        ensures { (r : Tcb) → StandsFor self.now r → result ≡ wants_ack header text.now r }
    {
        !text.is_empty() || header.fin || header.seq != self.rcv
    }

    #[tactic(auto, unfolding(crate::specs::connection::Arrival::answers))]
    fn answer(&self, draft: &mut Draft, wanted: bool) -> Result<(), NoMemory>
        ensures { OnOk result (Does (answers wanted) self.now draft.old self.now draft.new) }
    {
        if wanted {
            self.send_ack(draft)?;
        }
        Ok(())
    }

    #[tactic(auto, unfolding(crate::specs::connection::Arrival::waits_again))]
    fn wait_again(&mut self, draft: &mut Draft, fin: bool)
        ensures { Does (waits_again fin) self.old draft.old self.new draft.new }
    {
        if fin && self.control.state.is_time_wait() {
            self.restart(draft);
        }
    }

    #[tactic(auto, unfolding(crate::specs::connection::Arrival::unless_over, crate::specs::connection::Arrival::concludes))]
    fn conclude(&mut self, draft: &mut Draft, wanted: bool, fin: bool) -> Result<(), NoMemory>
        ensures { OnOk result (Does (unless_over (concludes wanted fin)) self.old draft.old self.new draft.new) }
    {
        if !self.control.state.is_over() {
            self.answer(draft, wanted)?;
            self.wait_again(draft, fin);
            self.output(draft)?;
        }
        Ok(())
    }

    /// Takes the text and the FIN, and answers.
    #[tactic(auto, unfolding(crate::specs::connection::Arrival::receives))]
    fn receive_segment(
        &mut self,
        draft: &mut Draft,
        header: Header,
        text: &[u8],
    ) -> Result<(), NoMemory>
        ensures { OnOk result (Does (receives header text.now) self.old draft.old self.new draft.new) }
    {
        let wanted = self.wants_ack(header, text);
        self.receive_text(draft, header, text)?;
        self.receive_fin(draft, header, text);
        self.conclude(draft, wanted, header.fin)?;
        Ok(())
    }

    /// The peer answers the own SYN with its own.
    #[tactic(auto, unfolding(crate::specs::connection::Arrival::connects, crate::specs::connection::Arrival::peer_known))]
    fn connect(&mut self, draft: &mut Draft, header: Header) -> Result<(), NoMemory>
        requires { is_opening self.old.control.state ≡ true }
        ensures { OnOk result (Does (connects header) self.old draft.old self.new draft.new) }
    {
        self.rcv = number_at(header.seq, 1);
        self.establish(draft, header.window);
        self.send_ack(draft)?;
        self.output(draft)?;
        Ok(())
    }

    /// Does what the verdict on a segment says.
    fn act(
        &mut self,
        draft: &mut Draft,
        verdict: Verdict,
        header: Header,
        text: &[u8],
    ) -> Result<(), NoMemory>
        requires { ComesIn self.old.control.state self.old.highest verdict }
        ensures { OnOk result (Does (acts_on verdict header text.now) self.old draft.old self.new draft.new) }
    {
        match verdict {
            Verdict::Dropped => Ok(()),
            Verdict::Acknowledged => self.send_ack(draft),
            Verdict::SynAcknowledged => self.send_syn_ack(draft),
            Verdict::Refused => self.send_refusal(draft, header.ack),
            Verdict::ConnectRefused => {
                self.end(draft, Errno::Econnrefused);
                Ok(())
            }
            Verdict::Reset => {
                self.end(draft, Errno::Econnreset);
                Ok(())
            }
            Verdict::Gone => {
                self.vanish(draft);
                Ok(())
            }
            Verdict::Connects => self.connect(draft, header),
            Verdict::Establishes => {
                self.establish(draft, header.window);
                self.receive_segment(draft, header, text)
            }
            Verdict::Advances(by) => {
                let duplicate = self.is_duplicate(by, header, text);
                self.advance(draft, by, header.window);
                self.notice(draft, duplicate)?;
                self.receive_segment(draft, header, text)
            }
            Verdict::Continues => self.receive_segment(draft, header, text),
        }
    }

    /// What a segment's header brings about.
    fn verdict(&self, header: Header) -> Verdict
        ensures stands { (r : Tcb) → StandsFor self.now r → result ≡ verdict r header }
        ensures comes { ComesIn self.now.control.state self.now.highest result }
    {
        verdict_on(self.control.state, self.rcv, self.una, self.highest, header)
    }

    /// Takes a segment.
    #[tactic(auto, unfolding(crate::specs::connection::Arrival::takes_segment))]
    pub(crate) fn take_segment(
        &mut self,
        draft: &mut Draft,
        header: Header,
        text: &[u8],
    ) -> Result<(), NoMemory>
        ensures { OnOk result (Does (takes_segment header text.now) self.old draft.old self.new draft.new) }
    {
        let verdict = self.verdict(header);
        self.act(draft, verdict, header, text)?;
        self.judge(draft);
        Ok(())
    }
}
