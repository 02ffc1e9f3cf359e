//! What a connection sends of its own accord (RFC 9293, sections 3.8.6 and 3.10.7.4).

use crate::connection::conn::Conn;
use crate::connection::effects::Draft;
use crate::connection::text::copy_part;
use sim_base::{ACK, Bytes, FIN, MAX_SEGMENT, NoMemory};

impl Conn {
    ghost use Rattle.std.specs.Prelude.{◌≡◌, ◌+◌, ◌-◌, ◌++◌, ◌≤◌, ◌<◌, take, drop, min, max, true, OnOk, IfOk, length};
    ghost use Rattle.sock_tcp.specs.connection.Tcb.{Tcb, buffer_size, changed};
    ghost use Rattle.sock_tcp.specs.segment.Number.{wire};
    ghost use Rattle.sock_tcp.specs.segment.State.{is_sending};
    ghost use Rattle.sock_tcp.specs.connection.Output.{pieces, text_segments, send_limit, sends_text, fin_is_next, sends_fin, highest_followed, follows, output};
    ghost use Rattle.sock_tcp.specs.connection.StandsFor.{StandsFor, Does};

    /// How far behind the first byte that isn't acknowledged text may be sent.
    #[tactic(auto, using(crate::proofs::Connections::Phases::unacknowledged_ends))]
    fn send_limit(&self) -> usize
        requires { is_sending self.now.control.state ≡ true }
        ensures within { result ≤ length self.now.send.items }
        ensures limit { (r : Tcb) → StandsFor self.now r → r.una + result ≡ send_limit r }
    {
        self.send.len().min(usize::from(self.control.send_window()))
    }

    /// Sends the text between two places of the send buffer, cut into pieces.
    fn send_pieces(&self, draft: &mut Draft, from: usize, to: usize) -> Result<(), NoMemory>
        requires { to ≤ length self.now.send.items }
        ensures segments { OnOk result (draft.new.segments.items
            ≡ draft.old.segments.items
            ++ text_segments self.now.control self.now.una from self.now.rcv (buffer_size - length self.now.receive.items)
            (pieces (take (to - from) (drop from self.now.send.items)))) }
        ensures started { draft.new.started ≡ draft.old.started }
    {
        let alloc = self.alloc();
        let window = self.own_window();
        let (front, back) = self.send.as_slices();
        let mut at = from;
        while at < to {
            let count = MAX_SEGMENT.min(to - at);
            let text = copy_part(alloc, front, back, at, count)?;
            let seq = self.number(at);
            draft.send(self.control.segment(ACK, seq, self.rcv, window, text))?;
            at += count;
        }
        Ok(())
    }

    /// Sends the text that may be sent.
    #[tactic(auto, unfolding(crate::specs::connection::Output::sends_text))]
    fn send_text(&mut self, draft: &mut Draft) -> Result<(), NoMemory>
        requires { is_sending self.old.control.state ≡ true }
        ensures does { OnOk result (Does sends_text self.old draft.old self.new draft.new) }
        ensures control { self.new.control ≡ self.old.control }
    {
        let limit = self.send_limit();
        if self.sent < limit {
            self.send_pieces(draft, self.sent, limit)?;
            self.sent = limit;
        }
        Ok(())
    }

    /// Whether all text was sent, and the FIN is wanted and wasn't.
    #[tactic(auto, using(crate::proofs::Connections::Phases::unacknowledged_ends))]
    fn fin_is_next(&self) -> bool
        requires { is_sending self.now.control.state ≡ true }
        ensures { (r : Tcb) → StandsFor self.now r → result ≡ fin_is_next r }
    {
        self.sent == self.send.len() && self.control.fin_wanted
    }

    /// Sends the FIN in a segment of its own, once all text was sent.
    #[tactic(auto, unfolding(crate::specs::connection::Output::sends_fin))]
    pub(crate) fn send_fin(&mut self, draft: &mut Draft) -> Result<(), NoMemory>
        requires { is_sending self.old.control.state ≡ true }
        ensures does { OnOk result (Does sends_fin self.old draft.old self.new draft.new) }
        ensures control { self.new.control ≡ self.old.control }
    {
        if self.fin_is_next() {
            let empty = Bytes::new(self.alloc());
            draft.send(self.with_ack(FIN | ACK, self.sent, empty))?;
            self.sent = self.send.len() + 1;
        }
        Ok(())
    }

    /// The highest number sent follows what is next to send.
    #[tactic(auto, unfolding(crate::specs::connection::Output::follows))]
    pub(crate) fn follow(&mut self, draft: &Draft)
        requires { is_sending self.old.control.state ≡ true }
        ensures { Does follows self.old draft.now self.new draft.now }
    {
        self.highest = self.highest.max(self.sent);
    }

    /// Sends what may be sent: text, and behind it the FIN.
    #[tactic(auto, unfolding(crate::specs::connection::Output::output))]
    pub(crate) fn output(&mut self, draft: &mut Draft) -> Result<(), NoMemory>
        ensures { OnOk result (Does output self.old draft.old self.new draft.new) }
    {
        if self.control.state.is_sending() {
            self.send_text(draft)?;
            self.send_fin(draft)?;
            self.follow(draft);
        }
        Ok(())
    }
}
