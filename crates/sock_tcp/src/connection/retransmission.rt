//! What a connection sends again (RFC 9293, sections 3.8.1 and 3.8.6.1).

use crate::connection::conn::Conn;
use crate::connection::effects::Draft;
use crate::connection::text::copy_part;
use sim_base::{ACK, MAX_SEGMENT, NoMemory, SYN};

impl Conn {
    ghost use Rattle.std.specs.Prelude.{◌≡◌, nat_lt, true, OnOk};
    ghost use Rattle.sock_tcp.specs.segment.State.{is_sending};
    ghost use Rattle.sock_tcp.specs.connection.Tcb.{Tcb, data_end};
    ghost use Rattle.sock_tcp.specs.connection.Retransmission.{sends_again_text, sends_again, sends_syn_again, sends_one};
    ghost use Rattle.sock_tcp.specs.connection.StandsFor.{StandsFor, Does};

    /// One segment of text from the first byte that isn't acknowledged on, at least one byte of it
    /// even where the peer's window is 0.
    fn send_again_text(&mut self, draft: &mut Draft) -> Result<(), NoMemory>
        requires { is_sending self.old.control.state ≡ true }
        ensures does { OnOk result (Does sends_again_text self.old draft.old self.new draft.new) }
        ensures control { self.new.control ≡ self.old.control }
    {
        let probe = MAX_SEGMENT.min(usize::from(self.control.window).max(1));
        let count = probe.min(self.send.len());
        let (front, back) = self.send.as_slices();
        let text = copy_part(self.alloc(), front, back, 0, count)?;
        draft.send(self.with_ack(ACK, 0, text))?;
        self.sent = count;
        Ok(())
    }

    /// Whether text isn't acknowledged yet.
    fn has_text(&self) -> bool
        requires { is_sending self.now.control.state ≡ true }
        ensures { (r : Tcb) → StandsFor self.now r → result ≡ nat_lt r.una (data_end r) }
    {
        !self.send.is_empty()
    }

    #[tactic(auto, unfolding(crate::specs::connection::Retransmission::sends_again))]
    fn send_again(&mut self, draft: &mut Draft) -> Result<(), NoMemory>
        requires { is_sending self.old.control.state ≡ true }
        ensures does { OnOk result (Does sends_again self.old draft.old self.new draft.new) }
        ensures control { self.new.control ≡ self.old.control }
    {
        if self.has_text() {
            self.send_again_text(draft)
        } else {
            self.sent = 0;
            self.send_fin(draft)
        }
    }

    #[tactic(auto, unfolding(crate::specs::connection::Retransmission::sends_syn, crate::specs::connection::Retransmission::sends_syn_again))]
    fn send_syn_again(&self, draft: &mut Draft) -> Result<(), NoMemory>
        ensures { OnOk result (Does sends_syn_again self.now draft.old self.now draft.new) }
    {
        if self.control.state.is_syn_sent() {
            let seq = self.number(0);
            draft.send(self.control.without_ack(self.alloc(), SYN, seq))
        } else {
            self.send_syn_ack(draft)
        }
    }

    /// Sends one segment from the first number that isn't acknowledged on.
    #[tactic(auto, unfolding(crate::specs::connection::Retransmission::sends_one))]
    pub(crate) fn send_one(&mut self, draft: &mut Draft) -> Result<(), NoMemory>
        ensures { OnOk result (Does sends_one self.old draft.old self.new draft.new) }
    {
        if self.control.state.is_opening() {
            self.send_syn_again(draft)?;
        } else if self.control.state.is_sending() {
            self.send_again(draft)?;
            self.follow(draft);
        }
        Ok(())
    }
}
