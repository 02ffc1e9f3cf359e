//! What an acknowledgement does to a connection (RFC 9293, sections 3.10.7.3 and 3.10.7.4).

use crate::connection::conn::Conn;
use crate::connection::effects::Draft;
use crate::segment::{TcpState, number_at};

impl Conn {
    ghost use Rattle.std.specs.Prelude.{◌≡◌, ◌≤◌, true};
    ghost use Rattle.sock_tcp.specs.connection.Tcb.{Tcb};
    ghost use Rattle.sock_tcp.specs.segment.State.{is_opening, is_synchronized};
    ghost use Rattle.sock_tcp.specs.connection.Arrival.{established, establishes, state_advanced, own_fin_acknowledged, advanced, restarts_timer, advances};
    ghost use Rattle.sock_tcp.specs.connection.Congestion.{still_counted};
    ghost use Rattle.sock_tcp.specs.connection.StandsFor.{StandsFor, Does};

    /// The own SYN is acknowledged.
    #[tactic(auto, unfolding(crate::specs::connection::Arrival::established), using(crate::proofs::Segments::Numbers::wires, crate::proofs::Connections::Phases::opening_offsets))]
    fn become_established(&mut self, window: u16)
        requires { is_opening self.old.control.state ≡ true }
        ensures { (r : Tcb) → StandsFor self.old r → StandsFor self.new (established window r) }
    {
        self.una = number_at(self.una, 1);
        self.sent = self.sent.saturating_sub(1);
        self.highest = self.highest.saturating_sub(1);
        self.recover = self.recover.saturating_sub(1);
        self.control.congestion = self.control.congestion.opened(self.control.retries > 0);
        self.control.state = TcpState::Established;
        self.control.was_established = true;
        self.control.window = window;
    }

    #[tactic(auto, unfolding(crate::specs::connection::Arrival::establishes))]
    pub(crate) fn establish(&mut self, draft: &mut Draft, window: u16)
        requires { is_opening self.old.control.state ≡ true }
        ensures { Does (establishes window) self.old draft.old self.new draft.new }
    {
        self.become_established(window);
        self.restart(draft);
        self.judge(draft);
    }

    /// The state once as many more as `by` are acknowledged, perhaps the own FIN among them.
    #[tactic(auto, using(crate::proofs::Connections::Advance::same_state))]
    fn state_advanced(&self, by: usize) -> TcpState
        requires synchronized { is_synchronized self.now.control.state ≡ true }
        requires within { by ≤ self.now.highest }
        ensures { (r : Tcb) → StandsFor self.now r
            → result ≡ state_advanced (own_fin_acknowledged by r) r.control.state }
    {
        if by == self.send.len() + 1 {
            self.control.state.after_own_fin()
        } else {
            self.control.state
        }
    }

    /// How many duplicate acknowledgements are counted once as many more as `by` are acknowledged.
    fn still_counted(&self, by: u32) -> u8
        ensures { result ≡ still_counted by self.now.duplicates }
    {
        if by > 0 { 0 } else { self.duplicates }
    }

    /// As many more as `by` are acknowledged.
    fn move_una(&mut self, by: u32, window: u16)
        requires synchronized { is_synchronized self.old.control.state ≡ true }
        requires within { by ≤ self.old.highest }
        ensures { (r : Tcb) → StandsFor self.old r → StandsFor self.new (advanced by window r) }
    {
        let count = by as usize;
        let rest = self.send.len().saturating_sub(count);
        self.control.state = self.state_advanced(count);
        self.control.window = window;
        self.una = number_at(self.una, by);
        self.sent = self.sent.saturating_sub(count);
        self.highest -= count;
        self.recover = self.recover.saturating_sub(count);
        self.control.congestion = self.control.congestion.acknowledged(by);
        self.duplicates = self.still_counted(by);
        self.send.truncate_front(rest);
    }

    /// Whether an acknowledgement starts the timer anew.
    fn restarts_timer(&self, by: u32, window: u16) -> bool
        ensures { result ≡ restarts_timer by window self.now.control }
    {
        by > 0 || (window == 0 && !self.control.state.is_time_wait())
    }

    #[tactic(auto, unfolding(crate::specs::connection::Arrival::advances))]
    pub(crate) fn advance(&mut self, draft: &mut Draft, by: u32, window: u16)
        requires synchronized { is_synchronized self.old.control.state ≡ true }
        requires within { by ≤ self.old.highest }
        ensures { Does (advances by window) self.old draft.old self.new draft.new }
    {
        let restarts = self.restarts_timer(by, window);
        self.move_una(by, window);
        if restarts {
            self.restart(draft);
        }
        self.judge(draft);
    }
}
