//! When the timer of a connection runs (RFC 9293, sections 3.8.1, 3.8.6.1 and 3.6.1).

use crate::connection::conn::Conn;
use crate::connection::effects::{Draft, Effects};
use crate::segment::Phase;
use sim_base::Time;

const NANOS_PER_SECOND: u64 = 1_000_000_000;

impl Conn {
    ghost use Rattle.std.specs.Prelude.{◌≡◌, true};
    ghost use Rattle.sock_tcp.specs.connection.Tcb.{Tcb, Turn};
    ghost use Rattle.sock_tcp.specs.segment.State.{is_sending};
    ghost use Rattle.sock_tcp.specs.connection.Timer.{waits_for_window, needs_timer, judged, restarts};
    ghost use Rattle.sock_tcp.specs.connection.StandsFor.{StandsFor, Stands, Does, Gives};

    /// Whether bytes or the FIN wait for the peer's window, which is 0.
    #[tactic(auto, using(crate::proofs::Connections::Phases::unacknowledged_ends))]
    fn waits_for_window(&self) -> bool
        requires { is_sending self.now.control.state ≡ true }
        ensures { (r : Tcb) → StandsFor self.now r → result ≡ waits_for_window r }
    {
        self.control.window == 0 && (!self.send.is_empty() || self.control.fin_wanted)
    }

    /// Whether the timer is to run.
    #[tactic(auto, unfolding(crate::specs::connection::Timer::needs_timer))]
    fn needs_timer(&self) -> bool
        ensures { (r : Tcb) → StandsFor self.now r → result ≡ needs_timer r }
    {
        match self.control.state.phase() {
            Phase::Opening => self.highest > 0,
            Phase::Open | Phase::Ending => self.highest > 0 || self.waits_for_window(),
            Phase::Finished => self.control.state.is_time_wait(),
            Phase::Over => false,
        }
    }

    /// Starts the timer where it is needed and doesn't run, and stops it where it isn't needed.
    #[tactic(auto, unfolding(crate::specs::connection::Timer::judged))]
    pub(crate) fn judge(&mut self, draft: &mut Draft)
        ensures { Does judged self.old draft.old self.new draft.new }
    {
        if self.needs_timer() {
            if !self.control.timer {
                self.control.timer = true;
                draft.started = true;
            }
        } else {
            self.control.timer = false;
        }
    }

    /// Starts the timer anew at its first length.
    #[tactic(auto, unfolding(crate::specs::connection::Timer::restarts, crate::specs::connection::Timer::restarted))]
    pub(crate) fn restart(&mut self, draft: &mut Draft)
        ensures { Does restarts self.old draft.old self.new draft.new }
    {
        self.control.retries = 0;
        self.control.timer = true;
        draft.started = true;
    }

    /// The effects of a call, at its end.
    #[tactic(auto, unfolding(crate::specs::connection::Timer::timer_of))]
    pub(crate) fn finish(&self, draft: Draft) -> Effects
        ensures { (t : Turn) → Stands self.now draft t → Gives self.now result t }
    {
        let Draft { segments, started } = draft;
        let timer = if started && self.control.timer {
            Some(Time {
                nanos: self.control.timer_seconds() * NANOS_PER_SECOND,
            })
        } else {
            None
        };
        Effects { segments, timer }
    }
}
