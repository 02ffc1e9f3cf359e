//! An expiry of a connection's timer (RFC 9293, sections 3.8.1, 3.8.6.1 and 3.10.8).

use crate::connection::conn::Conn;
use crate::connection::effects::Draft;
use sim_base::{Errno, NoMemory};

impl Conn {
    ghost use Rattle.std.specs.Prelude.{◌≡◌, ◌<◌, OnOk};
    ghost use Rattle.sock_tcp.specs.connection.Tcb.{Tcb};
    ghost use Rattle.sock_tcp.specs.connection.Congestion.{happens};
    ghost use Rattle.sock_tcp.specs.connection.Congestion.CongestionEvent.{times_out};
    ghost use Rattle.sock_tcp.specs.connection.Process.{backs_off, counts_expiry, retries_once, expires_running, expires};
    ghost use Rattle.sock_tcp.specs.connection.StandsFor.{StandsFor, Does};

    /// The window after an expiry with text or the FIN in flight.
    fn back_off(&mut self)
        ensures stands { (r : Tcb) → StandsFor self.old r
            → StandsFor self.new (happens (times_out r.control.retries r.una r.highest) r) }
        ensures retries { self.new.control.retries ≡ self.old.control.retries }
    {
        let first = self.control.retries == 0;
        self.control.congestion = self.control.congestion.timed_out(first, self.highest);
        self.duplicates = 0;
        self.recover = self.highest;
    }

    /// An expiry with text or the FIN in flight tells of a loss.
    #[tactic(auto, unfolding(crate::specs::connection::Process::backs_off))]
    fn notice_expiry(&mut self)
        ensures stands { (r : Tcb) → StandsFor self.old r → StandsFor self.new (backs_off r) }
        ensures retries { self.new.control.retries ≡ self.old.control.retries }
    {
        if self.control.state.is_synchronized() && self.highest > 0 {
            self.back_off();
        }
    }

    /// Counts the expiry: the timer starts again.
    fn count_expiry(&mut self, draft: &mut Draft)
        requires { self.old.control.retries < 6 }
        ensures does { Does counts_expiry self.old draft.old self.new draft.new }
        ensures state { self.new.control.state ≡ self.old.control.state }
    {
        self.control.retries += 1;
        draft.started = true;
    }

    /// The window shrinks, the expiry counts, and one segment goes out again.
    #[tactic(auto, unfolding(crate::specs::connection::Process::retries_once))]
    fn retry(&mut self, draft: &mut Draft) -> Result<(), NoMemory>
        requires { self.old.control.retries < 6 }
        ensures { OnOk result (Does retries_once self.old draft.old self.new draft.new) }
    {
        self.notice_expiry();
        self.count_expiry(draft);
        self.send_one(draft)?;
        Ok(())
    }

    /// At the seventh expiry in a row it gives up.
    #[tactic(auto, unfolding(crate::specs::connection::Process::expires_running, crate::specs::connection::Process::gives_up))]
    fn expire_running(&mut self, draft: &mut Draft) -> Result<(), NoMemory>
        ensures { OnOk result (Does expires_running self.old draft.old self.new draft.new) }
    {
        if self.control.state.is_time_wait() {
            self.vanish(draft);
        } else if self.control.retries < 6 {
            self.retry(draft)?;
        } else if self.control.state.is_syn_received() {
            self.vanish(draft);
        } else {
            self.end(draft, Errno::Etimedout);
        }
        Ok(())
    }

    #[tactic(auto, unfolding(crate::specs::connection::Process::expires))]
    pub(crate) fn expire(&mut self, draft: &mut Draft) -> Result<(), NoMemory>
        ensures { OnOk result (Does expires self.old draft.old self.new draft.new) }
    {
        if self.control.timer {
            self.expire_running(draft)?;
            self.judge(draft);
        }
        Ok(())
    }
}
