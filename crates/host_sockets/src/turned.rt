//! What an act on the connection of a socket brings about.

ghost use Rattle.std.specs.Prelude.{◌≡◌, IfOk};
ghost use Rattle.host_wants.specs.Wanted.{wants_alarm, due_after};
ghost use Rattle.sim_base.specs.declared.alarm.AlarmTarget.TheVariants.{Socket};

use crate::tcp_sock::TcpSock;
use host_wants::Outlet;
use sim_base::{AlarmTarget, NoMemory, Time};
use sock_tcp::{Carried, Control, Effects};

/// The latest moment that an alarm is due.
const LATEST: u64 = 1 << 62;

/// A moment later by a length.
fn due_after(now: Time, length: Time) -> Time
    ensures { result ≡ due_after now length }
{
    Time {
        nanos: now.nanos.saturating_add(length.nanos).min(LATEST),
    }
}

/// Makes the alarm of a timer of the socket with a number, and answers its serial.
pub(crate) fn start(
    outlet: &mut Outlet,
    now: Time,
    place: usize,
    length: Time,
) -> Result<u64, NoMemory>
    ensures { IfOk result (λ serial. (serial, outlet.new) ≡ wants_alarm (Socket place) (due_after now length) outlet.old) }
{
    let due = due_after(now, length);
    outlet.alarm(AlarmTarget::Socket(place), due)
}

impl TcpSock {
    ghost use Rattle.std.specs.Prelude.{◌≡◌, Some, OnOk, IfOk};
    ghost use Rattle.sock_tcp.specs.connection.Carried.{with_gone};
    ghost use Rattle.sock_tcp.specs.connection.Tcb.{Tcb, Turn};
    ghost use Rattle.sock_tcp.specs.connection.Timer.{timer_of};
    ghost use Rattle.host_wants.specs.Wanted.{Wanted};
    ghost use Rattle.host_sockets.specs.TcpSocket.{TcpSocket, with_tcb};
    ghost use Rattle.host_sockets.specs.TcpActs.{is_let_go, fresh_again, let_go, starts, turned};
    ghost use Rattle.host_sockets.specs.StandsFor.{SocketStands};
    ghost use Rattle.host_sockets.specs.inside.StandsFor.{Brings};

    /// The timer that an act started, if it did, is an alarm of the socket from then on.
    fn start_timer(
        &mut self,
        outlet: &mut Outlet,
        now: Time,
        place: usize,
        timer: Option<Time>,
    ) -> Result<(), NoMemory>
        ensures socket { OnOk result ((s : TcpSocket) → SocketStands self.old s
            → SocketStands self.new (starts now place timer s outlet.old).0) }
        ensures wanted { OnOk result ((s : TcpSocket) → outlet.new ≡ (starts now place timer s outlet.old).1) }
    {
        if let Some(length) = timer {
            let serial = start(outlet, now, place, length)?;
            self.serial = serial;
        }
        Ok(())
    }

    /// Whether a connection is over and done with: no descriptor names its socket any more, or it
    /// was never ESTABLISHED and its error was taken.
    fn is_done(&self, control: Control) -> bool
        ensures { (s : TcpSocket) (r : Tcb) → SocketStands self.now s → control ≡ r.control → result ≡ is_let_go r s }
    {
        control.state.is_over()
            && (!self.held || (!control.was_established && control.error.is_none()))
    }

    /// It is fresh again, and is still bound to what it was bound to.
    fn refresh(&mut self)
        ensures { (s : TcpSocket) → SocketStands self.old s → SocketStands self.new (fresh_again s) }
    {
        let bound = self.bound;
        *self = TcpSock::fresh(self.alloc(), self.held);
        self.bound = bound;
    }

    /// Lets a connection go that is done with. What it carried is kept.
    #[tactic(auto, using(crate::proofs::Going::goes, crate::proofs::Going::stays))]
    fn let_go(&mut self, gone: &mut Vec<Carried>) -> Result<(), NoMemory>
        ensures socket { OnOk result ((s : TcpSocket) (r : Tcb) (w : Wanted) → SocketStands self.old s → s.tcb ≡ Some r
            → SocketStands self.new (let_go r s w).socket) }
        ensures gone { OnOk result ((s : TcpSocket) (r : Tcb) (w : Wanted) → SocketStands self.old s → s.tcb ≡ Some r
            → gone.new.items ≡ with_gone (let_go r s w).gone gone.old.items) }
    {
        if let Some(conn) = &self.conn {
            if self.is_done(conn.control()) {
                gone.push(conn.carried())?;
                self.refresh();
            }
        }
        Ok(())
    }

    /// Brings about what an act on its connection does: its segments are sent, then its timer
    /// starts, and a connection that is done with is let go.
    #[tactic(auto, unfolding(crate::specs::TcpActs::turned))]
    pub(crate) fn bring_about(
        &mut self,
        outlet: &mut Outlet,
        now: Time,
        place: usize,
        effects: Effects,
        gone: &mut Vec<Carried>,
    ) -> Result<(), NoMemory>
        ensures { OnOk result ((s : TcpSocket) (t : Turn) → SocketStands self.old (with_tcb t.tcb s)
            → effects.segments.items ≡ t.sent → effects.timer ≡ timer_of t
            → Brings self.new outlet.new gone.old.items gone.new.items (turned now place t s outlet.old)) }
    {
        let Effects { segments, timer } = effects;
        outlet.send_all(segments)?;
        self.start_timer(outlet, now, place, timer)?;
        self.let_go(gone)
    }
}
