//! A host that is run up to a time.

ghost use Rattle.std.specs.Prelude.{◌≡◌, ◌≤◌, ◌<◌, ◌∷◌, All, IfSome, IfNone, OnOk};
ghost use Rattle.sim_base.specs.Units.{latest_time};
ghost use Rattle.event_order.specs.Events.{IsOrdered};
ghost use Rattle.host_state.specs.HostRecord.{HostRecord};
ghost use Rattle.host_state.specs.HostStands.{Stands};
ghost use Rattle.host_state.specs.Running.{MayRun, RunsUntil};

use crate::host::Host;
use host_link::{Net, Outbox};
use sim_base::{Event, NoMemory, Time};

impl Host {
    /// Takes out the event of least key, if it is due before a time.
    fn take_due(&mut self, end: Time) -> Option<Event>
        ensures taken { IfSome result (λ event. self.old.queue ≡ event ∷ self.new.queue) }
        ensures ordered { IfSome result (λ event. IsOrdered self.old.queue) }
        ensures due { IfSome result (λ event. event.key.due.nanos < end.nanos) }
        ensures over { IfNone result (All (λ event. end.nanos ≤ event.key.due.nanos) self.old.queue) }
        ensures queue { IfNone result (self.new.queue ≡ self.old.queue) }
        ensures body { self.new.body ≡ self.old.body }
    {
        let due = self.queue.least_due()?;
        if due.nanos >= end.nanos {
            return None;
        }
        self.queue.take_least()
    }

    /// Fires the events that the host holds and that are due before `end`, least key first, also
    /// those that it makes for itself on the way. Packets for other hosts, lines of the log and what
    /// processes write are added to `out`.
    pub fn run_until(&mut self, net: &Net, end: Time, out: &mut Outbox) -> Result<(), NoMemory>
        requires stop { net.now.stop.nanos ≤ latest_time }
        requires until { end.nanos ≤ net.now.stop.nanos }
        requires own { MayRun net.now self.old }
        ensures ran { OnOk result ((h : HostRecord) → Stands self.old h → RunsUntil net.now end h self.old self.new out.old out.new) }
        ensures own { OnOk result (MayRun net.now self.new) }
    {
        'events: while let Some(event) = self.take_due(end) {
            self.fire(net, event, out)?;
        }
        Ok(())
    }
}
