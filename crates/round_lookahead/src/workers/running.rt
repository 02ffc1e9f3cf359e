//! A task's host is run up to the end of a round.
ghost use Rattle.std.specs.Prelude.{◌≡◌, ◌≤◌, ◌<◌, ◌++◌, [], All, IfOk, OnOk, IsPermutation, length};
ghost use Rattle.sim_base.specs.Units.{latest_time};
ghost use Rattle.host_state.specs.HostRecord.{HostRecord};
ghost use Rattle.host_state.specs.HostStands.{IsSameBody};
ghost use Rattle.host_link.specs.Parcels.{parcel_event};
ghost use Rattle.world_order.specs.EventOrder.{AreApart};
ghost use Rattle.round_parts.specs.Arrivals.{arrivals};
ghost use Rattle.round_lookahead.specs.Tasks.{IsTask};
ghost use Rattle.round_lookahead.specs.inside.Works.{HasRun, done_of};

use crate::workers::host_task::{HostTask, due_of};
use host_link::{Net, Outbox};
use host_state::Host;
use sim_base::{Event, NoMemory, Parcel, Time, What};
use std::alloc::Global;
use std::mem;

/// The event that a parcel is at its host.
fn arrival(parcel: Parcel) -> Event
    ensures { result ≡ parcel_event parcel }
{
    let Parcel { key, packet, .. } = parcel;
    Event {
        key,
        what: What::Packet(packet),
    }
}

/// The parcels that wait for a host join the events that it holds.
fn join_parcels(host: &mut Host, parcels: Vec<Box<Parcel>>) -> Result<(), NoMemory>
    requires { AreApart (host.old.queue ++ arrivals parcels.items) }
    ensures queue { OnOk result (IsPermutation host.new.queue (host.old.queue ++ arrivals parcels.items)) }
    ensures body { OnOk result (IsSameBody host.old host.new) }
{
    for parcel in parcels {
        host.add(arrival(Box::into_inner(parcel)))?;
    }
    Ok(())
}

impl HostTask {
    /// Runs the host, with the parcels that wait for it, up to the end. What it made is handed out.
    pub(crate) fn run_here(
        &mut self,
        alloc: Global,
        net: &Net,
        end: Time,
    ) -> Result<Outbox, NoMemory>
        requires stop { net.now.stop.nanos ≤ latest_time }
        requires until { end.nanos ≤ net.now.stop.nanos }
        requires task { (h : HostRecord) × IsTask net.now self.old.id.index self.old h }
        ensures to { IfOk result (λ out. All (λ parcel. parcel.to.index < length net.now.known.book) out.parcels.items) }
        ensures id { OnOk result (self.new.id ≡ self.old.id) }
        ensures emptied { OnOk result (self.new.parcels.items ≡ []) }
        ensures run { IfOk result (λ out. (h : HostRecord) → IsTask net.now self.old.id.index self.old h → HasRun net.now end.nanos self.old h (done_of self.new out) out.parcels.items) }
    {
        let parcels = mem::replace(&mut self.parcels, Vec::new(alloc));
        let joined = join_parcels(&mut *self.host, parcels);
        self.due = due_of(&*self.host);
        joined?;
        let mut out = Outbox::new(alloc);
        let ran = self.host.run_until(net, end, &mut out);
        self.due = due_of(&*self.host);
        self.work = self.host.work();
        ran?;
        Ok(out)
    }

    /// The same, but a host with nothing to do isn't looked at: it stays as it is, and hands out nothing.
    pub(crate) fn run_if_busy(
        &mut self,
        alloc: Global,
        net: &Net,
        end: Time,
    ) -> Result<Outbox, NoMemory>
        requires stop { net.now.stop.nanos ≤ latest_time }
        requires until { end.nanos ≤ net.now.stop.nanos }
        requires task { (h : HostRecord) × IsTask net.now self.old.id.index self.old h }
        ensures to { IfOk result (λ out. All (λ parcel. parcel.to.index < length net.now.known.book) out.parcels.items) }
        ensures id { OnOk result (self.new.id ≡ self.old.id) }
        ensures emptied { OnOk result (self.new.parcels.items ≡ []) }
        ensures run { IfOk result (λ out. (h : HostRecord) → IsTask net.now self.old.id.index self.old h → HasRun net.now end.nanos self.old h (done_of self.new out) out.parcels.items) }
    {
        if self.is_busy(end) {
            return self.run_here(alloc, net, end);
        }
        Ok(Outbox::new(alloc))
    }
}
