//! What a kept connection of a listener does with a segment and an expiry (RFC 9293, sections
//! 3.10.7 and 3.10.8).

use crate::connection::{Carried, Effects};
use crate::listener::Listener;
use sim_base::{NoMemory, Packet};
use std::alloc::Global;

impl Listener {
    ghost use Rattle.std.specs.Prelude.{◌≡◌, ◌<◌, length, slice_get, Some, IfOk, OnOk};
    ghost use Rattle.sock_tcp.specs.connection.Tcb.{Tcb};
    ghost use Rattle.sock_tcp.specs.connection.Begin.{begin};
    ghost use Rattle.sock_tcp.specs.connection.Arrival.{takes_packet};
    ghost use Rattle.sock_tcp.specs.connection.Process.{expires};
    ghost use Rattle.sock_tcp.specs.connection.Carried.{with_gone};
    ghost use Rattle.sock_tcp.specs.listener.Dropped.{dropped_by};
    ghost use Rattle.sock_tcp.specs.listener.Listen.{Listen, record_heard};
    ghost use Rattle.sock_tcp.specs.listener.ListensFor.{ListensFor, Tells};

    pub(crate) fn alloc(&self) -> Global {
        *self.records.allocator()
    }

    /// The connection at a place takes a segment.
    pub(crate) fn record_arrive(
        &mut self,
        place: usize,
        segment: &Packet,
        gone: &mut Vec<Carried>,
    ) -> Result<Effects, NoMemory>
        requires { place < length self.old.records.items }
        ensures tells { IfOk result (λ effects. (l : Listen) → ListensFor self.old l
            → (r : Tcb) → slice_get l.records place ≡ Some r
            → Tells self.new effects (record_heard place r.control.was_established (takes_packet segment.now (begin r)) l)) }
        ensures gone { OnOk result ((l : Listen) → ListensFor self.old l
            → (r : Tcb) → slice_get l.records place ≡ Some r
            → gone.new.items ≡ with_gone (dropped_by (takes_packet segment.now) (Some r)) gone.old.items) }
    {
        let before = self.records[place].control().was_established;
        let conn = &mut self.records[place];
        let effects = conn.arrive(segment)?;
        self.requeue(place, before, gone)?;
        Ok(effects)
    }

    /// Its timer expires.
    pub(crate) fn record_expire(
        &mut self,
        place: usize,
        gone: &mut Vec<Carried>,
    ) -> Result<Effects, NoMemory>
        requires { place < length self.old.records.items }
        ensures tells { IfOk result (λ effects. (l : Listen) → ListensFor self.old l
            → (r : Tcb) → slice_get l.records place ≡ Some r
            → Tells self.new effects (record_heard place r.control.was_established (expires (begin r)) l)) }
        ensures gone { OnOk result ((l : Listen) → ListensFor self.old l
            → (r : Tcb) → slice_get l.records place ≡ Some r
            → gone.new.items ≡ with_gone (dropped_by expires (Some r)) gone.old.items) }
    {
        let before = self.records[place].control().was_established;
        let conn = &mut self.records[place];
        let effects = conn.timer()?;
        self.requeue(place, before, gone)?;
        Ok(effects)
    }
}
