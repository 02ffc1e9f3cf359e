//! The calls on a listener (RFC 9293, sections 3.10.4 and 3.10.7.2).

use crate::connection::{Carried, Draft, Effects, add_carried, bit_if, place_in, reset_all};
use crate::listener::Listener;
use host_draws::Draws;
use sim_base::{Addr, NoMemory, POLLIN, Packet};

impl Listener {
    ghost use Rattle.std.specs.Prelude.{◌≡◌, ◌<◌, length, nat_lt, is_some, IfSome, IfOk, OnOk, if◌then◌else◌};
    ghost use Rattle.host_draws.specs.Draws.{draw};
    ghost use Rattle.sock_tcp.specs.connection.Pairs.{place_in};
    ghost use Rattle.sock_tcp.specs.connection.Arrival.{takes_packet};
    ghost use Rattle.sock_tcp.specs.connection.Process.{expires};
    ghost use Rattle.sock_tcp.specs.connection.Carried.{with_gone};
    ghost use Rattle.sock_tcp.specs.listener.Dropped.{dropped};
    ghost use Rattle.sock_tcp.specs.listener.Listen.{Listen, hears, is_kept, takes_word, hears_timer, hears_close};
    ghost use Rattle.sock_tcp.specs.listener.Ready.{readiness};
    ghost use Rattle.sock_tcp.specs.listener.ListensFor.{ListensFor, Hears};

    /// The place of the live connection of two ends.
    pub(crate) fn place_of(&self, own: Addr, other: Addr) -> Option<usize>
        ensures within { IfSome result (λ place. place < length self.now.records.items) }
        ensures found { (l : Listen) → ListensFor self.now l → is_some result ≡ is_kept own other l }
        ensures place { (l : Listen) → ListensFor self.now l
            → IfSome result (λ place. place ≡ place_in own other l.records) }
    {
        let place = place_in(self.records.as_slice(), own, other);
        if place < self.records.len() {
            Some(place)
        } else {
            None
        }
    }

    /// Whether it keeps a live connection of two ends.
    pub fn is_kept(&self, own: Addr, other: Addr) -> bool
        ensures { (l : Listen) → ListensFor self.now l → result ≡ is_kept own other l }
    {
        self.place_of(own, other).is_some()
    }

    /// Takes a segment of a kept connection's pair, or a SYN to the listener's port (RFC 9293,
    /// section 3.10.7.2). A SYN that makes a connection draws its first number. The timer that it
    /// starts is that of the connection between the segment's two ends. What a connection carried
    /// that is let go is kept.
    pub fn arrive(
        &mut self,
        segment: &Packet,
        draws: &mut Draws,
        gone: &mut Vec<Carried>,
    ) -> Result<Effects, NoMemory>
        ensures hears { IfOk result (Hears (hears segment.now (draw draws.old).0) self.old self.new) }
        ensures draws { OnOk result ((l : Listen) → ListensFor self.old l
            → draws.new ≡ (if takes_word segment.now l then (draw draws.old).1 else draws.old)) }
        ensures gone { OnOk result ((l : Listen) → ListensFor self.old l
            → gone.new.items ≡ with_gone (dropped (takes_packet segment.now) segment.now.to segment.now.from l) gone.old.items) }
    {
        if let Some(place) = self.place_of(segment.to, segment.from) {
            let effects = self.record_arrive(place, segment, gone)?;
            return Ok(effects);
        }
        let heard = self.hear_new(segment, draws)?;
        Ok(heard)
    }

    /// The timer of a kept connection expires. What a connection carried that is let go is kept.
    pub fn timer(
        &mut self,
        local: Addr,
        peer: Addr,
        gone: &mut Vec<Carried>,
    ) -> Result<Effects, NoMemory>
        ensures hears { IfOk result (Hears (hears_timer local peer) self.old self.new) }
        ensures gone { OnOk result ((l : Listen) → ListensFor self.old l
            → gone.new.items ≡ with_gone (dropped expires local peer l) gone.old.items) }
    {
        if let Some(place) = self.place_of(local, peer) {
            let effects = self.record_expire(place, gone)?;
            return Ok(effects);
        }
        Ok(Effects::none(self.alloc()))
    }

    /// Adds what each connection that wasn't accepted carried so far, in the order of their SYNs.
    pub fn add_carried(&self, all: &mut Vec<Carried>) -> Result<(), NoMemory>
        ensures { OnOk result ((l : Listen) → ListensFor self.now l → all.new.items ≡ with_gone l.records all.old.items) }
    {
        add_carried(self.records.as_slice(), all)?;
        Ok(())
    }

    /// Resets each connection that wasn't accepted, in the order of their SYNs. What they carried is
    /// kept.
    pub fn close(&mut self, gone: &mut Vec<Carried>) -> Result<Effects, NoMemory>
        ensures hears { IfOk result (Hears hears_close self.old self.new) }
        ensures gone { OnOk result ((l : Listen) → ListensFor self.old l → gone.new.items ≡ with_gone l.records gone.old.items) }
    {
        self.add_carried(gone)?;
        let mut draft = Draft::new(self.alloc());
        reset_all(self.records.as_slice(), &mut draft)?;
        self.records.clear();
        self.accept_queue.clear();
        let Draft {
            segments,
            started: _,
        } = draft;
        Ok(Effects {
            segments,
            timer: None,
        })
    }

    /// What its socket is ready for: `POLLIN` where a connection waits to be accepted.
    pub fn ready(&self) -> u16
        ensures { (l : Listen) → ListensFor self.now l → result ≡ readiness l }
    {
        bit_if(self.waiting() > 0, POLLIN)
    }
}
