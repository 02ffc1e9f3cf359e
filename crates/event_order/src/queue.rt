//! A queue of events.

ghost use Rattle.std.specs.Prelude.{◌≡◌, ◌∷◌, ◌↔◌, [], false, length, option_map, slice_get, All, IfSome, IfNone, IfErr, OnOk, OnErr, IsTrue};
ghost use Rattle.std.specs.Bool.{OnTrue, OnFalse};
ghost use Rattle.event_order.specs.Events.{ComesLater, IsBefore, IsLeastDue, IsOrdered, has_key, with_event};

use crate::behind::{add_behind, is_earlier, leads, least_due_in, step_back};
use sim_base::{Event, Key, NoMemory, Time, What};
use std::alloc::Global;
use std::cmp::Ordering;
use std::collections::BTreeMap;
use std::marker::Model;

/// Events without a repeated key. Contracts see the list of the events, least key first.
///
/// An event that is added and comes before all others stands by itself: most events are taken out from there, and are never
/// in the map.
pub struct Queue {
    first: Option<Event>,
    rest: BTreeMap<Key, What>,
}

/// By hand: a derived one would be proved anew in each crate that drops such a value.
impl Drop for Queue {
    fn drop(self) {
        let Queue { first, rest } = self;
        drop(first);
        drop(rest);
    }
}

/// An event that had no room, for want of memory.
#[derive(Drop)]
pub struct Refused {
    pub event: Event,
}

impl Model for Queue {
    ghost use Rattle.std.specs.Prelude.{List};
    ghost use Rattle.sim_base.specs.declared.event.Event.{Event};
    ghost use Rattle.event_order.specs.Events.{IsOrdered, held};

    ghost Value = { List Event };

    ghost view = { λ q. held q.first q.rest.entries };

    ghost invariant = { λ q. IsOrdered (held q.first q.rest.entries) };
}

impl Queue {
    pub fn new(alloc: Global) -> Queue
        ensures { result ≡ [] }
    {
        Queue {
            first: None,
            rest: BTreeMap::new(alloc),
        }
    }

    pub fn len(&self) -> usize
        ensures { result ≡ length self.now }
    {
        match &self.first {
            Some(_) => self.rest.len() + 1,
            None => self.rest.len(),
        }
    }

    pub fn is_empty(&self) -> bool
        ensures { IsTrue result ↔ (self.now ≡ []) }
    {
        self.len() == 0
    }

    /// Whether an event with this key is held.
    pub fn has_key(&self, key: &Key) -> bool
        ensures { result ≡ has_key key.now self.now }
    {
        match &self.first {
            Some(first) => match key.cmp(&first.key) {
                Ordering::Less => false,
                Ordering::Equal => true,
                Ordering::Greater => self.rest.contains_key(key),
            },
            None => self.rest.contains_key(key),
        }
    }

    /// Whether an event comes before all others.
    fn is_first(&self, event: &Event) -> bool
        ensures first { OnTrue result (All (IsBefore event.now) self.now) }
        ensures later { OnFalse result (ComesLater event.now self.now) }
    {
        match &self.first {
            Some(first) => is_earlier(&event.key, &first.key),
            None => leads(event, &self.rest),
        }
    }

    /// An event that comes before all others stands by itself from now on, or is given back for want of memory.
    fn lead(&mut self, event: Event) -> Result<(), Refused>
        requires { All (IsBefore event) self.old }
        ensures ok { OnOk result (self.new ≡ event ∷ self.old) }
        ensures given_back { IfErr result (λ refused. refused.event ≡ event) }
        ensures err { OnErr result (self.new ≡ self.old) }
    {
        match step_back(self.first.take(), &mut self.rest) {
            Ok(()) => {
                self.first = Some(event);
                Ok(())
            }
            Err(Refused { event: first }) => {
                self.first = Some(first);
                Err(Refused { event })
            }
        }
    }

    /// An event that doesn't come before all others joins those of the map, or is given back for want of memory.
    fn follow(&mut self, event: Event) -> Result<(), Refused>
        requires new { has_key event.key self.old ≡ false }
        requires later { ComesLater event self.old }
        ensures ok { OnOk result (self.new ≡ with_event event self.old) }
        ensures given_back { IfErr result (λ refused. refused.event ≡ event) }
        ensures err { OnErr result (self.new ≡ self.old) }
    {
        add_behind(&mut self.rest, event)
    }

    /// Adds an event whose key is not held, or gives it back for want of memory.
    pub fn add(&mut self, event: Event) -> Result<(), Refused>
        requires { has_key event.key self.old ≡ false }
        ensures ok { OnOk result (self.new ≡ with_event event self.old) }
        ensures given_back { IfErr result (λ refused. refused.event ≡ event) }
        ensures err { OnErr result (self.new ≡ self.old) }
    {
        if self.is_first(&event) {
            self.lead(event)
        } else {
            self.follow(event)
        }
    }

    /// Takes the event of least key out. The list is in order.
    pub fn take_least(&mut self) -> Option<Event>
        ensures ordered { IsOrdered self.old }
        ensures taken { IfSome result (λ event. self.old ≡ event ∷ self.new) }
        ensures least { IfSome result (λ event. All (IsBefore event) self.new) }
        ensures none { IfNone result (self.old ≡ []) }
        ensures unchanged { IfNone result (self.new ≡ self.old) }
    {
        if let Some(event) = self.first.take() {
            return Some(event);
        }
        let (key, what) = self.rest.pop_first()?;
        Some(Event { key, what })
    }

    /// When the event of least key is due.
    pub fn least_due(&self) -> Option<Time>
        ensures first { result ≡ option_map (λ event. event.key.due) (slice_get self.now 0) }
        ensures least { IsLeastDue self.now result }
    {
        match &self.first {
            Some(first) => Some(first.key.due),
            None => least_due_in(&self.rest),
        }
    }
}

impl From<Refused> for NoMemory {
    fn from(_refused: Refused) -> NoMemory {
        NoMemory
    }
}
