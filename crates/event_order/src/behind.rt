//! The events of a map, behind one that stands by itself.

ghost use Rattle.std.specs.Prelude.{◌≡◌, false, All, Some, option_map, slice_get, IfErr, OnOk, OnErr};
ghost use Rattle.std.specs.Bool.{OnTrue, OnFalse};
ghost use Rattle.std.specs.Ordering.{is_lt};
ghost use Rattle.sim_base.specs.Key.{key_order};
ghost use Rattle.event_order.specs.Events.{ComesLater, IsBefore, IsLeastDue, IsOrdered, events_of, has_key, held, with_event};

use crate::queue::Refused;
use sim_base::{Event, Key, Time, What};
use std::alloc::AllocFailed;
use std::collections::BTreeMap;

/// Whether a key comes before another.
pub(crate) fn is_earlier(key: &Key, other: &Key) -> bool
    ensures { result ≡ is_lt (key_order key.now other.now) }
{
    key.cmp(other).is_lt()
}

/// Whether an event comes before all of a map.
pub(crate) fn leads(event: &Event, rest: &BTreeMap<Key, What>) -> bool
    ensures first { OnTrue result (All (IsBefore event.now) (events_of rest.now.entries)) }
    ensures later { OnFalse result (ComesLater event.now (events_of rest.now.entries)) }
{
    match rest.first_key_value() {
        Some((least, _)) => is_earlier(&event.key, least),
        None => true,
    }
}

/// When the first event of a map is due.
pub(crate) fn least_due_in(rest: &BTreeMap<Key, What>) -> Option<Time>
    ensures first { result ≡ option_map (λ event. event.key.due) (slice_get (events_of rest.now.entries) 0) }
    ensures least { IsLeastDue (events_of rest.now.entries) result }
{
    match rest.first_key_value() {
        Some((key, _)) => Some(key.due),
        None => None,
    }
}

/// Adds an event to a map that doesn't have its key, or gives it back for want of memory.
pub(crate) fn add_behind(rest: &mut BTreeMap<Key, What>, event: Event) -> Result<(), Refused>
    requires { has_key event.key (events_of rest.old.entries) ≡ false }
    ensures ok { OnOk result (events_of rest.new.entries ≡ with_event event (events_of rest.old.entries)) }
    ensures given_back { IfErr result (λ refused. refused.event ≡ event) }
    ensures err { OnErr result (rest.new.entries ≡ rest.old.entries) }
{
    let Event { key, what } = event;
    match rest.insert(key, what) {
        Ok(_) => Ok(()),
        Err(AllocFailed { value: (key, what) }) => Err(Refused {
            event: Event { key, what },
        }),
    }
}

/// The event that stands by itself, if one does, joins those of the map, or is given back for want of memory.
pub(crate) fn step_back(first: Option<Event>, rest: &mut BTreeMap<Key, What>) -> Result<(), Refused>
    requires { IsOrdered (held first rest.old.entries) }
    ensures ok { OnOk result (events_of rest.new.entries ≡ held first rest.old.entries) }
    ensures err { IfErr result (λ refused. held (Some refused.event) rest.new.entries ≡ held first rest.old.entries) }
{
    match first {
        Some(event) => add_behind(rest, event),
        None => Ok(()),
    }
}
