//! What becomes of what a host made.

ghost use Rattle.std.specs.Prelude.{◌≡◌, ◌∷◌, [], OnOk};
ghost use Rattle.event_order.specs.Events.{has_key};
ghost use Rattle.host_link.specs.Handing.{HandsAllOn, HandsOn, held_once, with_events};

use crate::net::Net;
use crate::outbox::{Made, Outbox};
use event_order::Queue;
use sim_base::{Event, Key, NoMemory};

/// A queue has one event more, unless it has its key.
fn hold(queue: &mut Queue, event: Event) -> Result<(), NoMemory>
    ensures { OnOk result (queue.new ≡ held_once (has_key event.key queue.old) event queue.old) }
{
    if !queue.has_key(&event.key) {
        queue.add(event)?;
    }
    Ok(())
}

/// A queue has more events, each key once.
pub(crate) fn hold_all(queue: &mut Queue, events: Vec<Event>) -> Result<(), NoMemory>
    ensures { OnOk result (queue.new ≡ with_events events.items queue.old) }
{
    for event in events {
        hold(queue, event)?;
    }
    Ok(())
}

/// An event that a host made: one of its own joins those that it holds, and the packet of another
/// one is added to `out`.
fn hand_on(
    queue: &mut Queue,
    out: &mut Outbox,
    net: &Net,
    host: u32,
    event: Event,
) -> Result<(), NoMemory>
    ensures { OnOk result (HandsOn net.now host (event ∷ []) queue.old queue.new out.old out.new) }
{
    let to = net.home(&event);
    if to == host {
        return hold(queue, event);
    }
    out.post(to, event)
}

/// The events that a host made, in order.
fn hand_all_on(
    queue: &mut Queue,
    out: &mut Outbox,
    net: &Net,
    host: u32,
    events: Vec<Event>,
) -> Result<(), NoMemory>
    ensures { OnOk result (HandsOn net.now host events.items queue.old queue.new out.old out.new) }
{
    for event in events {
        hand_on(queue, out, net, host, event)?;
    }
    Ok(())
}

/// What the firing of an event with this key made at a host: its own events join those that it holds,
/// and the rest is added to `out`.
pub fn hand_made_on(
    queue: &mut Queue,
    out: &mut Outbox,
    net: &Net,
    host: u32,
    key: Key,
    made: Made,
) -> Result<(), NoMemory>
    ensures { OnOk result (HandsAllOn net.now host key made queue.old queue.new out.old out.new) }
{
    let Made {
        events,
        lines,
        outputs,
    } = made;
    hand_all_on(queue, out, net, host, events)?;
    out.add_lines(key, lines)?;
    out.add_outputs(outputs)
}
