//! Laws of lists of events.

ghost use Rattle.std.specs.Prelude.{◌∷◌, List, IsPermutation};
ghost use Rattle.sim_base.specs.declared.event.Event.{Event};
ghost use Rattle.event_order.specs.Events.{with_event};

/// With an event more, a list holds that event and what it held, and nothing else.
pub fn one_event_more()
    ensures { (event : Event) (events : List Event) → IsPermutation (event ∷ events) (with_event event events) }
{}
