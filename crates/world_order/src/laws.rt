//! Laws of the least event and of a round's window. Those of worlds and rounds are told for the hosts of a net, in
//! `round_lookahead` and `round_schedule`.

ghost use Rattle.std.specs.Prelude.{◌≡◌, ℕ, ◌<◌, ◌≤◌, false, Option, None, List, ◌∷◌, All, IsPermutation, Some};
ghost use Rattle.sim_base.specs.declared.event.Event.{Event};
ghost use Rattle.world_order.specs.EventOrder.{is_before, take_least};
ghost use Rattle.world_order.specs.Window.{window_end};

/// No event of a list comes before the one of least key that is taken from it, and the others are kept.
pub fn least_event()
    ensures least { (events rest : List Event) (event : Event) → take_least events ≡ Some (event, rest) → All (λ other. is_before other event ≡ false) events }
    ensures kept { (events rest : List Event) (event : Event) → take_least events ≡ Some (event, rest) → IsPermutation events (event ∷ rest) }
{}

/// A round's end is no later than the stop; and where its least event is due before the stop, and the lookahead is a nanosecond at least,
/// it is later than that event.
pub fn window()
    ensures no_later { (lookahead : Option ℕ) (stop least : ℕ) → window_end lookahead stop least ≤ stop }
    ensures lone { (stop least : ℕ) → least < stop → least < window_end None stop least }
    ensures later { (lookahead stop least : ℕ) → 0 < lookahead → least < stop → least < window_end (Some lookahead) stop least }
{}
