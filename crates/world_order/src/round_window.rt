//! The window of a round.

ghost use Rattle.std.specs.Prelude.{◌≡◌, option_map};
ghost use Rattle.sim_base.specs.declared.time.Time.{Time};
ghost use Rattle.world_order.specs.Window.{window_end};

use sim_base::Time;

/// The time from when on, and the time before which, the events of a round are due.
#[derive(Clone, Copy, Drop)]
pub struct Window {
    pub from: Time,
    pub end: Time,
}

impl Window {
    /// The window of the round whose least event is due at `least`: it ends before any packet that
    /// is made in it arrives, which takes the lookahead at least, and no later than the stop. Where
    /// there is no lookahead, no packet goes from one host to another.
    pub fn of(least: Time, lookahead: Option<Time>, stop: Time) -> Window
        ensures from { result.from ≡ least }
        ensures end { result.end.nanos ≡ window_end (option_map (λ (t : Time). t.nanos) lookahead) stop.nanos least.nanos }
    {
        let end = match lookahead {
            None => stop.nanos,
            Some(lookahead) => match least.nanos.checked_add(lookahead.nanos) {
                Some(end) => stop.nanos.min(end),
                None => stop.nanos,
            },
        };
        Window {
            from: least,
            end: Time { nanos: end },
        }
    }
}
