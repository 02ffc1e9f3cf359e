//! Clocks.

ghost use Rattle.std.specs.Prelude.{◌≡◌};
ghost use Rattle.host_timers.specs.Clock.{clock_at};

use sim_base::Time;

/// What a clock tells: whole seconds, and nanoseconds of a second.
#[derive(Clone, Copy, PartialEq, Eq)]
pub struct Moment {
    pub seconds: u64,
    pub nanos: u32,
}

/// The clocks that a guest can read (`clock_gettime(2)`).
#[derive(Clone, Copy)]
pub struct Clock;

const NANOS_IN_A_SECOND: u64 = 1_000_000_000;

/// 2000-01-01 00:00:00 UTC, when the simulation begins, in Unix time.
const UNIX_START: u64 = 946_684_800;

const CLOCK_REALTIME: u32 = 0;

const CLOCK_MONOTONIC: u32 = 1;

impl Clock {
    /// What a clock tells: 0 Unix time, 1 the time since the simulation began. There are no others.
    pub fn at(clock: u32, now: Time) -> Option<Moment>
        ensures { result ≡ clock_at clock now.nanos }
    {
        let seconds = now.nanos / NANOS_IN_A_SECOND;
        let nanos = (now.nanos % NANOS_IN_A_SECOND) as u32;
        match clock {
            CLOCK_REALTIME => Some(Moment {
                seconds: UNIX_START + seconds,
                nanos,
            }),
            CLOCK_MONOTONIC => Some(Moment { seconds, nanos }),
            _ => None,
        }
    }
}
