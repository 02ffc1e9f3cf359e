//! Times.

ghost use Rattle.std.specs.Prelude.{◌≡◌, ◌+◌, ◌*◌, ◌≤◌, ◌<◌, ◌^◌, min, length};
ghost use Rattle.sim_base.specs.Units.{latest_time};
ghost use Rattle.guest_args.specs.Time as spec;

use host_timers::Moment;
use sim_base::Time;

const NANOS_IN_A_SECOND: u64 = 1_000_000_000;

/// 2000-01-01 00:00:00 UTC, when the simulation begins, in Unix time.
const UNIX_START: u64 = 946_684_800;

/// What a later moment and a longer span count as.
const LIMIT: u64 = 1 << 62;

/// What a longer span counts as before it is shortened, and a number of seconds that are longer.
const LONGEST: u64 = 1 << 63;

const LONG: u64 = 9_223_372_037;

/// The word of 64 bits at a place, low byte first.
fn word_at(bytes: &[u8], place: usize) -> u64
    requires { place + 8 ≤ length bytes.now }
    ensures { result ≡ spec.word_at place bytes.now }
{
    let mut word = [0; 8];
    word.copy_from_slice(&bytes[place..place + 8]);
    u64::from_le_bytes(word)
}

/// The time at a place. None: its seconds are negative, or its nanoseconds aren't from 0 to
/// 999,999,999.
pub fn timespec(bytes: &[u8], place: usize) -> Option<Moment>
    requires { place + spec.timespec_size ≤ length bytes.now }
    ensures { result ≡ spec.timespec place bytes.now }
{
    moment(word_at(bytes, place), word_at(bytes, place + 8))
}

fn moment(seconds: u64, nanos: u64) -> Option<Moment>
    ensures { result ≡ spec.moment seconds nanos }
{
    if seconds < 1 << 63 && nanos < NANOS_IN_A_SECOND {
        Some(Moment {
            seconds,
            nanos: nanos as u32,
        })
    } else {
        None
    }
}

/// The bytes of a time.
pub fn timespec_of(time: Moment) -> [u8; 16]
    ensures { result ≡ spec.timespec_of time }
{
    let [a, b, c, d, e, f, g, h] = time.seconds.to_le_bytes();
    let [i, j, k, l, m, n, o, p] = u64::from(time.nanos).to_le_bytes();
    [a, b, c, d, e, f, g, h, i, j, k, l, m, n, o, p]
}

/// The nanoseconds in a time, at most 2^63.
fn nanos_in(time: Moment) -> u64
    ensures { result ≡ min (spec.nanos_in time) (2 ^ 63) }
{
    if time.seconds >= LONG {
        LONGEST
    } else {
        (time.seconds * NANOS_IN_A_SECOND + u64::from(time.nanos)).min(LONGEST)
    }
}

/// The nanoseconds in a time, at most 2^62.
pub fn time_span(time: Moment) -> Time
    ensures { result.nanos ≡ spec.time_span time }
{
    Time {
        nanos: nanos_in(time).min(LIMIT),
    }
}

/// The moment that lies a time after now, at most 2^62 ns.
pub fn deadline_after(now: Time, time: Moment) -> Time
    requires { now.nanos ≤ latest_time }
    ensures { result.nanos ≡ spec.deadline_after now.nanos time }
{
    Time {
        nanos: (now.nanos + nanos_in(time)).min(LIMIT),
    }
}

/// The moment at which a clock tells a time, at most 2^62 ns: the clock 0 tells Unix time, and what
/// was before the simulation counts as its beginning.
pub fn deadline_at(clock: u32, time: Moment) -> Time
    ensures { result.nanos ≡ spec.deadline_at clock time }
{
    let start = if clock == 0 {
        UNIX_START * NANOS_IN_A_SECOND
    } else {
        0
    };
    Time {
        nanos: nanos_in(time).saturating_sub(start).min(LIMIT),
    }
}
