//! Timers.

ghost use Rattle.std.specs.Prelude.{◌≡◌, ◌≤◌, option_map};
ghost use Rattle.sim_base.specs.Units.{latest_time, longest_wait};
ghost use Rattle.host_timers.specs.Timer as spec;

use sim_base::Time;
use std::marker::Model;

/// A timer (`timerfd_create(2)`), by simulated time.
///
/// Contracts see it as its first expiry (0: off), the interval between later ones (0: none), and how many of its
/// expiries were read.
#[derive(Drop)]
pub struct Timer {
    first: u64,
    interval: u64,
    taken: u64,
}

impl Model for Timer {
    ghost use Rattle.std.specs.Prelude.{◌≤◌};
    ghost use Rattle.sim_base.specs.Units.{longest_wait};
    ghost use Rattle.host_timers.specs.Timer.{TimerState, timer_code};

    ghost Value = { TimerState };

    ghost coded = { timer_code };

    ghost view = { λ t. record { first = t.first; interval = t.interval; taken = t.taken } };

    ghost invariant = { λ t. (t.first ≤ longest_wait) × (t.interval ≤ longest_wait) };
}

impl Timer {
    /// A timer that is off.
    pub fn new() -> Timer
        ensures { result ≡ spec.off }
    {
        Timer {
            first: 0,
            interval: 0,
            taken: 0,
        }
    }

    /// Sets the first expiry, 0 for off, and the interval. A first expiry that has passed counts as the next
    /// nanosecond. Nothing of the new expiries was read.
    pub fn set(&mut self, now: Time, first: Time, interval: Time)
        requires now { now.nanos ≤ latest_time }
        requires first { first.nanos ≤ longest_wait }
        requires interval { interval.nanos ≤ longest_wait }
        ensures { self.new ≡ spec.set now.nanos first.nanos interval.nanos }
    {
        self.first = if first.nanos == 0 {
            0
        } else {
            first.nanos.max(now.nanos + 1)
        };
        self.interval = interval.nanos;
        self.taken = 0;
    }

    /// The interval as it was set, also where the timer is off.
    pub fn interval(&self) -> Time
        ensures { result.nanos ≡ self.now.interval }
    {
        Time {
            nanos: self.interval,
        }
    }

    /// The number of expiries at or before `now`, whether a read has taken them or not.
    pub fn expired(&self, now: Time) -> u64
        requires { now.nanos ≤ latest_time }
        ensures { result ≡ spec.expired self.now now.nanos }
    {
        if self.first == 0 || now.nanos < self.first {
            0
        } else if self.interval == 0 {
            1
        } else {
            (now.nanos - self.first) / self.interval + 1
        }
    }

    /// The number of expiries at or before `now` that no read has taken.
    pub fn count(&self, now: Time) -> u64
        requires { now.nanos ≤ latest_time }
        ensures { result ≡ spec.count self.now now.nanos }
    {
        self.expired(now).saturating_sub(self.taken)
    }

    /// Takes the expiries at or before `now` that no read has taken, and answers how many they are.
    pub fn read(&mut self, now: Time) -> u64
        requires { now.nanos ≤ latest_time }
        ensures count { result ≡ spec.count self.old now.nanos }
        ensures taken { self.new ≡ spec.read self.old now.nanos }
    {
        let expired = self.expired(now);
        let count = expired.saturating_sub(self.taken);
        self.taken = self.taken.max(expired);
        count
    }

    /// The first expiry after `now`.
    pub fn next_due(&self, now: Time) -> Option<Time>
        requires { now.nanos ≤ latest_time }
        ensures { option_map (λ due. due.nanos) result ≡ spec.next_due self.now now.nanos }
    {
        if self.first == 0 {
            return None;
        }
        if now.nanos < self.first {
            return Some(Time { nanos: self.first });
        }
        if self.interval == 0 {
            return None;
        }
        let number = self.expired(now);
        Some(Time {
            nanos: self.first + number * self.interval,
        })
    }
}
