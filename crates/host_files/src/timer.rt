//! Timers with a descriptor.

ghost use Rattle.std.specs.Prelude.{◌≡◌, ◌≤◌};
ghost use Rattle.sim_base.specs.Units.{latest_time};
ghost use Rattle.host_files.specs.Files.{expiries, timer_rises};

use host_fds::Rises;
use host_timers::Timer;
use sim_base::Time;

/// A timer (`timerfd_create(2)`), the clock by which its absolute times count, the serial of its
/// alarm, and how often it expired before it was last set.
#[derive(Drop)]
pub struct KeptTimer {
    pub timer: Timer,
    pub clock: u32,
    pub serial: u64,
    pub earlier: u64,
}

impl KeptTimer {
    /// How often it expired so far.
    pub(crate) fn expiries(&self, now: Time) -> u64
        requires { now.nanos ≤ latest_time }
        ensures { result ≡ expiries now.nanos self.now }
    {
        self.earlier.saturating_add(self.timer.expired(now))
    }

    /// How often it became ready: all its expiries count, whether a read has taken them or not.
    pub fn rises(&self, now: Time) -> Rises
        requires { now.nanos ≤ latest_time }
        ensures { result ≡ timer_rises now.nanos self.now }
    {
        Rises {
            input: self.expiries(now),
            ..Rises::none()
        }
    }
}
