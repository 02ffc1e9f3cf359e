//! Simulated time.

/// A moment or a span of simulated time, in whole nanoseconds. The simulation starts at 0, which
/// stands for 2000-01-01 00:00:00 UTC (this project's own profile).
#[derive(Clone, Copy, PartialEq, Eq, PartialOrd, Ord)]
pub struct Time {
    pub nanos: u64,
}
