//! The queue rule CoDel, a packet at a time (after RFC 8289; the rounding is this project's own
//! profile).

ghost use Rattle.std.specs.Prelude.{◌≡◌, ◌+◌, ◌*◌, ◌<◌, ◌≤◌};
ghost use Rattle.sim_base.specs.Units.{latest_time};
ghost use Rattle.net_iface.specs.Root.{root};
ghost use Rattle.net_iface.specs.Codel.{new_codel, step, restarted, judged, started, drops_on, taken};

use sim_base::{MAX_PACKET, Time};

/// The wait in nanoseconds below which a packet tells of no standing queue, 5 ms (RFC 8289,
/// section 4.3).
pub const TARGET: u64 = 5_000_000;

/// The nanoseconds in which a standing queue must have been seen throughout, 100 ms (RFC 8289,
/// section 4.3).
pub const INTERVAL: u64 = 100_000_000;

/// The bytes of a largest packet: a queue of no more is none (RFC 8289, section 5.2).
pub const LARGEST: u64 = MAX_PACKET as u64;

/// What CoDel keeps of a queue (RFC 8289, section 5.3).
#[derive(Clone, Copy)]
pub struct CodelState {
    /// From when on a packet that waits too long is ripe for a drop (`first_above_time`).
    pub above: Option<Time>,
    /// Whether packets are being dropped (`dropping`).
    pub dropping: bool,
    /// How many packets were dropped since the dropping began, or what it began with (`count`).
    pub count: u64,
    /// The count that the dropping began with (`lastcount`).
    pub last: u64,
    /// When the next packet is to be dropped (`drop_next`).
    pub next: Time,
}

/// The greatest number whose square is at most `n`.
pub fn isqrt(n: u64) -> u32
    ensures square { result * result ≤ n }
    ensures greatest { n < (result + 1) * (result + 1) }
    ensures root { result ≡ root n }
{
    n.isqrt() as u32
}

/// The nanoseconds from one drop to the next, when `count` packets were dropped (`control_law`,
/// RFC 8289, section 5.3).
fn step(count: u64) -> u64
    requires { 1 ≤ count }
    ensures step { result ≡ step count }
    ensures short { result ≤ INTERVAL }
{
    isqrt(INTERVAL * INTERVAL / count) as u64
}

impl CodelState {
    pub fn new() -> CodelState
        ensures { result ≡ new_codel }
    {
        CodelState {
            above: None,
            dropping: false,
            count: 0,
            last: 0,
            next: Time { nanos: 0 },
        }
    }

    /// A packet is taken out of the queue: whether it is dropped. It waited since `since`, and so
    /// many bytes are left waiting behind it.
    pub fn drops(&mut self, now: Time, since: Time, left: u64) -> bool
        requires { now.nanos ≤ latest_time }
        ensures { (result, self.new) ≡ taken now since left self.old }
    {
        if !self.is_ripe(now, since, left) {
            self.dropping = false;
            return false;
        }
        if self.dropping {
            self.drops_on(now)
        } else {
            self.start(now)
        }
    }

    /// Whether a packet is ripe for a drop.
    fn is_ripe(&mut self, now: Time, since: Time, left: u64) -> bool
        requires { now.nanos ≤ latest_time }
        ensures above { (result, self.new.above) ≡ judged now since left self.old.above }
        ensures rest { self.new ≡ record self.old { above = self.new.above } }
    {
        let waited = now.nanos.saturating_sub(since.nanos);
        if waited < TARGET || left <= LARGEST {
            self.above = None;
            return false;
        }
        match self.above {
            Some(time) => time <= now,
            None => {
                self.above = Some(Time {
                    nanos: now.nanos + INTERVAL,
                });
                false
            }
        }
    }

    /// The dropping goes on: whether the packet is dropped.
    fn drops_on(&mut self, now: Time) -> bool
        requires { now.nanos ≤ latest_time }
        ensures { (result, self.new) ≡ drops_on now self.old }
    {
        if now < self.next {
            return false;
        }
        self.count = self.count.saturating_add(1);
        self.next.nanos += step(self.count);
        true
    }

    /// The dropping begins with a packet.
    fn start(&mut self, now: Time) -> bool
        requires { now.nanos ≤ latest_time }
        ensures { (result, self.new) ≡ started now self.old }
    {
        let count = self.restarted(now);
        self.dropping = true;
        self.count = count;
        self.last = count;
        self.next = Time {
            nanos: now.nanos + step(count),
        };
        true
    }

    /// The count that the dropping begins with.
    fn restarted(&self, now: Time) -> u64
        requires { now.nanos ≤ latest_time }
        ensures count { result ≡ restarted now self.now }
        ensures some { 1 ≤ result }
    {
        let dropped = self.count.saturating_sub(self.last);
        let recent = self.next.nanos.saturating_add(16 * INTERVAL);
        if dropped > 1 && now.nanos < recent {
            dropped
        } else {
            1
        }
    }
}
