//! A lane of packets that wait for tokens (this project's own profile).

ghost use Rattle.std.specs.Prelude.{◌≡◌, ◌/◌, ◌<◌, ◌≤◌, ◌↔◌, [], length, option_map, slice_get, IfOk, OnOk, IfSome, OnSome, IsTrue};
ghost use Rattle.sim_base.specs.Packet.{packet_size};
ghost use Rattle.sim_base.specs.Units.{millisecond, latest_time};
ghost use Rattle.net_iface.specs.Lane.{empty_lane, waiting_size, pushed, pushed_first, waits_in, treated, next_due, released};
ghost use Rattle.net_iface.specs.inside.Lane.{popped, front_taken};

use crate::bucket::Bucket;
use crate::codel::{CodelState, LARGEST};
use sim_base::{NoMemory, Packet, Time};
use std::alloc::Global;
use std::collections::VecDeque;
use std::marker::Model;

/// How many packets may wait in a lane.
pub const WAITING: usize = 1000;

/// The rule by which a lane treats the packets that it takes.
#[derive(Clone, Copy)]
pub enum QueueRule {
    /// Each packet leaves.
    Fifo,
    /// Some are dropped, by RFC 8289.
    Codel,
}

/// What became of a packet.
#[derive(Drop)]
pub enum Pushed {
    /// It leaves at once.
    Leaves(Packet),
    /// It waits, and a release is to be made at this time, if it is the first to wait.
    Waits(Option<Time>),
    /// 1,000 packets wait already.
    Dropped(Packet),
}

/// The packets that leave, those that the queue's rule dropped before, and when the next release is
/// to be made, if any packet still waits.
#[derive(Drop)]
pub struct Released {
    pub packets: Vec<Packet>,
    pub dropped: Vec<Packet>,
    pub next: Option<Time>,
}

/// A packet that waits, and since when it does.
#[derive(Drop)]
pub struct Waiting {
    pub packet: Packet,
    pub since: Time,
}

/// A packet that was taken out of a lane, and whether the rule dropped it.
#[derive(Drop)]
pub struct Taken {
    pub packet: Packet,
    pub dropped: bool,
}

/// A lane that is first in, first out, and drops at its tail; one with CoDel also drops some of the
/// packets that it takes.
#[derive(Drop)]
pub struct Lane {
    rule: QueueRule,
    codel: CodelState,
    bucket: Bucket,
    waiting: VecDeque<Waiting>,
    bytes: u64,
}

impl Model for Lane {
    ghost use Rattle.net_iface.specs.Lane.{LaneState, IsLane};

    ghost Value = { LaneState };

    ghost view = { λ l. record { rule = l.rule; codel = l.codel; bucket = l.bucket; waiting = l.waiting.items } };

    ghost invariant = { λ l. IsLane l.waiting.items l.bytes };
}

impl Lane {
    /// An empty lane with a full bucket at time 0, for a rate in bits a second.
    pub fn new(alloc: Global, bits: u64, rule: QueueRule) -> Lane
        ensures { result ≡ empty_lane bits rule }
    {
        Lane {
            rule,
            codel: CodelState::new(),
            bucket: Bucket::new(bits),
            waiting: VecDeque::new(alloc),
            bytes: 0,
        }
    }

    /// How many packets wait.
    pub fn len(&self) -> usize
        ensures { result ≡ length self.now.waiting }
    {
        self.waiting.len()
    }

    pub fn is_empty(&self) -> bool
        ensures { IsTrue result ↔ (self.now.waiting ≡ []) }
    {
        self.waiting.is_empty()
    }

    /// A packet arrives at the lane. After want of memory nothing is known of the lane but its time.
    pub fn push(&mut self, now: Time, packet: Packet) -> Result<Pushed, NoMemory>
        requires time { self.old.bucket.millis ≤ now.nanos / millisecond }
        requires early { now.nanos ≤ latest_time }
        requires size { packet_size packet ≤ LARGEST }
        ensures pushed { IfOk result (λ answer. (answer, self.new) ≡ pushed now packet self.old) }
        ensures time { self.new.bucket.millis ≡ now.nanos / millisecond }
    {
        self.bucket.at(now);
        if self.waiting.is_empty() {
            return self.push_first(now, packet);
        }
        if self.waiting.len() >= WAITING {
            return Ok(Pushed::Dropped(packet));
        }
        self.wait(now, packet)?;
        Ok(Pushed::Waits(None))
    }

    /// A packet arrives at an empty lane.
    fn push_first(&mut self, now: Time, packet: Packet) -> Result<Pushed, NoMemory>
        requires early { now.nanos ≤ latest_time }
        requires size { packet_size packet ≤ LARGEST }
        requires empty { self.old.waiting ≡ [] }
        ensures pushed { IfOk result (λ answer. (answer, self.new) ≡ pushed_first now packet self.old) }
        ensures time { self.new.bucket.millis ≡ self.old.bucket.millis }
    {
        let size = packet.size();
        if self.bucket.spend(size) {
            let _ = self.treats(now, now, 0);
            return Ok(Pushed::Leaves(packet));
        }
        let due = self.bucket.due_with(size);
        self.wait(now, packet)?;
        Ok(Pushed::Waits(Some(due)))
    }

    /// A packet waits behind those that do.
    fn wait(&mut self, now: Time, packet: Packet) -> Result<(), NoMemory>
        requires size { packet_size packet ≤ LARGEST }
        requires room { length self.old.waiting < WAITING }
        ensures waits { OnOk result (self.new ≡ waits_in now packet self.old) }
        ensures time { self.new.bucket.millis ≡ self.old.bucket.millis }
    {
        let size = packet.size();
        self.waiting.push_back(Waiting { packet, since: now })?;
        self.bytes += size;
        Ok(())
    }

    /// Whether a packet that is taken is dropped, by the lane's rule.
    fn treats(&mut self, now: Time, since: Time, left: u64) -> bool
        requires { now.nanos ≤ latest_time }
        ensures treated { (result, self.new.codel) ≡ treated self.old.rule now since left self.old.codel }
        ensures rest { self.new ≡ record self.old { codel = self.new.codel } }
    {
        match self.rule {
            QueueRule::Fifo => false,
            QueueRule::Codel => self.codel.drops(now, since, left),
        }
    }

    /// Takes the packets that can be taken. After want of memory nothing is known of the lane but its
    /// time.
    pub fn release(&mut self, now: Time) -> Result<Released, NoMemory>
        requires time { self.old.bucket.millis ≤ now.nanos / millisecond }
        requires early { now.nanos ≤ latest_time }
        ensures released { IfOk result (λ answer. record { packets = answer.packets.items; dropped = answer.dropped.items; next = answer.next; lane = self.new } ≡ released now self.old) }
        ensures time { self.new.bucket.millis ≡ now.nanos / millisecond }
    {
        self.bucket.at(now);
        let mut packets = Vec::new(*self.waiting.allocator());
        let mut dropped = Vec::new(*self.waiting.allocator());
        while let Some(taken) = self.take_front(now) {
            if taken.dropped {
                dropped.push(taken.packet)?;
            } else {
                packets.push(taken.packet)?;
            }
        }
        let next = self.next_due();
        Ok(Released {
            packets,
            dropped,
            next,
        })
    }

    /// The size of the front, if there is one.
    fn front_size(&self) -> Option<u64>
        ensures size { result ≡ option_map waiting_size (slice_get self.now.waiting 0) }
        ensures fits { IfSome result (λ size. size ≤ LARGEST) }
    {
        Some(self.waiting.front()?.packet.size())
    }

    /// Takes the front, if there is a front and there are tokens for it.
    fn take_front(&mut self, now: Time) -> Option<Taken>
        requires { now.nanos ≤ latest_time }
        ensures taken { (result, self.new) ≡ front_taken now self.old self.old.waiting }
        ensures time { self.new.bucket.millis ≡ self.old.bucket.millis }
        ensures fewer { OnSome result (length self.new.waiting < length self.old.waiting) }
    {
        let size = self.front_size()?;
        if !self.bucket.holds(size) {
            return None;
        }
        let front = self.pop_front()?;
        let dropped = self.treats(now, front.since, self.bytes);
        self.bucket.pay(dropped, size);
        Some(Taken {
            packet: front.packet,
            dropped,
        })
    }

    /// Takes the front out, if there is one.
    fn pop_front(&mut self) -> Option<Waiting>
        ensures { (result, self.new) ≡ popped self.old self.old.waiting }
    {
        let size = self.front_size()?;
        self.bytes -= size;
        self.waiting.pop_front()
    }

    /// When the front can leave, if there is one.
    fn next_due(&self) -> Option<Time>
        ensures { result ≡ next_due self.now }
    {
        let size = self.front_size()?;
        Some(self.bucket.due_with(size))
    }
}
