//! The link of a host to the network.

ghost use Rattle.std.specs.Prelude.{◌≡◌, ◌≤◌, OnOk, IfOk};
ghost use Rattle.sim_base.specs.Units.{latest_time};
ghost use Rattle.sim_base.specs.Packet.{packet_size};
ghost use Rattle.host_link.specs.Lanes.{pushes_up, pushes_down, releases_up, releases_down, Releases};
ghost use Rattle.host_link.specs.Link.{kind_of, new_link, numbers, makes, later, logs, comes_to, without_made};

use crate::line::Line;
use host_rows::Row;
use net_iface::{Lane, Pushed, QueueRule, Released};
use sim_base::{Act, Event, HostId, Key, Kind, MAX_PACKET, NoMemory, Packet, Time, What};
use std::alloc::Global;
use std::marker::Model;
use std::mem;

/// A host whose next event has this number makes no more.
const LIMIT: u64 = u64::MAX;

/// A host's link: when it fires, its lanes, the number of its next event, and what the event that
/// fires has made so far.
pub struct Link {
    number: u32,
    time: Time,
    next: u64,
    up: Lane,
    down: Lane,
    made: Vec<Event>,
    lines: Vec<Line>,
}

/// By hand: a derived one would be proved anew in each crate that drops such a value.
impl Drop for Link {
    fn drop(self) {
        let Link {
            number: _,
            time: _,
            next: _,
            up,
            down,
            made,
            lines,
        } = self;
        drop(up);
        drop(down);
        drop(made);
        drop(lines);
    }
}

impl Model for Link {
    ghost use Rattle.host_link.specs.Link.{LinkState, IsLink};

    ghost Value = { LinkState };

    ghost view = { λ l. record { number = l.number; time = l.time; next = l.next; up = l.up; down = l.down; made = l.made.items; lines = l.lines.items } };

    ghost invariant = { λ l. IsLink l.up l.down l.time };
}

/// So many nanoseconds later, or the end of time.
pub fn later(now: Time, nanos: u64) -> Time
    ensures { result ≡ later now nanos }
{
    Time {
        nanos: now.nanos.saturating_add(nanos),
    }
}

fn kind_of(what: &What) -> Kind
    ensures { result ≡ kind_of what.now }
{
    match what {
        What::Packet(_) => Kind::Packet,
        _ => Kind::Local,
    }
}

impl Link {
    pub fn new(alloc: Global, row: &Row) -> Link
        ensures { result ≡ new_link row.now }
    {
        Link {
            number: row.host.index,
            time: Time { nanos: 0 },
            next: 0,
            up: Lane::new(alloc, row.bandwidth_up, QueueRule::Fifo),
            down: Lane::new(alloc, row.bandwidth_down, row.router_queue),
            made: Vec::new(alloc),
            lines: Vec::new(alloc),
        }
    }

    pub fn number(&self) -> u32
        ensures { result ≡ self.now.number }
    {
        self.number
    }

    /// When the host fires, or fired last.
    pub fn now(&self) -> Time
        ensures time { result ≡ self.now.time }
        ensures early { result.nanos ≤ latest_time }
    {
        self.time
    }

    /// The host fires at a time, which isn't before that of its last firing.
    pub fn come_to(&mut self, now: Time)
        requires { now.nanos ≤ latest_time }
        ensures { self.old.time.nanos ≤ now.nanos → self.new ≡ comes_to now self.old }
    {
        if self.time.nanos <= now.nanos {
            self.time = now;
        }
    }

    /// The next event, which is due at a time. A host with no number left makes none.
    #[tactic(auto, unfolding(crate::specs::Link::numbers))]
    pub(crate) fn number_event(&mut self, due: Time, what: What) -> Result<(), NoMemory>
        ensures { OnOk result (self.new ≡ numbers due what self.old) }
    {
        if self.next >= LIMIT {
            return Ok(());
        }
        let key = Key {
            due,
            kind: kind_of(&what),
            source: HostId { index: self.number },
            number: self.next,
        };
        self.made.push(Event { key, what })?;
        self.next += 1;
        Ok(())
    }

    /// Makes an event that is due at a time, but at least 1 ns later than now.
    pub fn make(&mut self, due: Time, what: What) -> Result<(), NoMemory>
        ensures { OnOk result (self.new ≡ makes due what self.old) }
    {
        let soonest = self.time.nanos + 1;
        let due = Time {
            nanos: due.nanos.max(soonest),
        };
        self.number_event(due, what)
    }

    /// Logs an act on a packet.
    #[tactic(auto, unfolding(crate::specs::Link::logs))]
    pub fn log(&mut self, act: Act, packet: Packet) -> Result<(), NoMemory>
        ensures { OnOk result (self.new ≡ logs act packet self.old) }
    {
        self.lines.push(Line {
            time: self.time,
            host: HostId { index: self.number },
            act,
            packet,
        })?;
        Ok(())
    }

    /// A packet comes to the lane to the network.
    pub(crate) fn push_up(&mut self, packet: Packet) -> Result<Pushed, NoMemory>
        requires { packet_size packet ≤ MAX_PACKET }
        ensures { IfOk result (λ pushed. (pushed, self.new) ≡ pushes_up packet self.old) }
    {
        self.up.push(self.time, packet)
    }

    /// A packet comes to the router's lane.
    pub fn push_down(&mut self, packet: Packet) -> Result<Pushed, NoMemory>
        requires { packet_size packet ≤ MAX_PACKET }
        ensures { IfOk result (λ pushed. (pushed, self.new) ≡ pushes_down packet self.old) }
    {
        self.down.push(self.time, packet)
    }

    /// The lane to the network releases what it can.
    pub(crate) fn release_up(&mut self) -> Result<Released, NoMemory>
        ensures { IfOk result (λ answer. Releases answer self.new (releases_up self.old)) }
    {
        self.up.release(self.time)
    }

    /// The router's lane releases what it can.
    pub fn release_down(&mut self) -> Result<Released, NoMemory>
        ensures { IfOk result (λ answer. Releases answer self.new (releases_down self.old)) }
    {
        self.down.release(self.time)
    }

    /// Takes the events that were made and the lines of the log.
    pub fn hand_out(&mut self) -> (Vec<Event>, Vec<Line>)
        ensures made { result.0.items ≡ self.old.made }
        ensures lines { result.1.items ≡ self.old.lines }
        ensures rest { self.new ≡ without_made self.old }
    {
        let alloc = *self.made.allocator();
        let made = mem::replace(&mut self.made, Vec::new(alloc));
        let lines = mem::replace(&mut self.lines, Vec::new(alloc));
        (made, lines)
    }
}
