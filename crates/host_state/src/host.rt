//! What a host is.

ghost use Rattle.std.specs.Prelude.{◌≡◌, ◌≤◌, ◌<◌, ◌∷◌, [], false, length, option_map, slice_get, IfOk, IfErr, IfSome, IfNone, OnOk, OnErr, All};
ghost use Rattle.sim_base.specs.Limits.{most_processes};
ghost use Rattle.sim_base.specs.Units.{latest_time};
ghost use Rattle.event_order.specs.Events.{IsBefore, IsLeastDue, IsOrdered, has_key, with_event};
ghost use Rattle.host_state.specs.HostRecord.{HostRecord, process_state};
ghost use Rattle.host_state.specs.HostStands.{Stands, Fires, Begins, IsSameBody};

use event_order::{Queue, Refused};
use guest_process::{Process, not_started};
use host_calls::Parts;
use host_draws::Seeds;
use host_link::{Link, Net, Outbox, hand_made_on};
use host_rows::Row;
use sim_base::{Event, NoMemory, State, Time};

/// A host without the events that it holds. Its work is about what it had to do so far, as a number of instructions: no clause
/// speaks of it.
#[derive(Drop)]
pub(crate) struct Body {
    pub(crate) row: Row,
    pub(crate) link: Link,
    pub(crate) processes: Vec<Process>,
    pub(crate) parts: Parts,
    pub(crate) work: u64,
}

/// A host, with the events that it holds.
pub struct Host {
    pub(crate) body: Body,
    pub(crate) queue: Queue,
}

/// By hand: a derived one would be proved anew in each crate that drops such a value.
impl Drop for Host {
    fn drop(self) {
        let Host { body, queue } = self;
        drop(body);
        drop(queue);
    }
}

impl Host {
    /// The host of a row at the beginning, which holds the events that start and shut down its
    /// processes. Its generator is taken from these seeds, whichever host they were asked for last.
    pub fn new(row: Row, net: &Net, seeds: &mut Seeds) -> Result<Host, NoMemory>
        requires { length row.processes ≤ most_processes }
        ensures { IfOk result (Begins row) }
    {
        let alloc = *net.nodes.allocator();
        let count = row.processes.as_slice().len();
        let processes = not_started(alloc, count)?;
        let draws = seeds.draws(row.seed, row.host.index);
        let parts = Parts::new(alloc, row.address, draws, count)?;
        let mut link = Link::new(alloc, &row);
        let queue = link.begin(alloc, row.processes.as_slice())?;
        let body = Body {
            row,
            link,
            processes,
            parts,
            work: 0,
        };
        Ok(Host { body, queue })
    }

    /// An event fires at the host, which then holds what it made for itself. Packets for other hosts,
    /// lines of the log and what processes write are added to `out`.
    pub fn fire(&mut self, net: &Net, event: Event, out: &mut Outbox) -> Result<(), NoMemory>
        requires stop { net.now.stop.nanos ≤ latest_time }
        requires before { event.key.due.nanos < net.now.stop.nanos }
        ensures { OnOk result ((h : HostRecord) → Stands self.old h → h.link.time.nanos ≤ event.key.due.nanos → Fires net.now event h self.old self.new out.old out.new) }
    {
        let key = event.key;
        let number = self.body.link.number();
        let made = self.body.fire(net, event)?;
        hand_made_on(&mut self.queue, out, net, number, key, made)
    }

    /// The host holds one more event, whose key it does not hold, or gives it back for want of memory.
    pub fn add(&mut self, event: Event) -> Result<(), Refused>
        requires { has_key event.key self.old.queue ≡ false }
        ensures ok { OnOk result (self.new.queue ≡ with_event event self.old.queue) }
        ensures given_back { IfErr result (λ refused. refused.event ≡ event) }
        ensures err { OnErr result (self.new.queue ≡ self.old.queue) }
        ensures body { IsSameBody self.old self.new }
    {
        self.queue.add(event)
    }

    /// Takes out the event of least key that the host holds. It holds them in order.
    pub fn take_least(&mut self) -> Option<Event>
        ensures ordered { IsOrdered self.old.queue }
        ensures taken { IfSome result (λ event. self.old.queue ≡ event ∷ self.new.queue) }
        ensures least { IfSome result (λ event. All (IsBefore event) self.new.queue) }
        ensures none { IfNone result (self.old.queue ≡ []) }
        ensures unchanged { IfNone result (self.new.queue ≡ self.old.queue) }
        ensures body { IsSameBody self.old self.new }
    {
        self.queue.take_least()
    }

    /// When the event of least key that the host holds is due; none where it holds no event.
    pub fn next_due(&self) -> Option<Time>
        ensures first { result ≡ option_map (λ event. event.key.due) (slice_get self.now.queue 0) }
        ensures least { IsLeastDue self.now.queue result }
    {
        self.queue.least_due()
    }

    /// About what the host had to do so far, as a number of instructions of guests. No clause speaks of it: it is for estimates
    /// of what is to come.
    pub fn work(&self) -> u64 {
        self.body.work
    }

    /// The row that it was made of.
    pub fn row(&self) -> &Row
        ensures { (h : HostRecord) → Stands self.now h → result.now ≡ h.row }
    {
        &self.body.row
    }

    /// The state of a process; where there is none, it has not started.
    pub fn state(&self, process: u32) -> State
        ensures { (h : HostRecord) → Stands self.now h → result ≡ process_state process h }
    {
        match self.body.processes.get(process as usize) {
            Some(process) => process.state(),
            None => State::NotStarted,
        }
    }
}
