//! ppoll.

ghost use Rattle.std.specs.Prelude.{◌≡◌, ◌*◌, ◌≤◌, length, Ok, Err, IfOk};
ghost use Rattle.sim_base.specs.Units.{latest_time};
ghost use Rattle.host_calls.specs.inside.Stage.{Reacts, Sees, SeesPlan, CanDo};
ghost use Rattle.call_parts.specs.Polling.{entry_size, max_entries};
ghost use Rattle.host_calls.specs.Polling as spec;
ghost use Rattle.host_calls.specs.declared.plan.Plan.TheVariants as plan;

use crate::parts::Reaction;
use crate::plan::Plan;
use crate::stage::{Stage, View};
use call_parts::{
    asked_events, asked_fd, count_one, entry_at, has_come, poll_deadline, poll_entries, with_events,
};
use file_calls::look_up;
use guest_args::fill;
use host_wants::{CallError, Refusal};
use sim_base::{Errno, NoMemory, POLLERR, POLLHUP, POLLNVAL};
use std::alloc::Global;

/// The most entries.
const MOST: u32 = 256;

/// So many entries are read into a small buffer, since a buffer is cleared whole.
const FEW: u32 = 8;

/// The entries of a poll, and how many of them tell of something.
#[derive(Clone, Copy)]
pub struct PollPlan {
    pub at: u32,
    pub count: u32,
    pub found: u32,
}

impl View<'_> {
    /// What is told of a descriptor of which events are asked for.
    fn told(&self, fd: u32, events: u16) -> u16
        requires { self.now.time.nanos ≤ latest_time }
        ensures { Sees (λ s. spec.events_at self.now.time s fd events) self.now result }
    {
        if fd >= 1 << 31 {
            return 0;
        }
        match look_up(fd, self.task, &self.shared.files) {
            Ok(d) => self.readiness(d.file.object) & (events | (POLLERR + POLLHUP)),
            Err(_) => POLLNVAL,
        }
    }

    /// The events of an entry that came.
    fn came(&self, entry: [u8; 8]) -> u16
        requires { self.now.time.nanos ≤ latest_time }
        ensures { Sees (λ s. spec.came self.now.time s entry) self.now result }
    {
        self.told(asked_fd(entry), asked_events(entry))
    }

    /// An entry with the events that came.
    fn told_entry(&self, entry: [u8; 8]) -> [u8; 8]
        requires { self.now.time.nanos ≤ latest_time }
        ensures { Sees (λ s. spec.told_entry self.now.time s entry) self.now result }
    {
        with_events(entry, self.came(entry))
    }

    /// How many entries tell of something.
    #[tactic(auto, using(crate::proofs::Entries::steps))]
    fn count_told(&self, count: usize, entries: &[u8]) -> u32
        requires time { self.now.time.nanos ≤ latest_time }
        requires count { count ≤ max_entries }
        requires length { length entries.now ≡ entry_size * count }
        ensures { Sees (λ s. spec.count_told self.now.time s count entries.now) self.now result }
    {
        let mut found = 0;
        for place in 0..count {
            let entry = entry_at(entries, place);
            found += count_one(self.came(entry));
        }
        found
    }

    /// The entries with the events that came.
    #[tactic(auto, using(crate::proofs::Entries::steps))]
    fn told_entries(&self, alloc: Global, count: usize, entries: &[u8]) -> Result<Vec<u8>, NoMemory>
        requires time { self.now.time.nanos ≤ latest_time }
        requires count { count ≤ max_entries }
        requires length { length entries.now ≡ entry_size * count }
        ensures { IfOk result (λ bytes. Sees (λ s. spec.told_entries self.now.time s count entries.now) self.now bytes.items) }
    {
        let mut bytes = Vec::new(alloc);
        for place in 0..count {
            let entry = entry_at(entries, place);
            bytes.extend_from_slice(&self.told_entry(entry))?;
        }
        Ok(bytes)
    }

    /// How many entries tell of something, unless the call waits for one that does.
    fn poll_found(&self, count: usize, limit_at: u32, entries: &[u8]) -> Result<u32, Refusal>
        requires time { self.now.time.nanos ≤ latest_time }
        requires count { count ≤ max_entries }
        requires length { length entries.now ≡ entry_size * count }
        ensures { Sees (spec.poll_found self.now.time count limit_at entries.now) self.now result }
    {
        let now = self.time;
        let deadline = poll_deadline(now, limit_at, self.task)?;
        let found = self.count_told(count, entries);
        if found == 0 && !has_come(now, deadline) {
            return Err(Refusal::Wait(deadline));
        }
        Ok(found)
    }

    /// What refuses a poll, and whether it waits.
    pub(crate) fn poll_plan(&self, at: u32, count: u32, limit_at: u32) -> Result<Plan, Refusal>
        requires { self.now.time.nanos ≤ latest_time }
        ensures asked { SeesPlan plan.Poll (spec.poll_plan self.now.time at count limit_at) self.now result }
        ensures fits { CanDo result self.now }
    {
        if count > MOST {
            return Err(Refusal::Errno(Errno::Einval));
        }
        if count > FEW {
            let mut entries = [0; 2048];
            return self.plan_over(at, count, limit_at, &mut entries[..8 * count as usize]);
        }
        let mut entries = [0; 64];
        self.plan_over(at, count, limit_at, &mut entries[..8 * count as usize])
    }

    /// The same, where the entries are read into this room.
    fn plan_over(
        &self,
        at: u32,
        count: u32,
        limit_at: u32,
        entries: &mut [u8],
    ) -> Result<Plan, Refusal>
        requires time { self.now.time.nanos ≤ latest_time }
        requires count { count ≤ max_entries }
        requires length { length entries.old ≡ entry_size * count }
        ensures asked { SeesPlan plan.Poll (spec.poll_plan self.now.time at count limit_at) self.now result }
        ensures fits { CanDo result self.now }
    {
        poll_entries(at, entries, &self.task.memory)?;
        let found = self.poll_found(count as usize, limit_at, entries)?;
        Ok(Plan::Poll(PollPlan { at, count, found }))
    }
}

impl Stage<'_> {
    /// `ppoll(2)`.
    pub(crate) fn ppoll(&mut self, polling: PollPlan) -> Result<Reaction, CallError>
        requires time { self.old.time.nanos ≤ latest_time }
        requires count { polling.count ≤ max_entries }
        ensures { Reacts (spec.polls self.old.time polling) self.old self.new result }
    {
        if polling.count > FEW {
            let mut entries = [0; 2048];
            return self.tell_over(polling, &mut entries[..8 * polling.count as usize]);
        }
        let mut entries = [0; 64];
        self.tell_over(polling, &mut entries[..8 * polling.count as usize])
    }

    /// The same, where the entries are read into this room.
    fn tell_over(&mut self, polling: PollPlan, entries: &mut [u8]) -> Result<Reaction, CallError>
        requires time { self.old.time.nanos ≤ latest_time }
        requires count { polling.count ≤ max_entries }
        requires length { length entries.old ≡ entry_size * polling.count }
        ensures { Reacts (spec.polls self.old.time polling) self.old self.new result }
    {
        let PollPlan { at, count, found } = polling;
        let count = count as usize;
        poll_entries(at, entries, &self.task.memory)?;
        let alloc = self.shared.files.allocator();
        let bytes = self.view().told_entries(alloc, count, entries)?;
        fill(&mut self.task.memory, at, bytes.as_slice());
        Ok(Reaction::Value(found))
    }
}
