//! The world goes on, round by round.
ghost use Rattle.std.specs.Prelude.{◌≡◌, ◌≤◌, ◌<◌, ◌↔◌, true, false, Some, All, Any, IfOk, flat_map};
ghost use Rattle.sim_base.specs.Limits.{most_workers};
ghost use Rattle.event_order.specs.Events.{IsLeastDue};
ghost use Rattle.round_lookahead.specs.Gains.{HasRound};
ghost use Rattle.round_lookahead.specs.inside.Gains.{HasGained};
ghost use Rattle.round_lookahead.specs.Tasks.{waiting};
ghost use Rattle.round_lookahead.specs.WorldStands.{HostWorld, WorldStands};

use crate::workers::busy::{busy_count, most_threads};
use crate::workers::round::{RoundLeft, run_beside};
use crate::world::due::least_due;
use crate::world::gained::Gained;
use crate::world::load::{load_since, works_of};
use crate::world::pieces::Pieces;
use crate::world::settling::{Settled, settle};
use crate::world::settling_in_place::{RanInPlace, round_in_place};
use crate::world::world_state::World;
use round_parts::Spread;
use run_files::round_pieces;
use sim_base::{NoMemory, Time};
use std::alloc::Global;
use std::mem;
use std::thread::Threads;
use steal_workers::Gate;

impl World {
    /// When the next event is due; none where there is no event.
    pub(crate) fn next_due(&self) -> Option<Time>
        ensures { IsLeastDue (flat_map waiting self.now.tasks.items) result }
    {
        self.due
    }

    /// Whether no event is due before the net's stop.
    pub fn finished(&self) -> bool
        ensures finished { (result ≡ true) ↔ All (λ event. self.now.net.stop.nanos ≤ event.key.due.nanos) (flat_map waiting self.now.tasks.items) }
        ensures unfinished { (result ≡ false) ↔ Any (λ event. event.key.due.nanos < self.now.net.stop.nanos) (flat_map waiting self.now.tasks.items) }
    {
        match self.next_due() {
            None => true,
            Some(due) => self.net.is_over(due),
        }
    }

    /// About what all rounds had to do so far, as a number of instructions of guests. No clause speaks of it: it is for estimates.
    pub fn work(&self) -> u64 {
        self.load.all()
    }

    /// How the round up to the end is run by so many workers: in as many threads as it is worth, and no more than could run it. Where
    /// it can't be worth any by what the last rounds had to do, no host is looked at.
    fn spread(&self, end: Time, workers: u32) -> Spread
        requires { 0 < workers }
        ensures { (0 < result.threads) × (result.threads ≤ workers) }
    {
        if workers < 2 || !self.load.may_spread() {
            return Spread::alone();
        }
        let busy = busy_count(self.tasks.as_slice(), end);
        self.load
            .spread(most_threads(busy, workers), self.tasks.len(), busy)
    }

    /// The round whose least event is due at `least`.
    pub(crate) fn advance<R: Threads + Sync, G: Gate + Sync>(
        &mut self,
        rt: &R,
        alloc: Global,
        least: Time,
        workers: u32,
        gate: &G,
    ) -> Result<Gained, NoMemory>
        requires stands { (w : HostWorld) × WorldStands self.old w }
        requires least { IsLeastDue (flat_map waiting self.old.tasks.items) (Some least) }
        requires workers { (0 < workers) × (workers ≤ most_workers) }
        ensures net { self.new.net ≡ self.old.net }
        ensures lookahead { self.new.lookahead ≡ self.old.lookahead }
        ensures listing { self.new.listing ≡ self.old.listing }
        ensures turns { IfOk result (λ gained. (w : HostWorld) → WorldStands self.old w → (v : HostWorld) × HasGained self.old self.new workers w v gained) }
    {
        let window = self.net.window(least, self.lookahead);
        let spread = self.spread(window.end, workers);
        let count = self.tasks.len();
        let mut tasks = mem::replace(&mut self.tasks, Vec::new(alloc));
        self.due = None;
        if spread.threads < 2 || spread.share.is_some() {
            let RanInPlace { gained, due, load } = round_in_place(
                rt, alloc, &self.net, window.end, &mut tasks, workers, spread, gate,
            )?;
            self.tasks = tasks;
            self.due = due;
            gained.count_into(&mut self.counts);
            self.load.note(load);
            return Ok(gained);
        }
        let before = works_of(alloc, tasks.as_slice())?;
        let RoundLeft { works, rows } = run_beside(
            rt,
            alloc,
            &self.net,
            window.end,
            tasks,
            workers,
            spread.threads,
            gate,
        )?;
        let Settled { tasks, gained } = settle(alloc, count, works, rows)?;
        self.tasks = tasks;
        self.due = least_due(self.tasks.as_slice());
        gained.count_into(&mut self.counts);
        self.load
            .note(load_since(self.tasks.as_slice(), before.as_slice()));
        Ok(gained)
    }

    /// Runs a round: all hosts are run up to the end of the window that begins with the next event,
    /// by so many workers side by side, each of which tells the gate before it runs a host; where what
    /// the last rounds had to do isn't worth threads, all are run by the first worker, each in its place.
    /// The world then stands for the one after all turns that are due before that end. Fails for want of
    /// memory alone; the world isn't used after that.
    pub fn round<R: Threads + Sync, G: Gate + Sync>(
        &mut self,
        rt: &R,
        alloc: Global,
        workers: u32,
        gate: &G,
    ) -> Result<Pieces, NoMemory>
        requires stands { (w : HostWorld) × WorldStands self.old w }
        requires unfinished { Any (λ event. event.key.due.nanos < self.old.net.stop.nanos) (flat_map waiting self.old.tasks.items) }
        requires workers { (0 < workers) × (workers ≤ most_workers) }
        ensures net { self.new.net ≡ self.old.net }
        ensures lookahead { self.new.lookahead ≡ self.old.lookahead }
        ensures listing { self.new.listing ≡ self.old.listing }
        ensures round { IfOk result (λ pieces. (w : HostWorld) → WorldStands self.old w → (v : HostWorld) × HasRound self.old self.new workers w v pieces) }
    {
        let Some(least) = self.next_due() else {
            unreachable!()
        };
        let Gained {
            outputs,
            lines,
            took,
        } = self.advance(rt, alloc, least, workers, gate)?;
        let threads = took.threads(lines.len());
        let files = round_pieces(rt, alloc, &self.listing, &outputs, lines, threads)?;
        Ok(Pieces { files, took })
    }
}
