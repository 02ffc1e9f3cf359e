//! epoll_pwait.

ghost use Rattle.std.specs.Prelude.{◌≤◌, nat_lt, length, map, Some, IfOk, IfSome};
ghost use Rattle.sim_base.specs.Units.{latest_time};
ghost use Rattle.host_sockets.specs.Sockets.{SocketsRecord};
ghost use Rattle.host_sockets.specs.StandsFor.{Stand};
ghost use Rattle.host_files.specs.Epolls.{epoll_at};
ghost use Rattle.host_calls.specs.declared.plan.Plan.TheVariants as plan;
ghost use Rattle.host_calls.specs.Epoll as spec;
ghost use Rattle.host_calls.specs.Ready.{some_due as any_due};
ghost use Rattle.host_calls.specs.inside.Stage.{Reacts, Sees, SeesPlan, CanDo, scene_in};

use crate::parts::Reaction;
use crate::plan::Plan;
use crate::stage::{Stage, View};
use call_parts::{WaitPlan, is_any_seen, put_seen, tell, wait_deadline, wait_place, waits_unless};
use host_fds::{Seen, Watch};
use host_wants::{CallError, Refusal};
use sim_base::NoMemory;
use std::alloc::Global;

impl View<'_> {
    fn has_due(&self, place: usize) -> bool
        requires { self.now.time.nanos ≤ latest_time }
        ensures { Sees (λ s. spec.has_due self.now.time s (epoll_at place s.task.epolls)) self.now result }
    {
        match self.task.epolls.get(place) {
            Some(epoll) => self.some_due(epoll.entries()),
            None => false,
        }
    }

    /// What refuses an `epoll_pwait(2)`, and whether it waits. It takes no memory.
    pub(crate) fn wait_plan(&self, epfd: u32, at: u32, count: u32, ms: u32) -> Result<Plan, Refusal>
        requires { self.now.time.nanos ≤ latest_time }
        ensures asked { SeesPlan plan.EpollWait (spec.wait_plan self.now.time epfd at count ms) self.now result }
        ensures fits { CanDo result self.now }
    {
        let now = self.time;
        let waiting = wait_place(epfd, at, count, self.task, self.shared)?;
        let deadline = wait_deadline(now, ms, self.task);
        waits_unless(now, deadline, self.has_due(waiting.place))?;
        Ok(Plan::EpollWait(waiting))
    }

    /// What a wait has to know of some entries, up to the last that is due: what is seen of those that are due, and nothing
    /// of the others. It takes no memory where none is due.
    fn seen_of(&self, alloc: Global, entries: &[Watch]) -> Result<Vec<Seen>, NoMemory>
        requires { self.now.time.nanos ≤ latest_time }
        ensures alike { IfOk result (λ all. (t : SocketsRecord) → Stand self.now.sockets.now t → spec.TellAlike (Some entries.now) all.items (map (spec.seen_of self.now.time (scene_in self.now t)) entries.now)) }
        ensures due { IfOk result (λ all. Sees (λ s. any_due self.now.time s entries.now) self.now (nat_lt 0 (length all.items))) }
        ensures size { IfOk result (λ all. length all.items ≤ length entries.now) }
    {
        let mut all = Vec::new(alloc);
        for place in 0..entries.len() {
            match self.seen_due(&entries[place]) {
                Some(seen) => put_seen(&mut all, place, seen)?,
                None => {}
            }
        }
        Ok(all)
    }

    fn all_seen(&self, alloc: Global, place: usize) -> Result<Vec<Seen>, NoMemory>
        requires { self.now.time.nanos ≤ latest_time }
        ensures alike { IfOk result (λ all. (t : SocketsRecord) → Stand self.now.sockets.now t → spec.TellAlike (epoll_at place self.now.task.now.epolls) all.items (spec.all_seen self.now.time (scene_in self.now t) (epoll_at place self.now.task.now.epolls))) }
        ensures due { IfOk result (λ all. Sees (λ s. spec.has_due self.now.time s (epoll_at place s.task.epolls)) self.now (nat_lt 0 (length all.items))) }
        ensures size { IfOk result (λ all. IfSome (epoll_at place self.now.task.now.epolls) (λ entries. length all.items ≤ length entries)) }
    {
        match self.task.epolls.get(place) {
            Some(epoll) => self.seen_of(alloc, epoll.entries()),
            None => Ok(Vec::new(alloc)),
        }
    }
}

impl Stage<'_> {
    /// An `epoll_pwait(2)` that was asked what it would do.
    pub(crate) fn epoll_wait(&mut self, waiting: WaitPlan) -> Result<Reaction, CallError>
        requires { self.old.time.nanos ≤ latest_time }
        ensures { Reacts (spec.epoll_waits self.old.time waiting) self.old self.new result }
    {
        let alloc = self.shared.files.allocator();
        let all = self.view().all_seen(alloc, waiting.place)?;
        let found = tell(alloc, waiting, all.as_slice(), self.task)?;
        Ok(Reaction::Value(found))
    }

    /// `epoll_pwait(2)`. It looks at each entry once, to see whether it waits and what it tells.
    pub(crate) fn epoll_pwait(
        &mut self,
        epfd: u32,
        at: u32,
        count: u32,
        ms: u32,
    ) -> Result<Reaction, CallError>
        requires { self.old.time.nanos ≤ latest_time }
        ensures { Reacts (spec.epoll_pwait self.old.time epfd at count ms) self.old self.new result }
    {
        let now = self.time;
        let waiting = wait_place(epfd, at, count, self.task, self.shared)?;
        let deadline = wait_deadline(now, ms, self.task);
        let alloc = self.shared.files.allocator();
        let all = self.view().all_seen(alloc, waiting.place)?;
        waits_unless(now, deadline, is_any_seen(all.as_slice()))?;
        let found = tell(alloc, waiting, all.as_slice(), self.task)?;
        Ok(Reaction::Value(found))
    }
}
