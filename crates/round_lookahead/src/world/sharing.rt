//! A round whose hosts are run in their places, in shares.
ghost use Rattle.std.specs.Prelude.{◌≡◌, ◌≤◌, ◌<◌, All, IfOk, OnOk, length};
ghost use Rattle.sim_base.specs.Limits.{most_workers};
ghost use Rattle.sim_base.specs.Units.{latest_time};
ghost use Rattle.round_lookahead.specs.inside.Alone.{task_ids};
ghost use Rattle.round_lookahead.specs.inside.Backs.{lists_of};
ghost use Rattle.round_lookahead.specs.inside.Shares.{AreJoined, AreRunByAll, HasAdded, HasRunShare, HaveRunShares, IsReadyShare, tasks_in};
ghost use Rattle.round_lookahead.specs.Tasks.{AreTasksOf};

use crate::workers::host_task::HostTask;
use crate::world::in_place::{Alone, run_in_place};
use crate::world::share::Share;
use host_link::Net;
use sim_base::{HostId, NoMemory, Time};
use std::alloc::Global;
use std::thread::{Threads, for_each_mut};
use steal_workers::Gate;

/// A worker runs its share.
fn run_share<G: Gate>(
    alloc: Global,
    net: &Net,
    end: Time,
    worker: usize,
    gate: &G,
    share: &mut Share,
)
    requires stop { net.now.stop.nanos ≤ latest_time }
    requires until { end.nanos ≤ net.now.stop.nanos }
    requires worker { worker < most_workers }
    requires ready { IsReadyShare net.now share.old }
    ensures { HasRunShare net.now end.nanos worker share.old share.new }
{
    let number = worker as u32;
    let tasks = share.tasks.as_mut_slice();
    share.made = run_in_place(alloc, net, end, number, tasks, gate).ok();
}

/// All workers run their shares, side by side in so many threads, for which it waits. Where no thread can be made, they come one after
/// another.
fn run_shares<R: Threads + Sync, G: Gate + Sync>(
    rt: &R,
    alloc: Global,
    net: &Net,
    end: Time,
    gate: &G,
    threads: u32,
    shares: &mut Vec<Share>,
)
    requires stop { net.now.stop.nanos ≤ latest_time }
    requires until { end.nanos ≤ net.now.stop.nanos }
    requires threads { 0 < threads }
    requires few { length shares.old.items ≤ most_workers }
    requires ready { All (IsReadyShare net.now) shares.old.items }
    ensures { HaveRunShares net.now end.nanos shares.old.items shares.new.items }
{
    for_each_mut(
        rt,
        shares.as_mut_slice(),
        threads as usize,
        &|worker, share| { run_share(alloc, net, end, worker, gate, share) },
    );
}

/// The hosts of shares one behind another, what all of them made, and the hosts that each worker took.
#[derive(Drop)]
pub(crate) struct Joined {
    pub(crate) tasks: Vec<HostTask>,
    pub(crate) alone: Alone,
    pub(crate) took: Vec<Vec<HostId>>,
}

/// The ids of the hosts of tasks.
fn ids_of(alloc: Global, tasks: &[HostTask]) -> Result<Vec<HostId>, NoMemory>
    ensures { IfOk result (λ ids. ids.items ≡ task_ids tasks.now) }
{
    let mut ids = Vec::with_capacity(alloc, tasks.len())?;
    for task in tasks {
        ids.push(task.id)?;
    }
    Ok(ids)
}

impl Joined {
    /// A share stands behind the others. Its worker may have found no memory.
    fn add(&mut self, alloc: Global, share: Share) -> Result<(), NoMemory>
        ensures { OnOk result (HasAdded share self.old self.new) }
    {
        let Share { mut tasks, made } = share;
        let Some(made) = made else {
            return Err(NoMemory);
        };
        self.took.push(ids_of(alloc, tasks.as_slice())?)?;
        self.tasks.append(&mut tasks)?;
        self.alone.join(made)
    }
}

/// Shares one behind another.
fn join_shares(alloc: Global, shares: Vec<Share>) -> Result<Joined, NoMemory>
    ensures { IfOk result (AreJoined shares.items) }
{
    let mut joined = Joined {
        tasks: Vec::new(alloc),
        alone: Alone::new(alloc),
        took: Vec::new(alloc),
    };
    for share in shares {
        joined.add(alloc, share)?;
    }
    Ok(joined)
}

/// Runs the hosts of all shares up to `end`, a share a worker, in so many threads at most. Fails for want of memory alone.
pub(crate) fn run_in_shares<R: Threads + Sync, G: Gate + Sync>(
    rt: &R,
    alloc: Global,
    net: &Net,
    end: Time,
    threads: u32,
    shares: Vec<Share>,
    gate: &G,
) -> Result<Joined, NoMemory>
    requires stop { net.now.stop.nanos ≤ latest_time }
    requires until { end.nanos ≤ net.now.stop.nanos }
    requires threads { 0 < threads }
    requires few { length shares.items ≤ most_workers }
    requires tasks { AreTasksOf net.now (tasks_in shares.items) }
    ensures took { IfOk result (λ joined. length joined.took.items ≡ length shares.items) }
    ensures run { IfOk result (λ joined. AreRunByAll net.now end.nanos (tasks_in shares.items) joined.tasks.items joined.alone (lists_of joined.took.items)) }
{
    let mut shares = shares;
    run_shares(rt, alloc, net, end, gate, threads, &mut shares);
    join_shares(alloc, shares)
}
