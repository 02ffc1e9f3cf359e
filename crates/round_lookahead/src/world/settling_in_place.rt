//! A round in which each host is run in its place, whole.
ghost use Rattle.std.specs.Prelude.{◌≡◌, ◌≤◌, ◌<◌, All, IfOk, flat_map, length};
ghost use Rattle.sim_base.specs.Limits.{most_workers};
ghost use Rattle.sim_base.specs.Units.{latest_time};
ghost use Rattle.host_inbox.specs.Sizes.{most_inboxes};
ghost use Rattle.round_parts.specs.Dues.{first_due};
ghost use Rattle.round_lookahead.specs.inside.RoundsInPlace.{HasSettledInPlace, IsRoundInPlace};
ghost use Rattle.round_lookahead.specs.inside.Shares.{tasks_in};
ghost use Rattle.round_lookahead.specs.Tasks.{AreTasksOf, waiting};

use crate::workers::host_task::HostTask;
use crate::world::gained::Gained;
use crate::world::in_place::{Alone, run_in_place};
use crate::world::merging::merge;
use crate::world::share::{Share, shares_of};
use crate::world::sharing::{Joined, run_in_shares};
use crate::world::took::Took;
use crate::world::waiting::wait_all;
use host_link::Net;
use round_parts::{RoundLoad, Spread, earlier, first_spilled};
use sim_base::{NoMemory, Time};
use std::alloc::Global;
use std::mem;
use std::thread::Threads;
use steal_workers::Gate;

/// What a round gained in which each host was run in its place, when the first event is due after it, and what those hosts had to do
/// that had anything to do.
#[derive(Drop)]
pub(crate) struct RanInPlace {
    pub(crate) gained: Gained,
    pub(crate) due: Option<Time>,
    pub(crate) load: RoundLoad,
}

/// The packets that hosts made in their places wait for their hosts, and lines stand in the order of their keys.
fn settle_in_place(
    alloc: Global,
    tasks: &mut Vec<HostTask>,
    alone: Alone,
    took: Took,
) -> Result<RanInPlace, NoMemory>
    requires { All (λ parcel. parcel.to.index < length tasks.old.items) alone.spill.items }
    ensures { IfOk result (HasSettledInPlace tasks.old.items alone took tasks.new) }
{
    let Alone {
        outputs,
        mut lines,
        spill,
        due: held,
        load,
    } = alone;
    merge(&mut lines)?;
    let due = earlier(first_spilled(spill.as_slice()), held);
    wait_all(alloc, tasks.as_mut_slice(), spill)?;
    Ok(RanInPlace {
        gained: Gained {
            outputs,
            lines,
            took,
        },
        due,
        load,
    })
}

/// Runs the hosts of all tasks up to `end`, each in its place, as the first of so many workers; the packets that they make then
/// wait for their hosts. Fails for want of memory alone.
fn round_alone<G: Gate>(
    alloc: Global,
    net: &Net,
    end: Time,
    tasks: &mut Vec<HostTask>,
    workers: u32,
    gate: &G,
) -> Result<RanInPlace, NoMemory>
    requires stop { net.now.stop.nanos ≤ latest_time }
    requires until { end.nanos ≤ net.now.stop.nanos }
    requires workers { 0 < workers }
    requires few { length tasks.old.items ≤ most_inboxes }
    requires tasks { AreTasksOf net.now tasks.old.items }
    ensures round { IfOk result (λ ran. IsRoundInPlace net.now end.nanos workers tasks.old.items tasks.new ran.gained) }
    ensures due { IfOk result (λ ran. ran.due ≡ first_due (flat_map waiting tasks.new.items)) }
{
    let hosts = tasks.len();
    let alone = run_in_place(alloc, net, end, 0, tasks.as_mut_slice(), gate)?;
    settle_in_place(alloc, tasks, alone, Took::First { workers, hosts })
}

/// The same in shares of so many hosts that have something to do, a share a worker, in so many threads at most.
fn round_in_shares<R: Threads + Sync, G: Gate + Sync>(
    rt: &R,
    alloc: Global,
    net: &Net,
    end: Time,
    tasks: &mut Vec<HostTask>,
    threads: u32,
    shares: Vec<Share>,
    gate: &G,
) -> Result<RanInPlace, NoMemory>
    requires stop { net.now.stop.nanos ≤ latest_time }
    requires until { end.nanos ≤ net.now.stop.nanos }
    requires threads { 0 < threads }
    requires workers { length shares.items ≤ most_workers }
    requires few { length (tasks_in shares.items) ≤ most_inboxes }
    requires tasks { AreTasksOf net.now (tasks_in shares.items) }
    ensures round { IfOk result (λ ran. IsRoundInPlace net.now end.nanos (length shares.items) (tasks_in shares.items) tasks.new ran.gained) }
    ensures due { IfOk result (λ ran. ran.due ≡ first_due (flat_map waiting tasks.new.items)) }
{
    let Joined {
        tasks: back,
        alone,
        took,
    } = run_in_shares(rt, alloc, net, end, threads, shares, gate)?;
    *tasks = back;
    settle_in_place(alloc, tasks, alone, Took::Each(took))
}

/// Runs the hosts of all tasks up to `end`, each in its place: by the caller alone, as the first of so many workers, or in shares, a
/// share a worker. The packets that they make then wait for their hosts. Fails for want of memory alone.
pub(crate) fn round_in_place<R: Threads + Sync, G: Gate + Sync>(
    rt: &R,
    alloc: Global,
    net: &Net,
    end: Time,
    tasks: &mut Vec<HostTask>,
    workers: u32,
    spread: Spread,
    gate: &G,
) -> Result<RanInPlace, NoMemory>
    requires stop { net.now.stop.nanos ≤ latest_time }
    requires until { end.nanos ≤ net.now.stop.nanos }
    requires workers { (0 < workers) × (workers ≤ most_workers) }
    requires threads { 0 < spread.threads }
    requires few { length tasks.old.items ≤ most_inboxes }
    requires tasks { AreTasksOf net.now tasks.old.items }
    ensures round { IfOk result (λ ran. IsRoundInPlace net.now end.nanos workers tasks.old.items tasks.new ran.gained) }
    ensures due { IfOk result (λ ran. ran.due ≡ first_due (flat_map waiting tasks.new.items)) }
{
    let Spread { threads, share } = spread;
    let Some(most) = share else {
        return round_alone(alloc, net, end, tasks, workers, gate);
    };
    if threads < 2 {
        return round_alone(alloc, net, end, tasks, workers, gate);
    }
    let taken = mem::replace(tasks, Vec::new(alloc));
    let shares = shares_of(alloc, taken, end, most, workers)?;
    round_in_shares(rt, alloc, net, end, tasks, threads, shares, gate)
}
