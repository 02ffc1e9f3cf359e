//! Hosts that one worker runs, each in its place.
ghost use Rattle.std.specs.Prelude.{◌≡◌, ◌≤◌, ◌<◌, ◌++◌, [], None, All, IfOk, OnOk, length, replicate};
ghost use Rattle.sim_base.specs.Units.{latest_time};
ghost use Rattle.run_files.specs.Written.{written_in};
ghost use Rattle.round_lookahead.specs.inside.Alone.{AreRunInPlace, HasJoined, HasKept, HasPassed, IsOwn};

use crate::workers::host_task::HostTask;
use host_link::{Logged, Net, Outbox};
use round_parts::{RoundLoad, earlier};
use run_files::{HostWritten, Written};
use sim_base::{NoMemory, Parcel, Time};
use std::alloc::Global;
use steal_workers::Gate;

/// What the hosts made that were run in their places, one after another: what their processes wrote, host by host, the lines of
/// the log, and the parcels for other hosts; when the first of the events that they then hold is due; and what those had to do that
/// had anything to do.
#[derive(Drop)]
pub(crate) struct Alone {
    pub(crate) outputs: Written,
    pub(crate) lines: Vec<Logged>,
    pub(crate) spill: Vec<Parcel>,
    pub(crate) due: Option<Time>,
    pub(crate) load: RoundLoad,
}

/// Behind those of other hosts stand so many that wrote nothing. So many of them that there is no number for them have no room.
fn join_silent(all: &mut Written, count: usize) -> Result<(), NoMemory>
    ensures { OnOk result (written_in all.new ≡ written_in all.old ++ replicate count []) }
{
    let Some(silent) = all.silent.checked_add(count) else {
        return Err(NoMemory);
    };
    all.silent = silent;
    Ok(())
}

/// What hosts wrote stands behind what others did.
fn join_written(all: &mut Written, more: Written) -> Result<(), NoMemory>
    ensures { OnOk result (written_in all.new ≡ written_in all.old ++ written_in more) }
{
    let Written { hosts, silent } = more;
    for host in hosts {
        let HostWritten { silent, outputs } = host;
        join_silent(all, silent)?;
        all.push(outputs)?;
    }
    join_silent(all, silent)
}

/// Adds items behind others. Where there are no others, they stand in place of these, without a copy.
fn join<T: Drop>(all: &mut Vec<T>, more: Vec<T>) -> Result<(), NoMemory>
    ensures { OnOk result (all.new.items ≡ all.old.items ++ more.items) }
{
    if all.is_empty() {
        *all = more;
        return Ok(());
    }
    let mut more = more;
    all.append(&mut more)?;
    Ok(())
}

impl Alone {
    /// Nothing yet.
    pub(crate) fn new(alloc: Global) -> Alone
        ensures outputs { written_in result.outputs ≡ [] }
        ensures lines { result.lines.items ≡ [] }
        ensures spill { result.spill.items ≡ [] }
        ensures due { result.due ≡ None }
    {
        Alone {
            outputs: Written::new(alloc),
            lines: Vec::new(alloc),
            spill: Vec::new(alloc),
            due: None,
            load: RoundLoad::new(),
        }
    }

    /// Keeps what a host made too, whose first event is then due at this time, and which had so much to do.
    fn keep(&mut self, due: Option<Time>, work: u64, out: Outbox) -> Result<(), NoMemory>
        ensures { OnOk result (HasKept due out self.old self.new) }
    {
        let Outbox {
            parcels,
            lines,
            outputs,
        } = out;
        self.outputs.push(outputs)?;
        join(&mut self.lines, lines)?;
        join(&mut self.spill, parcels)?;
        self.due = earlier(self.due, due);
        self.load.add(work);
        Ok(())
    }

    /// Keeps what other hosts made behind it.
    pub(crate) fn join(&mut self, more: Alone) -> Result<(), NoMemory>
        ensures { OnOk result (HasJoined more self.old self.new) }
    {
        let Alone {
            outputs,
            lines,
            spill,
            due,
            load,
        } = more;
        join_written(&mut self.outputs, outputs)?;
        join(&mut self.lines, lines)?;
        join(&mut self.spill, spill)?;
        self.due = earlier(self.due, due);
        self.load.join(load);
        Ok(())
    }

    /// Keeps that a host had nothing to do, whose first event is due at this time.
    fn pass(&mut self, due: Option<Time>) -> Result<(), NoMemory>
        ensures { OnOk result (HasPassed due self.old self.new) }
    {
        self.outputs.push_silent()?;
        self.due = earlier(self.due, due);
        Ok(())
    }
}

/// Runs the hosts of tasks up to `end`, each in its place, as one worker. Before it runs a host it tells the gate; one with nothing to do
/// stays as it is. Fails for want of memory alone.
pub(crate) fn run_in_place<G: Gate>(
    alloc: Global,
    net: &Net,
    end: Time,
    worker: u32,
    tasks: &mut [HostTask],
    gate: &G,
) -> Result<Alone, NoMemory>
    requires stop { net.now.stop.nanos ≤ latest_time }
    requires until { end.nanos ≤ net.now.stop.nanos }
    requires tasks { All (IsOwn net.now) tasks.old }
    ensures { IfOk result (λ alone. AreRunInPlace net.now end.nanos worker tasks.old (length tasks.old) tasks.new alone) }
{
    let mut alone = Alone::new(alloc);
    for task in tasks.iter_mut() {
        gate.at_host(worker, task.id.index);
        if task.is_busy(end) {
            let before = task.work;
            let out = task.run_here(alloc, net, end)?;
            alone.keep(task.due, task.work.saturating_sub(before), out)?;
        } else {
            alone.pass(task.due)?;
        }
    }
    Ok(alone)
}
