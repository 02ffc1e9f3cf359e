//! All workers' rounds.
ghost use Rattle.std.specs.Prelude.{◌≡◌, ◌≤◌, ◌<◌, ◌++◌, ◌∷◌, [], ℕ, Some, IfOk, OnOk, length, map, vec_len};
ghost use Rattle.sim_base.specs.Limits.{most_workers};
ghost use Rattle.sim_base.specs.Units.{latest_time};
ghost use Rattle.host_inbox.specs.Sizes.{most_inboxes};
ghost use Rattle.host_state.specs.HostRecord.{HostRecord};
ghost use Rattle.round_lookahead.specs.inside.Benches.{AreBenches, AreParts};
ghost use Rattle.round_lookahead.specs.inside.Rounds.{IsRound};
ghost use Rattle.round_lookahead.specs.Tasks.{AreTasks, AreTasksOf};

use crate::workers::bench::Bench;
use crate::workers::fork::fork;
use crate::workers::host_task::HostTask;
use crate::workers::worked::Worked;
use host_inbox::{Boards, Carrier};
use host_link::Net;
use sim_base::{NoMemory, Parcel, Time};
use std::alloc::Global;
use std::thread::Threads;
use steal_workers::{Gate, Seat, deal, gather};

/// What a round's workers leave: each one's work, and for each host the parcels in its inbox.
#[derive(Drop)]
pub(crate) struct RoundLeft {
    pub(crate) works: Vec<Worked>,
    pub(crate) rows: Vec<Vec<Box<Parcel>>>,
}

/// What was at the benches.
#[derive(Drop)]
struct BenchParts {
    seats: Vec<Seat<HostTask>>,
    carriers: Vec<Carrier<Box<Parcel>>>,
    works: Vec<Worked>,
}

/// A bench for each seat, with a carrier.
fn benches_of(
    alloc: Global,
    seats: Vec<Seat<HostTask>>,
    mut carriers: Vec<Carrier<Box<Parcel>>>,
) -> Result<Vec<Bench>, NoMemory>
    requires count { (vec_len carriers ≡ vec_len seats) × (vec_len seats ≤ most_workers) }
    ensures { IfOk result (λ benches. AreBenches seats.items carriers.items benches.items) }
{
    let mut benches = Vec::with_capacity(alloc, seats.len())?;
    for seat in seats {
        let worker = benches.len() as u32;
        let Some(carrier) = carriers.pop() else {
            unreachable!()
        };
        benches.push_reserved(Bench {
            worker,
            seat,
            carrier,
            worked: None,
        });
    }
    Ok(benches)
}

impl BenchParts {
    /// Takes one bench more apart. Its worker may have found no memory.
    fn add(&mut self, bench: Bench) -> Result<(), NoMemory>
        ensures seats { OnOk result (self.new.seats.items ≡ self.old.seats.items ++ bench.seat ∷ []) }
        ensures carriers { OnOk result (self.new.carriers.items ≡ self.old.carriers.items ++ bench.carrier ∷ []) }
        ensures works { OnOk result (map Some self.new.works.items ≡ map Some self.old.works.items ++ bench.worked ∷ []) }
    {
        let Bench {
            seat,
            carrier,
            worked,
            ..
        } = bench;
        let Some(worked) = worked else {
            return Err(NoMemory);
        };
        self.seats.push(seat)?;
        self.carriers.push(carrier)?;
        self.works.push(worked)?;
        Ok(())
    }
}

/// Takes the benches apart. Some worker may have found no memory.
fn parts_of(alloc: Global, benches: Vec<Bench>) -> Result<BenchParts, NoMemory>
    ensures { IfOk result (λ parts. AreParts benches.items parts.seats.items parts.carriers.items parts.works.items) }
{
    let mut parts = BenchParts {
        seats: Vec::new(alloc),
        carriers: Vec::new(alloc),
        works: Vec::new(alloc),
    };
    for bench in benches {
        parts.add(bench)?;
    }
    Ok(parts)
}

/// Runs the hosts of all tasks up to `end`, on so many workers in so many threads. Fails for want of memory alone.
pub(crate) fn run_beside<R: Threads + Sync, G: Gate + Sync>(
    rt: &R,
    alloc: Global,
    net: &Net,
    end: Time,
    tasks: Vec<HostTask>,
    workers: u32,
    threads: u32,
    gate: &G,
) -> Result<RoundLeft, NoMemory>
    requires stop { net.now.stop.nanos ≤ latest_time }
    requires until { end.nanos ≤ net.now.stop.nanos }
    requires workers { (0 < workers) × (workers ≤ most_workers) }
    requires threads { 0 < threads }
    requires few { (0 < length tasks.items) × (length tasks.items ≤ most_inboxes) }
    requires tasks { AreTasksOf net.now tasks.items }
    ensures works { IfOk result (λ left. length left.works.items ≡ workers) }
    ensures rows { IfOk result (λ left. length left.rows.items ≡ length tasks.items) }
    ensures round { IfOk result (λ left. (rec : ℕ → HostRecord) → AreTasks net.now tasks.items rec → IsRound net.now end.nanos tasks.items rec left.works.items left.rows.items) }
{
    let hosts = tasks.len() as u32;
    let Ok(seats) = deal(alloc, tasks, workers) else {
        return Err(NoMemory);
    };
    let (boards, carriers) = Boards::open(alloc, hosts, workers)?;
    let mut benches = benches_of(alloc, seats, carriers)?;
    fork(rt, alloc, net, end, &boards, gate, threads, &mut benches);
    let BenchParts {
        seats,
        carriers,
        works,
    } = parts_of(alloc, benches)?;
    let Ok(_) = gather(alloc, seats) else {
        return Err(NoMemory);
    };
    let Ok(drained) = boards.close(carriers) else {
        return Err(NoMemory);
    };
    Ok(RoundLeft {
        works,
        rows: drained.rows,
    })
}
