//! A worker's whole round.
ghost use Rattle.std.specs.Prelude.{◌≡◌, ◌≤◌, ◌<◌, ◌+◌, ◌*◌, ◌++◌, ◌∷◌, [], ℕ, List, IfOk, OnOk, MatchBool, Some, length, slice_get};
ghost use Rattle.sim_base.specs.Limits.{most_workers};
ghost use Rattle.sim_base.specs.Units.{latest_time};
ghost use Rattle.host_inbox.specs.Sizes.{most_inboxes};
ghost use Rattle.steal_workers.specs.SeatViews.{IsSameSeat, HasMark};
ghost use Rattle.host_state.specs.HostRecord.{HostRecord};
ghost use Rattle.round_lookahead.specs.declared.workers.host_task.HostTask.{HostTask};
ghost use Rattle.round_lookahead.specs.Tasks.{IsTask, AreTasks, AreTasksOf};
ghost use Rattle.round_lookahead.specs.Works.{HostJob, IsWorkOf, IsWork};

use crate::workers::host_task::HostTask;
use crate::workers::worked::{Done, Worked};
use host_inbox::{Boards, Carrier};
use host_link::{Net, Outbox};
use round_parts::post_all;
use sim_base::{NoMemory, Parcel, Time};
use std::alloc::Global;
use steal_workers::{Gate, Next, Seat};

/// So many steals that another worker was faster at end a worker's round. It then has left no task in its own deque.
const MOST_LOST: u32 = 69_632;

/// At most so many turns are in a round: 65,536 tasks, all lost steals, and the turn that finds none.
const MOST_TURNS: u32 = 135_169;

/// A worker's round so far: its work, how many puts it made, and how many steals it lost.
#[derive(Drop)]
struct Shift {
    worked: Worked,
    puts: u32,
    lost: u32,
}

/// Runs a task's host, and puts the parcels that it makes.
fn work_one(
    alloc: Global,
    net: &Net,
    end: Time,
    _worker: u32,
    boards: &Boards<Box<Parcel>>,
    carrier: &mut Carrier<Box<Parcel>>,
    task: HostTask,
    shift: &mut Shift,
) -> Result<(), NoMemory>
    requires stop { net.now.stop.nanos ≤ latest_time }
    requires until { end.nanos ≤ net.now.stop.nanos }
    requires task { (h : HostRecord) × IsTask net.now task.id.index task h }
    requires hosts { boards.now.hosts ≡ length net.now.known.book }
    requires boards { carrier.old.boards ≡ boards.now.id }
    requires puts { length carrier.old.entries ≡ shift.old.puts }
    ensures boards { carrier.new.boards ≡ carrier.old.boards }
    ensures puts { OnOk result (length carrier.new.entries ≡ shift.new.puts) }
    ensures lost { OnOk result (shift.new.lost ≡ shift.old.lost) }
    ensures worked { OnOk result ((tasks : List HostTask) (rec : ℕ → HostRecord) (jobs : List HostJob) → slice_get tasks task.id.index ≡ Some task → IsTask net.now task.id.index task (rec task.id.index)
        → IsWorkOf net.now end.nanos _worker tasks rec jobs carrier.old.entries shift.old.worked
        → (job : HostJob) × (job.number ≡ task.id.index) × IsWorkOf net.now end.nanos _worker tasks rec (jobs ++ job ∷ []) carrier.new.entries shift.new.worked) }
{
    shift.worked.done.reserve(1)?;
    let mut task = task;
    let Outbox {
        parcels,
        lines,
        outputs,
    } = task.run_if_busy(alloc, net, end)?;
    let HostTask { id, host, .. } = task;
    shift.worked.done.push_reserved(Done {
        id,
        host,
        lines,
        outputs,
    });
    post_all(
        alloc,
        boards,
        carrier,
        &mut shift.puts,
        parcels,
        &mut shift.worked.spill,
    )
}

/// Takes a task and runs its host, and answers whether there may be more.
fn turn<G: Gate>(
    alloc: Global,
    net: &Net,
    end: Time,
    worker: u32,
    seat: &mut Seat<HostTask>,
    boards: &Boards<Box<Parcel>>,
    carrier: &mut Carrier<Box<Parcel>>,
    gate: &G,
    shift: &mut Shift,
) -> Result<bool, NoMemory>
    requires stop { net.now.stop.nanos ≤ latest_time }
    requires until { end.nanos ≤ net.now.stop.nanos }
    requires tasks { AreTasksOf net.now seat.old.deal.tasks }
    requires hosts { boards.now.hosts ≡ length net.now.known.book }
    requires boards { carrier.old.boards ≡ boards.now.id }
    requires puts { length carrier.old.entries ≡ shift.old.puts }
    requires lost { shift.old.lost < most_inboxes + most_workers * most_workers }
    ensures same { IsSameSeat seat.old seat.new }
    ensures boards { carrier.new.boards ≡ carrier.old.boards }
    ensures puts { OnOk result (length carrier.new.entries ≡ shift.new.puts) }
    ensures below { OnOk result (length seat.new.numbers ≤ length seat.new.deal.tasks) }
    ensures more { IfOk result (λ more. MatchBool more
        ((shift.new.lost < most_inboxes + most_workers * most_workers) × (length seat.new.numbers + shift.new.lost ≡ length seat.old.numbers + shift.old.lost + 1))
        (HasMark seat.new seat.new.place)) }
    ensures worked { OnOk result ((rec : ℕ → HostRecord) (start : List ℕ) → AreTasks net.now seat.old.deal.tasks rec
        → IsWork net.now end.nanos worker seat.old.deal.tasks rec start seat.old.numbers carrier.old.entries shift.old.worked
        → IsWork net.now end.nanos worker seat.old.deal.tasks rec start seat.new.numbers carrier.new.entries shift.new.worked) }
{
    match seat.next() {
        Next::Task(task) => {
            gate.at_host(worker, task.id.index);
            work_one(alloc, net, end, worker, boards, carrier, task, shift)?;
            Ok(true)
        }
        Next::Empty => Ok(false),
        Next::Lost { .. } => {
            shift.lost += 1;
            Ok(shift.lost < MOST_LOST)
        }
    }
}

/// One worker's whole round: it takes tasks from its seat's deque and then from the others', runs each one's host up to `end`, and
/// puts the parcels that the host makes into the inboxes. Before it runs a host it tells the gate. It ends where no task is left, or
/// where other workers were faster at 69,632 steals; its own deque is empty then. The spill has the parcels that were given back,
/// because their host's places were full, and those beyond 2^32 - 1 puts. Fails for want of memory alone.
pub fn work<G: Gate>(
    alloc: Global,
    net: &Net,
    end: Time,
    worker: u32,
    seat: &mut Seat<HostTask>,
    boards: &Boards<Box<Parcel>>,
    carrier: &mut Carrier<Box<Parcel>>,
    gate: &G,
) -> Result<Worked, NoMemory>
    requires stop { net.now.stop.nanos ≤ latest_time }
    requires until { end.nanos ≤ net.now.stop.nanos }
    requires tasks { AreTasksOf net.now seat.old.deal.tasks }
    requires few { length seat.old.deal.tasks ≤ most_inboxes }
    requires hosts { boards.now.hosts ≡ length net.now.known.book }
    requires carrier { (carrier.old.boards ≡ boards.now.id) × (carrier.old.entries ≡ []) }
    ensures same { IsSameSeat seat.old seat.new }
    ensures boards { carrier.new.boards ≡ carrier.old.boards }
    ensures marked { OnOk result (HasMark seat.new seat.new.place) }
    ensures worked { IfOk result (λ w. (rec : ℕ → HostRecord) → AreTasks net.now seat.old.deal.tasks rec
        → IsWork net.now end.nanos worker seat.old.deal.tasks rec seat.old.numbers seat.new.numbers carrier.new.entries w) }
{
    let mut shift = Shift {
        worked: Worked {
            done: Vec::new(alloc),
            spill: Vec::new(alloc),
        },
        puts: 0,
        lost: 0,
    };
    for _ in 0..MOST_TURNS {
        if !turn(
            alloc, net, end, worker, seat, boards, carrier, gate, &mut shift,
        )? {
            return Ok(shift.worked);
        }
    }
    unreachable!()
}
