//! A run, round by round: what rounds gain is put once it is worth a call of the outside.

ghost use Rattle.std.specs.Prelude.{◌≡◌, ◌<◌, ◌≤◌, Any, List, OnOk, Option, flat_map};
ghost use Rattle.run_outside.specs.Sink.{Content};
ghost use Rattle.sim_base.specs.Limits.{most_workers};
ghost use Rattle.run_outside.specs.Tally.{CountsWrites};
ghost use Rattle.run_files.specs.Listed.{names_of};
ghost use Rattle.host_state.specs.World.{World as HostWorld, opening_world};
ghost use Rattle.host_rows.specs.declared.row.Row.{Row};
ghost use Rattle.net_run.specs.Grown.{HaveOwnFiles};
ghost use Rattle.round_lookahead.specs.Tasks.{waiting};
ghost use Rattle.round_lookahead.specs.WorldStands.{WorldStands};
ghost use Rattle.shadow_top.specs.inside.Rounds.{GathersRound, PutsRounds, StandsAt};

use net_run::{Gathered, parts_are_between, put_heads, runs_grow};
use round_lookahead::{Pieces, World, rounds_reach_the_result};
use run_outside::{Sink, WriteError};
use sim_base::NoMemory;
use std::alloc::AllocGlobal;
use std::thread::Threads;
use steal_workers::Gate;

/// How many instructions of guests, about, are worth putting what was gained meanwhile: they take some hundredths of a second. So a run
/// that has quick rounds makes few calls, and the files of one that has slow rounds grow with each.
const PUT_WORTH: u64 = 10_000_000;

/// Makes the next round, and gathers what it gained.
fn gather_next<G: Gate + Sync, R: Threads + Sync + AllocGlobal>(
    rt: &R,
    workers: u32,
    gate: &G,
    world: &mut World,
    gathered: &mut Gathered,
) -> Result<(), NoMemory>
    requires stands { (w : HostWorld) × WorldStands world.old w }
    requires unfinished { Any (λ event. event.key.due.nanos < world.old.net.stop.nanos) (flat_map waiting world.old.tasks.items) }
    requires workers { (0 < workers) × (workers ≤ most_workers) }
    ensures net { world.new.net ≡ world.old.net }
    ensures listing { world.new.listing ≡ world.old.listing }
    ensures gathered { OnOk result ((w : HostWorld) → WorldStands world.old w → GathersRound world.old world.new workers w gathered.old gathered.new) }
{
    let Pieces { files, took: _ } = world.round(rt, rt.alloc(), workers, gate)?;
    gathered.add(rt.alloc(), files)
}

/// What the rounds had to do when what they gained was put last.
fn put_now_or_then(is_worth: bool, work: u64, put_at: u64) -> u64 {
    if is_worth { work } else { put_at }
}

/// Makes all rounds, and puts what they gained.
fn put_rounds<K: Sink, G: Gate + Sync, R: Threads + Sync + AllocGlobal>(
    rt: &R,
    workers: u32,
    gate: &G,
    world: &mut World,
    sink: &mut K,
) -> Result<(), WriteError>
    requires stands { (w : HostWorld) × WorldStands world.old w }
    requires workers { (0 < workers) × (workers ≤ most_workers) }
    ensures listing { world.new.listing ≡ world.old.listing }
    ensures told { (w : HostWorld) (old : Option Content) → WorldStands world.old w → StandsAt w old (K.content sink.old) → PutsRounds world.old world.new w old (K.content sink.new) result }
    ensures count { CountsWrites result (K.tally sink.old) (K.tally sink.new) }
{
    rounds_reach_the_result();
    runs_grow();
    parts_are_between();
    let mut gathered = Gathered::new(rt.alloc());
    let mut put_at = 0;
    'rounds: while !world.finished() {
        gather_next(rt, workers, gate, world, &mut gathered)?;
        let work = world.work();
        let is_worth = work.saturating_sub(put_at) >= PUT_WORTH;
        gathered.put_if_worth(sink, is_worth)?;
        put_at = put_now_or_then(is_worth, work, put_at);
    }
    gathered.put(sink)
}

/// Puts the heads of captures, makes all rounds from the beginning, and puts what each gained.
pub(crate) fn put_run<K: Sink, G: Gate + Sync, R: Threads + Sync + AllocGlobal>(
    rt: &R,
    workers: u32,
    gate: &G,
    world: &mut World,
    sink: &mut K,
) -> Result<(), WriteError>
    requires stands { (w : HostWorld) × WorldStands world.old w }
    requires workers { (0 < workers) × (workers ≤ most_workers) }
    ensures listing { world.new.listing ≡ world.old.listing }
    ensures told { (rows : List Row) → WorldStands world.old (opening_world rows) → HaveOwnFiles (names_of world.old.listing)
        → PutsRounds world.old world.new (opening_world rows) (K.content sink.old) (K.content sink.new) result }
    ensures count { CountsWrites result (K.tally sink.old) (K.tally sink.new) }
{
    rounds_reach_the_result();
    runs_grow();
    parts_are_between();
    put_heads(rt.alloc(), sink, world.listing())?;
    put_rounds(rt, workers, gate, world, sink)
}
