//! The end of a run: the final states, the unmet expectations and the summary, and the lines of connections.

ghost use Rattle.std.specs.Prelude.{◌≡◌, ◌<◌, ◌≤◌, ◌^◌, All, IfOk, Option, length, slice_get};
ghost use Rattle.run_outside.specs.Sink.{Content};
ghost use Rattle.run_outside.specs.Tally.{CountsWrites};
ghost use Rattle.host_state.specs.HostRecord.{HostRecord};
ghost use Rattle.host_state.specs.World.{World as HostWorld};
ghost use Rattle.run_files.specs.Listed.{HasIds, names_of};
ghost use Rattle.net_run.specs.Rest.{summary_in, TellsStates};
ghost use Rattle.round_lookahead.specs.WorldStands.{WorldStands};
ghost use Rattle.shadow_top.specs.inside.Ending.{TellsAll, PutsEnd, PutsAll};
ghost use Rattle.shadow_top.specs.inside.Rounds.{StandsAt};

use crate::streams::put_if_asked;
use net_run::{parts_are_between, put_rest, runs_grow};
use out_text::Summary;
use round_lookahead::World;
use run_outside::{Sink, WriteError};
use sim_base::{NoMemory, State};
use std::alloc::Global;

/// The states of the processes of a host, in their order.
fn host_states(
    alloc: Global,
    world: &World,
    host: u32,
    count: usize,
) -> Result<Vec<State>, NoMemory>
    requires host { host < length world.now.tasks.items }
    requires few { count ≤ 2 ^ 32 }
    ensures { IfOk result (λ states. (w : HostWorld) (h : HostRecord) → WorldStands world.now w → slice_get w.hosts host ≡ Some h → count ≡ length h.row.processes → TellsStates h states.items) }
{
    let mut states = Vec::new(alloc);
    for process in 0..count {
        states.push(world.state(host, process as u32))?;
    }
    Ok(states)
}

/// The states of all processes, those of each host at its place.
fn all_states(alloc: Global, world: &World) -> Result<Vec<Vec<State>>, NoMemory>
    requires stands { (w : HostWorld) × WorldStands world.now w }
    requires ids { All HasIds (names_of world.now.listing) }
    ensures { IfOk result (λ states. (w : HostWorld) → WorldStands world.now w → TellsAll w states.items) }
{
    let listing = world.listing();
    let mut states = Vec::new(alloc);
    for host in 0..listing.host_count() {
        let number = host as u32;
        let count = listing.process_count(host);
        let each = host_states(alloc, world, number, count)?;
        states.push(each)?;
    }
    Ok(states)
}

/// For a self-load, what was sent, lost and received.
fn summary(world: &World, hosts: u32, is_self_load: bool) -> Option<Summary>
    ensures { (w : HostWorld) → WorldStands world.now w → hosts ≡ length w.hosts → result ≡ summary_in is_self_load w }
{
    if !is_self_load {
        return None;
    }
    let counts = world.counts();
    Some(Summary {
        hosts,
        sent: counts.sent,
        lost: counts.lost,
        received: counts.received,
    })
}

/// Puts the final states, the unmet expectations and, for a self-load, its summary, and gives the status.
fn put_end<K: Sink>(
    alloc: Global,
    world: &World,
    is_self_load: bool,
    sink: &mut K,
) -> Result<u8, WriteError>
    requires stands { (w : HostWorld) × WorldStands world.now w }
    requires ids { All HasIds (names_of world.now.listing) }
    ensures told { (w : HostWorld) (old : Option Content) → WorldStands world.now w → StandsAt w old (K.content sink.old) → PutsEnd is_self_load w old (K.content sink.new) result }
    ensures count { CountsWrites result (K.tally sink.old) (K.tally sink.new) }
{
    runs_grow();
    parts_are_between();
    let states = match all_states(alloc, world) {
        Ok(states) => states,
        Err(NoMemory) => return Err(WriteError::NoMemory),
    };
    let listing = world.listing();
    let hosts = listing.host_count() as u32;
    let summary = summary(world, hosts, is_self_load);
    put_rest(alloc, sink, listing, states.as_slice(), summary)
}

/// Puts what is left when all rounds are made, and gives the status.
pub(crate) fn put_ending<K: Sink>(
    alloc: Global,
    world: &World,
    is_self_load: bool,
    streams: bool,
    sink: &mut K,
) -> Result<u8, WriteError>
    requires stands { (w : HostWorld) × WorldStands world.now w }
    requires ids { All HasIds (names_of world.now.listing) }
    ensures told { (w : HostWorld) (old : Option Content) → WorldStands world.now w → StandsAt w old (K.content sink.old) → PutsAll is_self_load streams w old (K.content sink.new) result }
    ensures count { CountsWrites result (K.tally sink.old) (K.tally sink.new) }
{
    parts_are_between();
    let status = put_end(alloc, world, is_self_load, sink)?;
    put_if_asked(alloc, world, streams, sink)?;
    Ok(status)
}
