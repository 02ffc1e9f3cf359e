//! What a run tells of its connections, behind all else.

ghost use Rattle.std.specs.Prelude.{◌≡◌, OnOk, OnErr, option_map};
ghost use Rattle.run_outside.specs.Tally.{CountsWrites};
ghost use Rattle.host_state.specs.World.{World as HostWorld};
ghost use Rattle.net_run.specs.Pieces.{with_pieces, PutsFront};
ghost use Rattle.net_run.specs.Streams.{stream_puts};
ghost use Rattle.round_lookahead.specs.WorldStands.{WorldStands};

use net_run::put_streams;
use round_lookahead::World;
use run_outside::{Sink, WriteError};
use sim_base::NoMemory;
use std::alloc::Global;

/// Puts the line of each direction, where they are asked for.
pub(crate) fn put_if_asked<K: Sink>(
    alloc: Global,
    world: &World,
    streams: bool,
    sink: &mut K,
) -> Result<(), WriteError>
    requires stands { (w : HostWorld) × WorldStands world.now w }
    ensures ok { (w : HostWorld) → WorldStands world.now w → OnOk result (K.content sink.new ≡ option_map (with_pieces (stream_puts streams w)) (K.content sink.old)) }
    ensures err { (w : HostWorld) → WorldStands world.now w → OnErr result (PutsFront (stream_puts streams w) (K.content sink.old) (K.content sink.new)) }
    ensures count { CountsWrites result (K.tally sink.old) (K.tally sink.new) }
{
    if !streams {
        return Ok(());
    }
    match world.streams(alloc) {
        Ok(told) => put_streams(alloc, sink, world.listing(), told.as_slice()),
        Err(NoMemory) => Err(WriteError::NoMemory),
    }
}
