//! What became of the bytes of connections.
ghost use Rattle.std.specs.Prelude.{◌≡◌, IfOk, map};
ghost use Rattle.host_state.specs.HostRecord.{HostRecord};
ghost use Rattle.host_state.specs.HostStands.{Stands};
ghost use Rattle.host_state.specs.WorldStreams.{kept_by, streams_in};
ghost use Rattle.round_lookahead.specs.WorldStands.{HostWorld, WorldStands};
ghost use Rattle.stream_pairs.specs.Directions.{kept_in};

use crate::workers::host_task::HostTask;
use crate::world::world_state::World;
use out_text::Stream;
use sim_base::NoMemory;
use std::alloc::Global;
use stream_pairs::{KeptStreams, directions};

/// What a host keeps of its connections.
fn kept_by(alloc: Global, task: &HostTask) -> Result<KeptStreams, NoMemory>
    ensures { IfOk result (λ kept. (h : HostRecord) → Stands task.now.host.value h → task.now.id.index ≡ h.link.number → kept_in kept ≡ kept_by h) }
{
    Ok(KeptStreams {
        host: task.id,
        address: task.host.row().address,
        streams: task.host.streams(alloc)?,
    })
}

impl World {
    /// What each host keeps of its connections.
    fn kept_streams(&self, alloc: Global) -> Result<Vec<KeptStreams>, NoMemory>
        ensures { IfOk result (λ kept. (w : HostWorld) → WorldStands self.now w → map kept_in kept.items ≡ map kept_by w.hosts) }
    {
        let mut kept = Vec::new(alloc);
        for task in self.tasks.as_slice() {
            kept.push(kept_by(alloc, task)?)?;
        }
        Ok(kept)
    }

    /// What became of the bytes that each host wrote to each of its connections, in the order of hosts,
    /// and of each host by its own end and the peer's.
    pub fn streams(&self, alloc: Global) -> Result<Vec<Stream>, NoMemory>
        requires stands { (w : HostWorld) × WorldStands self.now w }
        ensures { IfOk result (λ streams. (w : HostWorld) → WorldStands self.now w → streams.items ≡ streams_in w) }
    {
        let kept = self.kept_streams(alloc)?;
        directions(alloc, kept.as_slice())
    }
}
