//! What a host tells of its connections.

ghost use Rattle.std.specs.Prelude.{◌≡◌, IfOk};
ghost use Rattle.host_sockets.specs.Streams.{streams_of};
ghost use Rattle.host_state.specs.HostRecord.{HostRecord};
ghost use Rattle.host_state.specs.HostStands.{Stands};

use crate::host::Host;
use host_sockets::HostStream;
use sim_base::NoMemory;
use std::alloc::Global;

impl Host {
    /// What it tells of each pair of ends of which it ever had a connection, also one that is gone,
    /// in the order of own and peer's ends.
    pub fn streams(&self, alloc: Global) -> Result<Vec<HostStream>, NoMemory>
        ensures { IfOk result (λ streams. (h : HostRecord) → Stands self.now h → streams.items ≡ streams_of h.parts.sockets) }
    {
        self.body.parts.sockets.streams(alloc)
    }
}
