//! What the world tells between rounds.
ghost use Rattle.std.specs.Prelude.{◌≡◌, ◌<◌, Some, length, slice_get};
ghost use Rattle.host_state.specs.HostRecord.{HostRecord, process_state};
ghost use Rattle.host_link.specs.Logs.{lines_of};
ghost use Rattle.round_parts.specs.Counts.{counts_of};
ghost use Rattle.round_lookahead.specs.WorldStands.{HostWorld, WorldStands};

use crate::world::world_state::World;
use round_parts::Counts;
use run_files::Listing;
use sim_base::State;

impl World {
    /// What is told of each host.
    pub fn listing(&self) -> &Listing
        ensures { result.now ≡ self.now.listing }
    {
        &self.listing
    }

    /// The state of a process of a host, by their numbers; where the host has no such process, it has
    /// not started.
    pub fn state(&self, host: u32, process: u32) -> State
        requires { host < length self.now.tasks.items }
        ensures { (w : HostWorld) (h : HostRecord) → WorldStands self.now w → slice_get w.hosts host ≡ Some h → result ≡ process_state process h }
    {
        self.tasks[host as usize].host.state(process)
    }

    /// How many lines of its log tell `send`, `lost` and `recv`.
    pub fn counts(&self) -> Counts
        ensures { (w : HostWorld) → WorldStands self.now w → result ≡ counts_of (lines_of w.log) }
    {
        self.counts
    }
}
