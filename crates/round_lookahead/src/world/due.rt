//! When the next event of the world is due.
ghost use Rattle.std.specs.Prelude.{◌≡◌, flat_map};
ghost use Rattle.event_order.specs.Events.{IsLeastDue};
ghost use Rattle.round_parts.specs.Dues.{first_due};
ghost use Rattle.round_lookahead.specs.Tasks.{waiting};

use crate::workers::host_task::HostTask;
use round_parts::{earlier, first_arrival};
use sim_base::Time;

impl HostTask {
    /// When the first event that the host holds or that waits for it is due.
    fn next_due(&self) -> Option<Time>
        ensures { IsLeastDue (waiting self.now) result }
    {
        earlier(self.due, first_arrival(self.parcels.as_slice()))
    }
}

/// When the first event of all hosts is due; none where there is no event.
pub(crate) fn least_due(tasks: &[HostTask]) -> Option<Time>
    ensures { result ≡ first_due (flat_map waiting tasks.now) }
{
    let mut least = None;
    for task in tasks {
        least = earlier(least, task.next_due());
    }
    least
}
