//! The world between rounds.

ghost use Rattle.std.proofs.Props.{props};
ghost use Rattle.std.specs.Prelude.{◌≡◌, flat_map};
ghost use Rattle.round_parts.specs.Dues.{first_due};
ghost use Rattle.round_lookahead.specs.Tasks.{waiting};

use crate::workers::host_task::HostTask;
use host_link::Net;
use round_parts::{Counts, Load};
use run_files::Listing;
use sim_base::Time;

/// All hosts of a net, with the events that they hold and the packets that wait for them, what is told
/// of each host, what the packet log so far comes to, and what rounds had to do. The lookahead is the least
/// latency from one host to another; with one host there is none. So that no round has to look for the first event of all hosts, when
/// it is due stands beside them; none where there is no event.
pub struct World {
    pub(crate) net: Net,
    pub(crate) lookahead: Option<Time>,
    pub(crate) listing: Listing,
    pub(crate) tasks: Vec<HostTask>,
    pub(crate) due: Option<Time>,
    ghost told: { due ≡ first_due (flat_map waiting tasks.items) } by { Prim.hlevel props },
    pub(crate) counts: Counts,
    pub(crate) load: Load,
}

/// By hand: a derived one would be proved anew in each crate that drops such a value.
impl Drop for World {
    fn drop(self) {
        let World {
            net,
            lookahead: _,
            listing,
            tasks,
            due: _,
            counts: _,
            load,
        } = self;
        drop(net);
        drop(listing);
        drop(tasks);
        drop(load);
    }
}
