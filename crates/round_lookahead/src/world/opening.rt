//! The world before its first round.
ghost use Rattle.std.specs.Prelude.{◌≡◌, All, IfOk};
ghost use Rattle.host_state.specs.Fits.{FitsNet};
ghost use Rattle.run_files.specs.Listed.{HasIds, names_of};
ghost use Rattle.round_lookahead.specs.OpeningWorld.{AreHostRows, IsOpened, opening_world};
ghost use Rattle.round_lookahead.specs.inside.OpeningWorld.{AreOpened};
ghost use Rattle.round_lookahead.specs.WorldStands.{HasRounds, WorldStands, nanos_of};

use crate::workers::host_task::HostTask;
use crate::world::due::least_due;
use crate::world::world_state::World;
use host_draws::Seeds;
use host_link::Net;
use host_rows::Row;
use host_state::Host;
use round_parts::{Counts, Load};
use run_files::Listing;
use sim_base::{NoMemory, Time};
use std::alloc::Global;

/// The host of a row at the beginning.
fn open_host(alloc: Global, row: Row, net: &Net, seeds: &mut Seeds) -> Result<HostTask, NoMemory>
    requires { FitsNet net.now row }
    ensures { IfOk result (IsOpened row) }
{
    let id = row.host;
    let host = Box::new(alloc, Host::new(row, net, seeds)?)?;
    Ok(HostTask::new(id, host, Vec::new(alloc)))
}

/// The hosts of all rows.
fn open_hosts(alloc: Global, rows: Vec<Row>, net: &Net) -> Result<Vec<HostTask>, NoMemory>
    requires { AreHostRows net.now rows.items }
    ensures { IfOk result (λ tasks. AreOpened rows.items tasks.items) }
{
    let mut tasks = Vec::with_capacity(alloc, rows.len())?;
    let mut seeds = Seeds::new(0);
    for row in rows {
        tasks.push(open_host(alloc, row, net, &mut seeds)?)?;
    }
    Ok(tasks)
}

impl World {
    /// The world in which all hosts of a net begin. The lookahead is the least latency from one host
    /// to another; with one host there is none. Fails for want of memory alone, which a host with more
    /// processes than there are ids lacks too.
    pub fn start(
        alloc: Global,
        rows: Vec<Row>,
        net: Net,
        lookahead: Option<Time>,
    ) -> Result<World, NoMemory>
        requires rows { AreHostRows net rows.items }
        requires rounds { HasRounds net (nanos_of lookahead) }
        ensures net { IfOk result (λ world. world.net ≡ net) }
        ensures lookahead { IfOk result (λ world. world.lookahead ≡ lookahead) }
        ensures stands { IfOk result (λ world. WorldStands world (opening_world rows.items)) }
        ensures ids { IfOk result (λ world. All HasIds (names_of world.listing)) }
    {
        let listing = Listing::new(alloc, rows.as_slice())?;
        let tasks = open_hosts(alloc, rows, &net)?;
        let due = least_due(tasks.as_slice());
        Ok(World {
            net,
            lookahead,
            listing,
            tasks,
            due,
            counts: Counts::new(),
            load: Load::new(),
        })
    }
}
