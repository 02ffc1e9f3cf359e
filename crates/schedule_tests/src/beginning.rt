//! The first round of a run.

ghost use Rattle.std.specs.Prelude.{IfOk};
ghost use Rattle.host_state.specs.World.{AreRows, opening_world};
ghost use Rattle.round_schedule.specs.Standing.{HostsStand};
ghost use Rattle.schedule_tests.specs.inside.Played.{MayBegin, HasBegun};

use host_draws::Seeds;
use host_link::Net;
use host_rows::Row;
use host_state::Host;
use opened_run::{Opened, open};
use round_lookahead::one_result;
use round_schedule::Round;
use run_plan::Run;
use sim_base::{NoMemory, Time};
use std::alloc::Global;

/// The hosts of rows, as each begins.
fn open_hosts(alloc: Global, rows: Vec<Row>, net: &Net) -> Result<Vec<Host>, NoMemory>
    requires { AreRows net.now rows.items }
    ensures { IfOk result (λ hosts. HostsStand net.now hosts.items (opening_world rows.items)) }
{
    let mut hosts = Vec::new(alloc);
    let mut seeds = Seeds::new(0);
    for row in rows {
        hosts.push(Host::new(row, net, &mut seeds)?)?;
    }
    Ok(hosts)
}

/// The first round of a run, for two workers, and the run's net.
pub fn begin(alloc: Global, run: Run) -> Result<(Round, Net), NoMemory>
    requires { MayBegin run }
    ensures { IfOk result (λ begun. HasBegun run begun.0 begun.1) }
{
    one_result();
    let Opened {
        rows,
        net,
        lookahead,
        ..
    } = open(alloc, run)?;
    let window = net.window(Time { nanos: 0 }, lookahead);
    let hosts = open_hosts(alloc, rows, &net)?;
    let round = Round::open(hosts, &net, window, 2)?;
    Ok((round, net))
}
