//! Steps that are taken in a round, one by one or at once.

ghost use Rattle.std.specs.Prelude.{◌≡◌, [], length, IfOk};
ghost use Rattle.plan_rows.specs.Rows.{net_of};
ghost use Rattle.round_schedule.specs.Reaching.{MayGo};
ghost use Rattle.schedule_tests.specs.inside.Played.{MayBegin, AreAllowed, MayTake, first_state};

use crate::beginning::begin;
use host_link::Net;
use round_schedule::{Round, law_schedule};
use run_plan::Run;
use sim_base::NoMemory;
use std::alloc::Global;
use world_order::Step;

/// Takes steps up to the first that isn't allowed, and counts them.
pub fn play(round: &mut Round, net: &Net, steps: &[Step]) -> Result<usize, NoMemory>
    requires { MayGo net.now [] round.old }
    ensures { IfOk result (λ count. count ≡ length steps.now → MayTake net.now steps.now round.old) }
{
    for (count, step) in steps.iter().enumerate() {
        if !round.allowed(step) {
            return Ok(count);
        }
        round.apply(net, *step)?;
    }
    Ok(steps.len())
}

/// The same steps are taken at once, in the first round of a run.
pub fn replay(alloc: Global, run: Run, steps: &[Step]) -> Result<(), NoMemory>
    requires may { MayBegin run }
    requires allowed { AreAllowed (net_of run) steps.now (first_state run) }
{
    let (round, net) = begin(alloc, run)?;
    law_schedule(round, &net, steps)?;
    Ok(())
}
