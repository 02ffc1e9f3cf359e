//! What all workers leave is put back.
ghost use Rattle.std.specs.Prelude.{IfOk};
ghost use Rattle.round_lookahead.specs.inside.Settles.{CanSettle, HasSettled};

use crate::workers::host_task::HostTask;
use crate::workers::worked::Worked;
use crate::world::backs::{Returned, put_back};
use crate::world::gained::Gained;
use crate::world::merging::merge;
use crate::world::retasking::{Retasked, retask};
use crate::world::took::Took;
use round_parts::deliver;
use sim_base::{NoMemory, Parcel};
use std::alloc::Global;

/// The hosts of the next round, and what the last one gained.
#[derive(Drop)]
pub(crate) struct Settled {
    pub(crate) tasks: Vec<HostTask>,
    pub(crate) gained: Gained,
}

/// Puts hosts back by their numbers, each with the packets for it, and lines in the order of their keys.
pub(crate) fn settle(
    alloc: Global,
    count: usize,
    works: Vec<Worked>,
    mut rows: Vec<Vec<Box<Parcel>>>,
) -> Result<Settled, NoMemory>
    requires { CanSettle count works.items rows.items }
    ensures { IfOk result (λ s. HasSettled count works.items rows.items s) }
{
    let Returned {
        slots,
        mut lines,
        took,
        spill,
    } = put_back(alloc, count, works)?;
    merge(&mut lines)?;
    deliver(alloc, &mut rows, spill)?;
    let Retasked { tasks, outputs } = retask(alloc, slots, rows)?;
    Ok(Settled {
        tasks,
        gained: Gained {
            outputs,
            lines,
            took: Took::Each(took),
        },
    })
}
