//! Hosts wait again.
ghost use Rattle.std.specs.Prelude.{◌≡◌, ◌++◌, ◌∷◌, [], All, IfOk, OnOk, IsSome, length};
ghost use Rattle.run_files.specs.Written.{written_in};
ghost use Rattle.round_lookahead.specs.inside.Retasks as spec;

use crate::workers::host_task::HostTask;
use crate::world::backs::Back;
use run_files::Written;
use sim_base::{NoMemory, Parcel};
use std::alloc::Global;

/// The tasks of the next round, and what was written, by host.
#[derive(Drop)]
pub(crate) struct Retasked {
    pub(crate) tasks: Vec<HostTask>,
    pub(crate) outputs: Written,
}

impl Retasked {
    /// A host that came back waits too, with these packets.
    fn add(&mut self, back: Back, parcels: Vec<Box<Parcel>>) -> Result<(), NoMemory>
        ensures task { OnOk result (spec.IsRetasked back parcels self.old.tasks.items self.new.tasks.items) }
        ensures outputs { OnOk result (written_in self.new.outputs ≡ written_in self.old.outputs ++ back.outputs.items ∷ []) }
    {
        let Back { id, host, outputs } = back;
        self.tasks.push(HostTask::new(id, host, parcels))?;
        self.outputs.push(outputs)?;
        Ok(())
    }
}

/// Each host of a slot, all of which are taken, waits with the packets of its row.
pub(crate) fn retask(
    alloc: Global,
    slots: Vec<Option<Back>>,
    rows: Vec<Vec<Box<Parcel>>>,
) -> Result<Retasked, NoMemory>
    requires count { length rows.items ≡ length slots.items }
    requires taken { All (λ slot. IsSome slot) slots.items }
    ensures { IfOk result (λ r. spec.AreRetasked slots.items rows.items r) }
{
    let mut retasked = Retasked {
        tasks: Vec::with_capacity(alloc, slots.len())?,
        outputs: Written::new(alloc),
    };
    let mut rows = rows.into_iter();
    for slot in slots {
        let Some(back) = slot else { unreachable!() };
        let Some(parcels) = rows.next() else {
            unreachable!()
        };
        retasked.add(back, parcels)?;
    }
    Ok(retasked)
}
