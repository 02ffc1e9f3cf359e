//! Packets wait for the hosts in their places.
ghost use Rattle.std.specs.Prelude.{◌≡◌, ◌++◌, ◌∷◌, ◌<◌, All, OnOk, IsPermutation, length, map};
ghost use Rattle.host_link.specs.Parcels.{parcel_event};
ghost use Rattle.host_link.specs.Home.{home};
ghost use Rattle.host_link.specs.Net.{Net};
ghost use Rattle.round_parts.specs.Rows.{row_arrivals, AreAtHome};
ghost use Rattle.round_lookahead.specs.inside.Waits.{HasMore, IsSameHosts, rows_of};

use crate::workers::host_task::HostTask;
use sim_base::{NoMemory, Parcel};
use std::alloc::Global;

impl HostTask {
    /// A packet more waits for the host.
    fn wait(&mut self, alloc: Global, parcel: Parcel) -> Result<(), NoMemory>
        ensures { OnOk result (HasMore parcel self.old self.new) }
    {
        let boxed = Box::new(alloc, parcel)?;
        self.parcels.push(boxed)?;
        Ok(())
    }
}

/// A packet joins those that wait for its host.
fn wait_one(alloc: Global, tasks: &mut [HostTask], parcel: Parcel) -> Result<(), NoMemory>
    requires { parcel.to.index < length tasks.old }
    ensures hosts { OnOk result (IsSameHosts tasks.old tasks.new) }
    ensures events { OnOk result (IsPermutation (row_arrivals (rows_of tasks.new)) (parcel_event parcel ∷ row_arrivals (rows_of tasks.old))) }
    ensures theirs { OnOk result ((net : Net) → home net (parcel_event parcel) ≡ parcel.to.index → AreAtHome net (rows_of tasks.old) → AreAtHome net (rows_of tasks.new)) }
{
    let to = parcel.to.index as usize;
    tasks[to].wait(alloc, parcel)
}

/// Packets join those that wait for their hosts.
pub(crate) fn wait_all(
    alloc: Global,
    tasks: &mut [HostTask],
    parcels: Vec<Parcel>,
) -> Result<(), NoMemory>
    requires { All (λ p. p.to.index < length tasks.old) parcels.items }
    ensures hosts { OnOk result (IsSameHosts tasks.old tasks.new) }
    ensures events { OnOk result (IsPermutation (row_arrivals (rows_of tasks.new)) (map parcel_event parcels.items ++ row_arrivals (rows_of tasks.old))) }
    ensures theirs { OnOk result ((net : Net) → All (λ p. home net (parcel_event p) ≡ p.to.index) parcels.items → AreAtHome net (rows_of tasks.old) → AreAtHome net (rows_of tasks.new)) }
{
    for parcel in parcels {
        wait_one(alloc, tasks, parcel)?;
    }
    Ok(())
}
