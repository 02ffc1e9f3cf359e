//! Packets that are in no inbox go to their hosts.
ghost use Rattle.std.specs.Prelude.{◌≡◌, ◌++◌, ◌∷◌, ◌<◌, All, OnOk, IsPermutation, length, map};
ghost use Rattle.host_link.specs.Parcels.{parcel_event};
ghost use Rattle.host_link.specs.Home.{home};
ghost use Rattle.host_link.specs.Net.{Net};
ghost use Rattle.round_parts.specs.Rows.{row_arrivals, AreAtHome};

use sim_base::{NoMemory, Parcel};
use std::alloc::Global;

/// A packet joins those that wait for its host.
fn deliver_one(
    alloc: Global,
    rows: &mut Vec<Vec<Box<Parcel>>>,
    parcel: Parcel,
) -> Result<(), NoMemory>
    requires { parcel.to.index < length rows.old.items }
    ensures count { length rows.new.items ≡ length rows.old.items }
    ensures events { OnOk result (IsPermutation (row_arrivals rows.new.items) (parcel_event parcel ∷ row_arrivals rows.old.items)) }
    ensures theirs { OnOk result ((net : Net) → home net (parcel_event parcel) ≡ parcel.to.index → AreAtHome net rows.old.items → AreAtHome net rows.new.items) }
{
    let to = parcel.to.index as usize;
    let boxed = Box::new(alloc, parcel)?;
    rows[to].push(boxed)?;
    Ok(())
}

/// Packets join those that wait for their hosts.
pub fn deliver(
    alloc: Global,
    rows: &mut Vec<Vec<Box<Parcel>>>,
    parcels: Vec<Parcel>,
) -> Result<(), NoMemory>
    requires { All (λ p. p.to.index < length rows.old.items) parcels.items }
    ensures count { length rows.new.items ≡ length rows.old.items }
    ensures events { OnOk result (IsPermutation (row_arrivals rows.new.items) (map parcel_event parcels.items ++ row_arrivals rows.old.items)) }
    ensures theirs { OnOk result ((net : Net) → All (λ p. home net (parcel_event p) ≡ p.to.index) parcels.items → AreAtHome net rows.old.items → AreAtHome net rows.new.items) }
{
    for parcel in parcels {
        deliver_one(alloc, rows, parcel)?;
    }
    Ok(())
}
