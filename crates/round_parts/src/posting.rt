//! Parcels go into inboxes, or into the spill.
ghost use Rattle.std.specs.Prelude.{◌≡◌, ◌++◌, ◌<◌, ◌∷◌, [], List, All, OnOk, length};
ghost use Rattle.sim_base.specs.declared.event.Parcel.{Parcel};
ghost use Rattle.round_parts.specs.Posts.{IsPosted};

use host_inbox::{Boards, Carrier};
use sim_base::{NoMemory, Parcel};
use std::alloc::Global;

/// Puts a parcel for its host. It joins the spill where the host's places are full, or where 2^32 - 1 puts were made.
fn post_one(
    alloc: Global,
    boards: &Boards<Box<Parcel>>,
    carrier: &mut Carrier<Box<Parcel>>,
    puts: &mut u32,
    parcel: Parcel,
    spill: &mut Vec<Parcel>,
) -> Result<(), NoMemory>
    requires boards { carrier.old.boards ≡ boards.now.id }
    requires to { parcel.to.index < boards.now.hosts }
    requires puts { length carrier.old.entries ≡ puts.old }
    ensures boards { carrier.new.boards ≡ carrier.old.boards }
    ensures puts { OnOk result (length carrier.new.entries ≡ puts.new) }
    ensures posted { OnOk result ((all : List Parcel) → IsPosted all carrier.old.entries spill.old.items → IsPosted (all ++ parcel ∷ []) carrier.new.entries spill.new.items) }
{
    spill.reserve(1)?;
    if *puts == u32::MAX {
        spill.push_reserved(parcel);
        return Ok(());
    }
    let boxed = Box::new(alloc, parcel)?;
    *puts += 1;
    let to = boxed.to;
    match boards.put(carrier, to, boxed) {
        Ok(_) => {}
        Err(full) => spill.push_reserved(Box::into_inner(full.parcel)),
    }
    Ok(())
}

/// Puts parcels for their hosts, in order.
pub fn post_all(
    alloc: Global,
    boards: &Boards<Box<Parcel>>,
    carrier: &mut Carrier<Box<Parcel>>,
    puts: &mut u32,
    parcels: Vec<Parcel>,
    spill: &mut Vec<Parcel>,
) -> Result<(), NoMemory>
    requires boards { carrier.old.boards ≡ boards.now.id }
    requires to { All (λ parcel. parcel.to.index < boards.now.hosts) parcels.items }
    requires puts { length carrier.old.entries ≡ puts.old }
    ensures boards { carrier.new.boards ≡ carrier.old.boards }
    ensures puts { OnOk result (length carrier.new.entries ≡ puts.new) }
    ensures posted { OnOk result ((all : List Parcel) → IsPosted all carrier.old.entries spill.old.items → IsPosted (all ++ parcels.items) carrier.new.entries spill.new.items) }
{
    for parcel in parcels {
        post_one(alloc, boards, carrier, puts, parcel, spill)?;
    }
    Ok(())
}
