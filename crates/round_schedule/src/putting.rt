//! A worker puts a packet somewhere.

ghost use Rattle.std.specs.Prelude.{◌≡◌, ◌<◌, ◌∷◌, ◌++◌, [], OnOk, Some, length, slice_set};
ghost use Rattle.host_link.specs.Net.{Net};
ghost use Rattle.round_schedule.specs.inside.Kinds.{puts};
ghost use Rattle.round_schedule.specs.inside.Putting.{Spills, HasPlaced};
ghost use Rattle.round_schedule.specs.Reaching.{May, Does};

use crate::member::{Member, Worker};
use crate::round::Round;
use sim_base::{NoMemory, Parcel};
use world_order::Spot;

impl Worker {
    /// Takes the first packet out of its hand.
    fn take_first(&mut self) -> Parcel
        requires { 0 < length self.old.hand.items }
        ensures hand { self.old.hand.items ≡ result ∷ self.new.hand.items }
        ensures spill { self.new.spill ≡ self.old.spill }
    {
        self.hand.remove(0)
    }

    /// Adds a packet to its spill.
    fn spill_packet(&mut self, parcel: Parcel) -> Result<(), NoMemory>
        ensures spill { OnOk result (self.new.spill.items ≡ self.old.spill.items ++ parcel ∷ []) }
        ensures hand { self.new.hand ≡ self.old.hand }
    {
        self.spill.push(parcel)?;
        Ok(())
    }

    /// The first packet of its hand goes to its spill.
    fn spill_first(&mut self) -> Result<(), NoMemory>
        requires { 0 < length self.old.hand.items }
        ensures { OnOk result (Spills self.old self.new) }
    {
        let parcel = self.take_first();
        self.spill_packet(parcel)
    }
}

impl Member {
    /// A place gets a packet.
    fn set_place(&mut self, place: u32, parcel: Parcel)
        requires { place < length self.old.places.items }
        ensures { HasPlaced place parcel self.old self.new }
    {
        self.places[place as usize] = Some(parcel);
    }
}

impl Round {
    /// The first packet in a worker's hand goes to a place of its host, or to the worker's spill.
    pub(crate) fn put_packet(&mut self, worker: u32, spot: Spot) -> Result<(), NoMemory>
        requires { (net : Net) × May net (puts net worker spot) self.old }
        ensures { OnOk result ((net : Net) → Does net (puts net worker spot) self.old self.new) }
    {
        match spot {
            Spot::Spill => self.workers[worker as usize].spill_first(),
            Spot::Place(place) => {
                let parcel = self.workers[worker as usize].take_first();
                self.members[parcel.to.index as usize].set_place(place, parcel);
                Ok(())
            }
        }
    }
}
