//! Boards: an inbox for each host.
ghost use Rattle.std.specs.Prelude.{◌≡◌, ◌*◌, ◌^◌, ◌<◌, ◌≤◌, ◌∷◌, ◌++◌, [], length, IfOk, IfErr};
ghost use Rattle.host_inbox.specs.Entries.{inbox_places, entry};
ghost use Rattle.std.specs.Mem.Slots.{slots_items, slots_len, IsFull};
ghost use Rattle.host_inbox.specs.CarrierViews.{AreAllOf};
ghost use Rattle.host_inbox.specs.Drains.{all_entries};
ghost use Rattle.host_inbox.specs.Sizes.{IsSized};
ghost use Rattle.host_inbox.specs.inside.Slots.{AreClosed};

use crate::carrier::{Carrier, Full};
use crate::joining::joined;
use crate::rule::{Inboxes, Known, Size};
use atomic_table::{Closed, Table};
use sim_base::{HostId, Parcel};
use std::alloc::Global;
use std::marker::Model;

/// An inbox of 16 places for each host, into which carriers put parcels from any thread.
#[derive(Drop)]
pub struct Boards<T: Drop = Parcel> {
    table: Table<Option<T>, Known<T>, Size, Inboxes, Global>,
    size: Size,
}

impl<T: Drop> Model for Boards<T> {
    ghost use Rattle.host_inbox.specs.CarrierViews.{BoardsView};

    ghost Value = { BoardsView };

    ghost use Rattle.host_inbox.specs.inside.Boards.{boards_view, IsSoundBoards};

    ghost view = { boards_view };

    ghost invariant = { IsSoundBoards };
}

impl<T: Drop> Boards<T> {
    pub(crate) fn new(
        table: Table<Option<T>, Known<T>, Size, Inboxes, Global>,
        size: Size,
    ) -> Boards<T>
        requires { IsSized table size }
        ensures { result ≡ record { id = table.shared.table_id; hosts = size.hosts; seats = size.seats } }
    {
        Boards { table, size }
    }

    /// Puts a parcel for a host, and answers its place, 0 to 15. Where the host's places are full, the parcel comes back
    /// with the number that was claimed for it. Takes no memory, and waits for no other thread.
    pub fn put(&self, carrier: &mut Carrier<T>, to: HostId, parcel: T) -> Result<u64, Full<T>>
        requires boards { carrier.old.boards ≡ self.now.id }
        requires to { to.index < self.now.hosts }
        requires few { length carrier.old.entries < 2 ^ 32 }
        ensures same { carrier.new.boards ≡ carrier.old.boards }
        ensures placed { IfOk result (λ place. (place < inbox_places) × (carrier.new.entries ≡ carrier.old.entries ++ entry to.index place parcel ∷ [])) }
        ensures full { IfErr result (λ full. (inbox_places ≤ full.claimed) × (full.parcel ≡ parcel) × (carrier.new.entries ≡ carrier.old.entries ++ entry to.index full.claimed parcel ∷ [])) }
    {
        carrier.put(&self.table.shared, self.size.hosts, to.index, parcel)
    }

    /// How many hosts have an inbox.
    pub fn hosts(&self) -> u32
        ensures { result ≡ self.now.hosts }
    {
        self.size.hosts
    }

    // The places, once all carriers' seats are joined into one.
    pub(crate) fn closed(self, carriers: Vec<Carrier<T>>) -> Closed<Option<T>, Global>
        requires { AreAllOf self carriers.items }
        ensures count { slots_len result.slots ≡ self.hosts * inbox_places }
        ensures full { IsFull result.slots }
        ensures laid { AreClosed self.hosts (all_entries carriers.items) (slots_items result.slots) }
    {
        let Boards { table, size: _ } = self;
        let seat = joined(&table.shared, carriers);
        table.close_with(seat)
    }
}
