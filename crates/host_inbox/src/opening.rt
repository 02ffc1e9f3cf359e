//! Opening boards.
ghost use Rattle.std.specs.Prelude.{◌≡◌, ◌*◌, ◌<◌, ◌≤◌, [], IfOk, All, length, replicate, vec_capacity};
ghost use Rattle.sim_base.specs.Limits.{most_workers};
ghost use Rattle.host_inbox.specs.CarrierViews.{AreOpen};
ghost use Rattle.host_inbox.specs.Inboxes.{known};
ghost use Rattle.host_inbox.specs.Sizes.{most_inboxes};

use crate::boards::Boards;
use crate::carrier::Carrier;
use crate::rule::{OneSeat, Size};
use crate::steps::{PlaceSeat, Places};
use atomic_table::Table;
use sim_base::NoMemory;
use std::alloc::{AllocError, Global};

fn zeros(alloc: Global, count: usize) -> Result<Vec<u64>, AllocError>
    ensures { IfOk result (λ words. words.items ≡ replicate count 0) }
{
    Vec::from_elem(alloc, 0u64, count)
}

// A carrier for each of so many seats, for which the seat stands.
fn carriers_of<T>(
    places: &Places<T>,
    mut seat: PlaceSeat<T>,
    seats: u32,
    mut carriers: Vec<Carrier<T>>,
) -> Vec<Carrier<T>>
    requires seats { 0 < seats }
    requires table { (seat.table_id ≡ places.now.table_id) × (0 < places.now.table_id.words) }
    requires knows { seat.me ≡ (known seats [] [], []) }
    requires room { (carriers.items ≡ []) × (seats ≤ vec_capacity carriers) }
    ensures count { length result.items ≡ seats }
    ensures each { All (λ carrier. (carrier.boards ≡ places.now.table_id) × (carrier.entries ≡ [])) result.items }
{
    for _ in 1..seats {
        let one = places.split_seat::<OneSeat>(&mut seat);
        carriers.push_reserved(Carrier::new(one));
    }
    carriers.push_reserved(Carrier::new(seat));
    carriers
}

impl<T: Drop> Boards<T> {
    /// Boards of 1 to 65,536 hosts, and the carriers of 1 to 64 seats.
    pub fn open(
        alloc: Global,
        hosts: u32,
        seats: u32,
    ) -> Result<(Boards<T>, Vec<Carrier<T>>), NoMemory>
        requires hosts { (0 < hosts) × (hosts ≤ most_inboxes) }
        requires seats { (0 < seats) × (seats ≤ most_workers) }
        ensures { IfOk result (λ opened. AreOpen hosts seats opened.0 opened.1.items) }
    {
        let size = Size { hosts, seats };
        let carriers = Vec::with_capacity(alloc, seats as usize)?;
        let words = zeros(alloc, hosts as usize + hosts as usize)?;
        let (table, seat) = Table::vacant(alloc, words.as_slice(), hosts as usize * 16, &size)?;
        let carriers = carriers_of(&table.shared, seat, seats, carriers);
        Ok((Boards::new(table, size), carriers))
    }
}
