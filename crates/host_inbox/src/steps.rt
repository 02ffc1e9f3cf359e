//! The two steps of a put.
ghost use Rattle.std.specs.Prelude.{◌≡◌, ◌+◌, ◌*◌, ◌^◌, ◌<◌, ◌≤◌, [], ◌∷◌, length};
ghost use Rattle.host_inbox.specs.Entries.{inbox_places, claim, place_of};
ghost use Rattle.host_inbox.specs.Steps.{after_claim, after_full, after_fill};

use crate::entry::Claim;
use crate::rule::{Claims, Fills, Inboxes, Known, Size};
use atomic_table::{Seat, Shared};

/// The words and places of boards.
pub type Places<T> = Shared<Option<T>, Known<T>, Size, Inboxes>;

/// A seat at them.
pub type PlaceSeat<T> = Seat<Option<T>, Known<T>>;

/// Claims the least number of the host that isn't claimed. Its place, if it has one, is then out with the seat.
pub fn claim_number<T>(places: &Places<T>, seat: &mut PlaceSeat<T>, host: u32) -> u64
    requires table { seat.old.table_id ≡ places.now.table_id }
    requires host { host < places.now.key.hosts }
    requires word { host < places.now.table_id.words }
    requires empty { seat.old.me.1 ≡ [] }
    requires few { length seat.old.me.0.entered + length seat.old.me.0.pending < seat.old.me.0.share * 2 ^ 32 }
    ensures table { seat.new.table_id ≡ seat.old.table_id }
    ensures placed { result < inbox_places → seat.new.me ≡ (after_claim seat.old.me.0 host result, (place_of host result, None) ∷ []) }
    ensures full { inbox_places ≤ result → seat.new.me ≡ (after_full seat.old.me.0 host result, []) }
{
    places.fetch_add::<Claims>(seat, host as usize, 1)
}

// Lays a value into the place that the seat has.
fn lay<T>(places: &Places<T>, seat: &mut PlaceSeat<T>, place: usize, parcel: T)
    requires table { seat.old.table_id ≡ places.now.table_id }
    requires empty { seat.old.me.1 ≡ (place, None) ∷ [] }
    ensures table { seat.new.table_id ≡ seat.old.table_id }
    ensures laid { seat.new.me ≡ (seat.old.me.0, (place, Some parcel) ∷ []) }
{
    match places.exchange(seat, place, Some(parcel)) {
        None => {}
        Some(_) => unreachable!(),
    }
}

/// Lays the parcel into the place of the claim, and gives the place back.
pub fn fill<T>(places: &Places<T>, seat: &mut PlaceSeat<T>, hosts: u32, to: Claim, parcel: T)
    requires table { seat.old.table_id ≡ places.now.table_id }
    requires hosts { hosts ≡ places.now.key.hosts }
    requires words { hosts + hosts ≡ places.now.table_id.words }
    requires to { (to.host < hosts) × (to.number < inbox_places) }
    requires pending { seat.old.me.0.pending ≡ to ∷ [] }
    requires place { seat.old.me.1 ≡ (place_of to.host to.number, None) ∷ [] }
    ensures table { seat.new.table_id ≡ seat.old.table_id }
    ensures filled { seat.new.me ≡ (after_fill seat.old.me.0 (Some parcel), []) }
{
    let place = to.host as usize * 16 + to.number as usize;
    lay(places, seat, place, parcel);
    places.fetch_add::<Fills>(seat, hosts as usize + to.host as usize, 1);
}
