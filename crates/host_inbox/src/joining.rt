//! Carriers' seats are joined into one.
ghost use Rattle.std.specs.Prelude.{◌≡◌, ◌<◌, [], All, map, vec_len};
ghost use Rattle.host_inbox.specs.inside.Carriers.{filed};
ghost use Rattle.host_inbox.specs.Drains.{all_entries};
ghost use Rattle.host_inbox.specs.Inboxes.{known};

use crate::carrier::Carrier;
use crate::rule::OneSeat;
use crate::steps::{PlaceSeat, Places};

/// One seat that knows the entries of all carriers.
pub fn joined<T>(places: &Places<T>, mut carriers: Vec<Carrier<T>>) -> PlaceSeat<T>
    requires some { 0 < vec_len carriers }
    requires words { 0 < places.now.table_id.words }
    requires theirs { All (λ carrier. carrier.boards ≡ places.now.table_id) carriers.items }
    ensures table { result.table_id ≡ places.now.table_id }
    ensures knows { result.me ≡ (known (vec_len carriers) (map filed (all_entries carriers.items)) [], []) }
{
    let Some(last) = carriers.pop() else {
        unreachable!()
    };
    let mut seat = last.into_seat();
    while let Some(carrier) = carriers.pop() {
        let mut before = carrier.into_seat();
        places.join_seat::<OneSeat>(&mut before, seat);
        seat = before;
    }
    seat
}
