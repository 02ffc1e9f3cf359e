//! The shares of one seat, one in each deque.
ghost use Rattle.std.specs.Prelude.{◌≡◌, [], ◌+◌, ◌<◌, ◌≤◌, length, vec_capacity};
ghost use Rattle.list_weights.specs.Places.{EachAt};
ghost use Rattle.steal_workers.specs.inside.Columns.{AreColumns, IsRow};

use crate::deck::Deck;
use crate::share::Share;
use std::snapshot::Snapshot;

/// Takes the next share of each column. `_plan` is what the columns were made of.
pub fn row<T>(
    columns: &mut [Vec<Share<T>>],
    mut shares: Vec<Share<T>>,
    place: usize,
    _plan: &Snapshot<Vec<Deck<T>>>,
) -> Vec<Share<T>>
    requires columns { AreColumns _plan.now.value.items (length columns.old) columns.old }
    requires height { EachAt (λ _ column. length column.items + place ≡ length columns.old) columns.old }
    requires place { place < length columns.old }
    requires empty { shares.items ≡ [] }
    requires room { length columns.old ≤ vec_capacity shares }
    ensures columns { AreColumns _plan.now.value.items (length columns.old) columns.new }
    ensures height { EachAt (λ _ column. length column.items + (place + 1) ≡ length columns.old) columns.new }
    ensures row { IsRow _plan.now.value.items (length columns.old) (length columns.old) place result.items }
{
    for deque in 0..columns.len() {
        match columns[deque].pop() {
            Some(share) => shares.push_reserved(share),
            None => unreachable!(),
        }
    }
    shares
}
