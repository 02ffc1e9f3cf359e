//! The shares of one deque, one for each seat.
ghost use Rattle.std.specs.Prelude.{◌≡◌, ℕ, true, ◌==◌, [], ◌∷◌, ◌++◌, ◌+◌, ◌<◌, ◌≤◌, All, length, slice_index_or, vec_len, vec_capacity};
ghost use Rattle.crossbeam_deque.specs.Handles.{worker_deque, worker_flavor, worker_view, worker_capacity, worker_index};
ghost use Rattle.steal_workers.specs.inside.Columns.{IsFresh, IsColumn, closed, deck_deque};
ghost use Rattle.steal_workers.specs.inside.Decks.{IsDeck, IsThiefOf, mark_list, queue_of};
ghost use Rattle.steal_workers.specs.inside.Handles.{is_own};
ghost use Rattle.steal_workers.specs.inside.Items.{marks};
ghost use Rattle.steal_workers.specs.OneDeque.{hand};

use crate::deck::{Deck, put};
use crate::hand::{Deque, OneShare, Thief};
use crate::handle::Handle;
use crate::item::Item;
use crate::share::Share;

// Puts so many end marks behind the tasks, each of which is a share.
fn put_marks<T: Drop>(deque: &mut Deque<T>, count: usize)
    requires room { worker_index deque.old + count ≤ worker_capacity deque.old }
    requires fresh { worker_view deque.old ≡ hand true 0 (worker_view deque.old).dealt [] }
    requires unmarked { marks (worker_view deque.old).dealt ≡ 0 }
    ensures same { (worker_flavor deque.new ≡ worker_flavor deque.old) × (worker_deque deque.new ≡ worker_deque deque.old) }
    ensures view { worker_view deque.new ≡ hand true count ((worker_view deque.old).dealt ++ mark_list count) [] }
{
    for _ in 0..count {
        put(deque, Item::Mark);
    }
}

// One share for each thief, and the last one for the deque's owner.
fn shared_out<T: Drop>(
    mut deque: Deque<T>,
    thieves: Vec<Thief<T>>,
    mut shares: Vec<Share<T>>,
) -> Vec<Share<T>>
    requires fifo { worker_flavor deque ≡ 0 }
    requires view { worker_view deque ≡ hand true (vec_len thieves + 1) (worker_view deque).dealt [] }
    requires thieves { All (IsThiefOf (worker_deque deque)) thieves.items }
    requires empty { shares.items ≡ [] }
    requires room { vec_len thieves + 1 ≤ vec_capacity shares }
    ensures count { vec_len result ≡ vec_len thieves + 1 }
    ensures each { (i : ℕ) (e : Share T) → i < vec_len thieves + 1 → IsFresh (worker_deque deque) (worker_view deque).dealt (slice_index_or result.items i e) × (is_own (slice_index_or result.items i e).handle ≡ (i == vec_len thieves)) }
{
    for thief in thieves {
        let claim = deque.another::<OneShare>();
        shares.push_reserved(Share {
            handle: Handle::Other(thief, claim),
            marked: false,
        });
    }
    shares.push_reserved(Share {
        handle: Handle::Own(deque),
        marked: false,
    });
    shares
}

/// The shares of a deck's deque, in the order in which `pop` gives them to the seats.
pub fn column<T: Drop>(deck: Deck<T>, seats: usize, place: usize) -> Vec<Share<T>>
    requires deck { IsDeck seats deck }
    requires unmarked { marks (queue_of deck) ≡ 0 }
    requires room { worker_index deck.deque + seats ≤ worker_capacity deck.deque }
    requires place { place < seats }
    ensures count { length result.items ≡ seats }
    ensures each { IsColumn (deck_deque deck) (closed seats deck) seats place result.items }
{
    let Deck {
        mut deque,
        thieves,
        shares,
    } = deck;
    put_marks(&mut deque, seats);
    let mut shares = shared_out(deque, thieves, shares);
    let last = seats - 1;
    shares.as_mut_slice().swap(last - place, last);
    shares
}
