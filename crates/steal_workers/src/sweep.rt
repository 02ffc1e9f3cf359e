//! A seat's sweep over the deques of a deal.
ghost use Rattle.std.specs.Prelude.{◌≡◌, ◌<◌, ◌≤◌, All, map, length, slice_index_or, true, false, MatchOption, IfNone};
ghost use Rattle.steal_workers.specs.inside.Shares.{IsShare, Moves, Found, TookNone, is_own_share, is_marked};

use crate::share::{Finding, Share};

// The first task that the deques from `from` on and before `to` give.
fn sweep<T>(shares: &mut [Share<T>], from: usize, to: usize) -> Option<(u32, T)>
    requires sound { All IsShare shares.old }
    requires within { to ≤ length shares.old }
    ensures same { Moves shares.old shares.new }
    ensures found { MatchOption result (TookNone shares.old shares.new) (λ found. Found shares.old shares.new found.0 found.1) }
{
    for deque in from..to {
        match shares[deque].take() {
            Finding::Task(number, task) => return Some((number, task)),
            Finding::Marked => {}
            Finding::Lost => {}
        }
    }
    None
}

// The seat's own deque, which is never lost.
fn own<T>(shares: &mut [Share<T>], place: usize) -> Option<(u32, T)>
    requires sound { All IsShare shares.old }
    requires within { place < length shares.old }
    requires own { slice_index_or (map is_own_share shares.old) place false ≡ true }
    ensures same { Moves shares.old shares.new }
    ensures found { MatchOption result (TookNone shares.old shares.new) (λ found. Found shares.old shares.new found.0 found.1) }
    ensures marked { IfNone result (slice_index_or (map is_marked shares.new) place false ≡ true) }
{
    match shares[place].take() {
        Finding::Task(number, task) => Some((number, task)),
        Finding::Marked => None,
        Finding::Lost => unreachable!(),
    }
}

// A task of the seat's own deque, or else of the others from the next place on.
fn find<T>(shares: &mut [Share<T>], place: usize) -> Option<(u32, T)>
    requires sound { All IsShare shares.old }
    requires within { place < length shares.old }
    requires own { slice_index_or (map is_own_share shares.old) place false ≡ true }
    ensures same { Moves shares.old shares.new }
    ensures found { MatchOption result (TookNone shares.old shares.new) (λ found. Found shares.old shares.new found.0 found.1) }
    ensures marked { IfNone result (slice_index_or (map is_marked shares.new) place false ≡ true) }
{
    match own(shares, place) {
        Some(found) => return Some(found),
        None => {}
    }
    let count = shares.len();
    match sweep(shares, place + 1, count) {
        Some(found) => return Some(found),
        None => {}
    }
    sweep(shares, 0, place)
}

/// The same, of a seat's shares.
pub fn find_among<T>(shares: &mut Vec<Share<T>>, place: usize) -> Option<(u32, T)>
    requires sound { All IsShare shares.old.items }
    requires within { place < length shares.old.items }
    requires own { slice_index_or (map is_own_share shares.old.items) place false ≡ true }
    ensures same { Moves shares.old.items shares.new.items }
    ensures found { MatchOption result (TookNone shares.old.items shares.new.items) (λ found. Found shares.old.items shares.new.items found.0 found.1) }
    ensures marked { IfNone result (slice_index_or (map is_marked shares.new.items) place false ≡ true) }
{
    find(shares.as_mut_slice(), place)
}
