//! What the dealer learns once it has all shares.
use crate::hand::Hand;
use crate::item::Item;
use crossbeam_deque::protocol::Outcome;

/// The dealer, with all shares, took the item at the front. It finds none only where it has all that was dealt.
pub struct TakeAll;

impl<T> Outcome<Item<T>, Hand<T>> for TakeAll {
    ghost use Rattle.std.specs.Prelude.{◌≡◌, ℕ};
    ghost use Rattle.steal_workers.specs.declared.item.Item.{Item};
    ghost use Rattle.list_weights.specs.Weights.{weigh};
    ghost use Rattle.steal_workers.specs.OneDeque.{Took};

    ghost then = { Took };

    ghost empty = { λ v. (h : Item T → ℕ) → weigh h v.taken ≡ weigh h v.dealt };
}
