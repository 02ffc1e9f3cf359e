//! What a pass of a deque knows, and the steps on a deque.
use crate::item::Item;
use crossbeam_deque::protocol::{Join, Outcome, Protocol, Split};
use crossbeam_deque::{Pass, Stealer, Worker};
use std::alloc::Global;
use std::collections::LinkedList;

/// What a pass knows: whether it deals, its share of the seats, what was dealt and what it took.
/// No value of it is made.
pub struct Hand<T> {
    pub deals: bool,
    pub share: u64,
    pub dealt: LinkedList<Item<T>>,
    pub taken: LinkedList<Item<T>>,
}

/// The rule of one deque.
pub struct OneDeque;

impl<T> Protocol<Item<T>, Hand<T>> for OneDeque {
    ghost use Rattle.std.specs.Prelude.{true, false, []};
    ghost use Rattle.steal_workers.specs.OneDeque.{IsOneDeque, hand};

    ghost holds = { IsOneDeque };

    ghost first = { hand true 0 [] [] };

    ghost guest = { hand false 0 [] [] };
}

/// The dealer put an item behind the others. A mark adds a share.
pub struct Push;

impl<T> Outcome<Item<T>, Hand<T>> for Push {
    ghost use Rattle.std.specs.Prelude.{◌≡◌};
    ghost use Rattle.steal_workers.specs.OneDeque.{after_push};

    ghost then = { λ v items w. w ≡ after_push v items };
}

/// A seat took the item at the front. It finds none only where it has all its marks.
pub struct Take;

impl<T> Outcome<Item<T>, Hand<T>> for Take {
    ghost use Rattle.std.specs.Prelude.{◌≤◌};
    ghost use Rattle.steal_workers.specs.inside.Items.{marks};
    ghost use Rattle.steal_workers.specs.OneDeque.{Took};

    ghost then = { Took };

    ghost empty = { λ v. v.share ≤ marks v.taken };
}

/// One share of the dealer's goes to a seat, or comes back from it.
pub struct OneShare;

impl<T> Split<Hand<T>> for OneShare {
    ghost use Rattle.steal_workers.specs.OneDeque.{less_one_share, one_share};

    ghost left = { less_one_share };

    ghost right = { one_share };
}

impl<T> Join<Hand<T>> for OneShare {
    ghost use Rattle.std.specs.Prelude.{false, []};
    ghost use Rattle.steal_workers.specs.OneDeque.{hand, taken_back};

    ghost both = { taken_back };

    ghost spent = { hand false 0 [] [] };
}

pub type Deque<T> = Worker<Item<T>, Global, Hand<T>, OneDeque>;

pub type Thief<T> = Stealer<Item<T>, Global, Hand<T>, OneDeque>;

pub type Claim<T> = Pass<Item<T>, Hand<T>>;
