//! One deque of a deal, as a seat holds it.
ghost use Rattle.std.specs.Prelude.{◌≡◌, ◌<◌, ◌∷◌, [], MatchOption, false};
ghost use Rattle.crossbeam_deque.specs.Handles.{view, IsPassOf, worker_deque, worker_flavor, worker_view, stealer_deque, stealer_flavor};
ghost use Rattle.steal_workers.specs.inside.Handles.{hand_of, is_own, CanTake, IsSameHandle};
ghost use Rattle.steal_workers.specs.inside.Items.{marks};
ghost use Rattle.steal_workers.specs.OneDeque.{Took};

use crate::hand::{Claim, Deque, Take, Thief};
use crate::item::Item;
use crossbeam_deque::Steal;

/// A seat has its own deque, and of another's a handle to steal with.
#[derive(Drop)]
pub enum Handle<T> {
    Own(Deque<T>),
    Other(Thief<T>, Claim<T>),
}

// A deque is never empty for a seat that hasn't its mark.
fn pop<T>(deque: &mut Deque<T>) -> Item<T>
    requires fifo { worker_flavor deque.old ≡ 0 }
    requires unmarked { marks (worker_view deque.old).taken < (worker_view deque.old).share }
    ensures same { (worker_flavor deque.new ≡ 0) × (worker_deque deque.new ≡ worker_deque deque.old) }
    ensures took { Took (worker_view deque.old) (result ∷ []) (worker_view deque.new) }
{
    match deque.pop_as::<Take>() {
        Some(item) => item,
        None => unreachable!(),
    }
}

// `None` where another seat took the item at the front.
fn steal<T>(thief: &Thief<T>, claim: &mut Claim<T>) -> Option<Item<T>>
    requires fifo { stealer_flavor thief.now ≡ 0 }
    requires same_deque { IsPassOf (stealer_deque thief.now) claim.old }
    requires unmarked { marks (view claim.old).taken < (view claim.old).share }
    ensures same { IsPassOf (stealer_deque thief.now) claim.new }
    ensures took { MatchOption result (view claim.new ≡ view claim.old) (λ item. Took (view claim.old) (item ∷ []) (view claim.new)) }
{
    match thief.steal_as::<Take>(claim) {
        Steal::Success(item) => Some(item),
        Steal::Empty => unreachable!(),
        Steal::Retry => None,
    }
}

impl<T> Handle<T> {
    /// Takes the item at the front. `None` where another seat took it.
    pub fn take(&mut self) -> Option<Item<T>>
        requires { CanTake self.old }
        ensures same { IsSameHandle self.old self.new }
        ensures took { MatchOption result ((hand_of self.new ≡ hand_of self.old) × (is_own self.old ≡ false)) (λ item. Took (hand_of self.old) (item ∷ []) (hand_of self.new)) }
    {
        match self {
            Handle::Own(deque) => Some(pop(deque)),
            Handle::Other(thief, claim) => steal(thief, claim),
        }
    }
}
