//! A seat of a deal.
ghost use Rattle.std.specs.Prelude.{◌≡◌, ℕ, ◌<◌, ◌≤◌, MatchOption, map, length, slice_index_or, false};
ghost use Rattle.steal_workers.specs.Answers.{Answers};
ghost use Rattle.steal_workers.specs.Deals.{IsDealt};
ghost use Rattle.steal_workers.specs.Gathers.{IsStack};
ghost use Rattle.list_weights.specs.Weights.{weigh, numbers_below};
ghost use Rattle.steal_workers.specs.SeatViews.{IsSameSeat, HasMark, seat_count};
ghost use Rattle.steal_workers.specs.Seats.{most_seats};
ghost use Rattle.steal_workers.specs.inside.Shares.{is_marked, dealt_to, taken_weights, AllMarked};
ghost use Rattle.steal_workers.specs.inside.Unused.{IsUnused, unused_view};

use crate::share::Share;
use crate::sweep::find_among;
use list_weights::Trail;
use std::marker::Model;
use std::snapshot::Snapshot;

/// One worker's seat. It has a deque of its own, and steals from the others'.
pub struct Seat<T> {
    place: u32,
    dealt: u32,
    shares: Vec<Share<T>>,
    trail: Trail<u32>,
    tasks: Snapshot<Vec<T>>,
}

/// By hand: a derived one would be proved anew in each crate that drops such a value.
impl<T: Drop> Drop for Seat<T> {
    fn drop(self) {
        let Seat {
            place: _,
            dealt: _,
            shares,
            trail,
            tasks: _,
        } = self;
        drop(shares);
        drop(trail);
    }
}

impl<T> Model for Seat<T> {
    ghost use Rattle.steal_workers.specs.SeatViews.{SeatView};

    ghost Value = { SeatView T };

    ghost use Rattle.steal_workers.specs.Seats.{seat_view, IsSound};

    ghost view = { seat_view };

    ghost invariant = { IsSound };
}

/// A seat's shares, of which those in the last deques go first.
#[derive(Drop)]
pub(crate) struct Stack<T> {
    pub place: u32,
    pub shares: Vec<Share<T>>,
}

/// What a seat found.
#[derive(Drop)]
pub enum Next<T> {
    /// A task that no other seat has.
    Task(T),
    /// No task is left in any deque: the seat has an end mark of each.
    Empty,
    /// Another seat took the item at the front of `deque` first. The seat's own deque has no task left.
    Lost { deque: u32 },
}

impl<T> Seat<T> {
    /// A seat that has taken nothing.
    pub(crate) fn new(
        place: u32,
        dealt: u32,
        shares: Vec<Share<T>>,
        tasks: Snapshot<Vec<T>>,
    ) -> Seat<T>
        requires place { (place < length shares.items) × (length shares.items ≤ most_seats) }
        requires shares { IsUnused place shares.items }
        requires dealt { IsDealt (map dealt_to shares.items) tasks.value.items }
        requires count { dealt ≡ length tasks.value.items }
        ensures { result ≡ unused_view place shares.items tasks.value.items }
    {
        Seat {
            place,
            dealt,
            shares,
            trail: Trail::new(),
            tasks,
        }
    }

    /// How many tasks were dealt.
    pub(crate) fn dealt(&self) -> u32
        ensures { result ≡ length self.now.deal.tasks }
    {
        self.dealt
    }

    pub(crate) fn into_stack(self) -> Stack<T>
        ensures stack { (result.place ≡ self.place) × IsStack (HasMark self self.place) self.deal (seat_count self.deal) result }
        ensures numbers { (h : ℕ → ℕ) → weigh h self.numbers ≡ taken_weights h result.shares.items }
        ensures dealt { IsDealt self.deal.queues self.deal.tasks × (length self.deal.queues ≡ seat_count self.deal) }
    {
        let Seat {
            place,
            dealt: _,
            shares,
            trail: _,
            tasks: _,
        } = self;
        Stack { place, shares }
    }

    /// The next task: of the seat's own deque, or else of the others from the next place on. No seat takes a task twice, so it
    /// takes no more tasks than were dealt.
    pub fn next(&mut self) -> Next<T>
        ensures same { IsSameSeat self.old self.new }
        ensures place { self.new.place < seat_count self.new.deal }
        ensures once { (h : ℕ → ℕ) → weigh h self.new.numbers ≤ weigh h (numbers_below (length self.new.deal.tasks)) }
        ensures answer { Answers self.old result self.new }
    {
        let place = self.place as usize;
        match find_among(&mut self.shares, place) {
            Some((number, task)) => {
                self.trail.then(number);
                Next::Task(task)
            }
            None => match unmarked(self.shares.as_slice()) {
                Some(deque) => Next::Lost {
                    deque: deque as u32,
                },
                None => Next::Empty,
            },
        }
    }
}

// The first deque whose end mark the seat hasn't.
fn unmarked<T>(shares: &[Share<T>]) -> Option<usize>
    ensures { MatchOption result (AllMarked shares.now) (λ deque. (deque < length shares.now) × (slice_index_or (map is_marked shares.now) deque false ≡ false)) }
{
    for (deque, share) in shares.iter().enumerate() {
        if !share.marked {
            return Some(deque);
        }
    }
    None
}
