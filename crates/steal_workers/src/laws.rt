//! Laws of the seats of a deal.

ghost use Rattle.std.specs.Prelude.{◌≡◌, ◌<◌, ℕ, List, [], All};
ghost use Rattle.steal_workers.specs.Answers.{Answers, FoundNone};
ghost use Rattle.steal_workers.specs.Gathers.{IsGathered};
ghost use Rattle.steal_workers.specs.SeatViews.{AreSameSeats, HasEveryMark, SeatView, seat_count};
ghost use Rattle.steal_workers.specs.WholeDeals.{IsWholeDeal};
ghost use Rattle.steal_workers.specs.declared.item.Numbered.{Numbered};
ghost use Rattle.steal_workers.specs.declared.seat.Next.{Next};
ghost use Rattle.steal_workers.specs.declared.seat.Next.TheVariants.{Empty, Lost};

/// A seat that has every mark answers Empty and nothing else. One seat alone never answers Lost.
pub fn answers<T>()
    ensures empty { (old new : SeatView T) (next : Next T) → Answers old next new → HasEveryMark new → next ≡ Empty }
    ensures alone { (old new : SeatView T) (deque : ℕ) → seat_count new.deal ≡ 1 → ¬ Answers old (Lost deque) new }
{}

/// A whole deal stays one. Each of its seats has a place below the number of the seats; and nothing
/// is left of it where each seat's last answer was no task.
pub fn whole_deals<T>()
    ensures stays { (old new : List (SeatView T)) → AreSameSeats old new → IsWholeDeal old → IsWholeDeal new }
    ensures places { (seats : List (SeatView T)) → IsWholeDeal seats → All (λ seat. seat.place < seat_count seat.deal) seats }
    ensures nothing_left { (seats : List (SeatView T)) (left : List (Numbered T)) → IsWholeDeal seats → IsGathered seats left → All FoundNone seats → left ≡ [] }
{}
