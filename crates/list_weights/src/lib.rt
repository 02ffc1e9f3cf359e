//! Weights of lists, by which lists are compared, with laws of their definitions; and what a thread did, told in contracts alone.
#![tactic(auto)]

mod trail;

ghost use Rattle.std.specs.Prelude.{◌≡◌, ℕ, List, IsPermutation};
ghost use Rattle.std.specs.List.{range_with_len, sum_by};
ghost use Rattle.list_weights.specs.Weights.{weigh, numbers_below};

pub use trail::Trail;

/// Lists of numbers that weigh the same, however numbers are weighed, are the same in another order.
pub fn same_weights()
    ensures { (xs ys : List ℕ) → ((h : ℕ → ℕ) → weigh h xs ≡ weigh h ys) → IsPermutation xs ys }
{}

/// Lists that are the same in another order weigh the same, however numbers are weighed.
pub fn same_members()
    ensures { (xs ys : List ℕ) → IsPermutation xs ys → (h : ℕ → ℕ) → weigh h xs ≡ weigh h ys }
{}

/// What a list weighs is the sum of its members' weights.
pub fn weights_are_sums()
    ensures { (h : ℕ → ℕ) (xs : List ℕ) → weigh h xs ≡ sum_by h xs }
{}

/// The numbers below a number are a range from 0 on.
pub fn numbers_are_a_range()
    ensures { (n : ℕ) → numbers_below n ≡ range_with_len 0 n }
{}
