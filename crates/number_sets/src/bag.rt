//! A bag of numbers.

use crate::set::NumberSet;
use sim_base::NoMemory;
use std::alloc::Global;
use std::collections::HashMap;

/// A bag of numbers: each is in it so many times. Which ones are is a set besides.
#[derive(Drop)]
pub struct NumberBag {
    counts: HashMap<usize, usize>,
    members: NumberSet,
}

impl NumberBag {
    ghost use Rattle.std.specs.Prelude.{◌≡◌, ℕ, ◌+◌, ◌-◌, ◌<◌, ◌^◌, OnOk};
    ghost use Rattle.number_sets.specs.Bags.{count, one, Holds};

    /// A bag without numbers. It takes no memory.
    pub fn new(alloc: Global) -> NumberBag
        ensures { Holds result (λ n. 0) }
    {
        NumberBag {
            counts: HashMap::new(alloc),
            members: NumberSet::new(alloc),
        }
    }

    /// How many times a number is in the bag.
    fn count(&self, number: usize) -> usize
        ensures { result ≡ count self.now number }
    {
        self.counts.get(&number).copied().unwrap_or(0)
    }

    /// Puts a number in once more.
    pub fn add(&mut self, number: usize) -> Result<(), NoMemory>
        requires { number < 2 ^ 63 }
        ensures { OnOk result ((times : ℕ → ℕ) → Holds self.old times → Holds self.new (λ n. times n + one number n)) }
    {
        let count = self.count(number);
        if count == usize::MAX {
            return Err(NoMemory);
        }
        self.counts.insert(number, count + 1)?;
        self.members.insert(number)?;
        Ok(())
    }

    /// Takes a number out once.
    pub fn remove(&mut self, number: usize) -> Result<(), NoMemory>
        ensures { OnOk result ((times : ℕ → ℕ) → Holds self.old times → Holds self.new (λ n. times n - one number n)) }
    {
        let count = self.count(number);
        if count > 1 {
            self.counts.insert(number, count - 1)?;
            return Ok(());
        }
        let _ = self.counts.remove(&number);
        self.members.remove(number);
        Ok(())
    }

    /// The least number that isn't in the bag.
    pub fn least_absent(&self) -> usize
        ensures absent { (times : ℕ → ℕ) → Holds self.now times → times result ≡ 0 }
        ensures least { (times : ℕ → ℕ) → Holds self.now times → (n : ℕ) → n < result → 0 < times n }
    {
        self.members.least_absent()
    }
}
