//! A set of numbers.

ghost use Rattle.std.specs.Prelude.{◌≤◌, ◌^◌, length};

use crate::bits::{lowest_clear, with_bit, without_bit};
use sim_base::NoMemory;
use std::alloc::Global;

/// A set of numbers: a number is in it where its bit is set, 64 to a word. It takes as many words as
/// the greatest number that was ever in it wants.
#[derive(Drop)]
pub struct NumberSet {
    words: Vec<u64>,
    ghost few: { length words.items ≤ 2 ^ 57 },
}

impl NumberSet {
    ghost use Rattle.std.specs.Prelude.{◌≡◌, ℕ, ◌+◌, ◌*◌, ◌/◌, ◌%◌, ◌<◌, ◌≤◌, ◌^◌, ◌==◌, ◌&&◌, ◌||◌, not, true, false, length, slice_index, OnOk};
    ghost use Rattle.number_sets.specs.Sets.{has};

    /// A set without numbers. It takes no memory.
    pub fn new(alloc: Global) -> NumberSet
        ensures { (n : ℕ) → has result n ≡ false }
    {
        NumberSet {
            words: Vec::new(alloc),
        }
    }

    /// Makes words up to one, in which no number is.
    fn grow_to(&mut self, word: usize) -> Result<(), NoMemory>
        requires { word < 2 ^ 57 }
        ensures within { OnOk result (word < length self.new.words.items) }
        ensures same { (k : ℕ) → slice_index self.new.words.items k ≡ slice_index self.old.words.items k }
    {
        if word < self.words.len() {
            return Ok(());
        }
        self.words.resize(word + 1, 0)?;
        Ok(())
    }

    /// Puts a number into the set.
    pub fn insert(&mut self, number: usize) -> Result<(), NoMemory>
        requires { number < 2 ^ 63 }
        ensures { OnOk result ((n : ℕ) → has self.new n ≡ (n == number || has self.old n)) }
    {
        let word = number / 64;
        self.grow_to(word)?;
        self.words[word] = with_bit(self.words[word], (number % 64) as u32);
        Ok(())
    }

    /// Takes a number out of the set.
    pub fn remove(&mut self, number: usize)
        ensures { (n : ℕ) → has self.new n ≡ (not (n == number) && has self.old n) }
    {
        let word = number / 64;
        if word >= self.words.len() {
            return;
        }
        self.words[word] = without_bit(self.words[word], (number % 64) as u32);
    }

    /// The least number that isn't in the set.
    pub fn least_absent(&self) -> usize
        ensures absent { has self.now result ≡ false }
        ensures least { (n : ℕ) → n < result → has self.now n ≡ true }
    {
        for (place, word) in self.words.iter().enumerate() {
            if *word != u64::MAX {
                return place * 64 + lowest_clear(*word) as usize;
            }
        }
        self.words.len() * 64
    }
}
