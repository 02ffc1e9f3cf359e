//! Numbers that costs may have.

use crate::cost::Cost;
use sim_base::NoMemory;
use std::alloc::Global;

/// A number is remembered at one of so many places.
const PLACES: usize = 65_536;

/// An odd number whose bits look random: 2^64 divided by the golden ratio.
const SPREAD: u64 = 0x9E37_79B9_7F4A_7C15;

/// What is above the bits that tell a place.
const BELOW_PLACE: u64 = 0x1_0000_0000_0000;

/// For each place the number that was given last to a cost of that place. Costs share places, so a number is a guess, and its cost has
/// to be looked at: that takes a tenth of the time of a search by hash.
#[derive(Drop)]
pub struct Guesses {
    numbers: Vec<u16>,
}

/// The place of a cost.
fn place_of(cost: Option<Cost>) -> usize {
    match cost {
        Some(cost) => {
            let mixed = cost.latency ^ u64::from(cost.reliability).rotate_left(32);
            (mixed.wrapping_mul(SPREAD) / BELOW_PLACE) as usize
        }
        None => 0,
    }
}

impl Guesses {
    /// None yet, and no place for any.
    pub fn new(alloc: Global) -> Guesses {
        Guesses {
            numbers: Vec::new(alloc),
        }
    }

    /// Makes places where there are none.
    pub fn open(&mut self, alloc: Global) -> Result<(), NoMemory> {
        if self.numbers.is_empty() {
            self.numbers = vec![in alloc; 0; PLACES]?;
        }
        Ok(())
    }

    /// The number that was given last to a cost of this one's place.
    pub fn get(&self, cost: Option<Cost>) -> Option<u16> {
        self.numbers.get(place_of(cost)).copied()
    }

    /// This cost was given this number.
    pub fn set(&mut self, cost: Option<Cost>, number: u16) {
        if let Some(slot) = self.numbers.get_mut(place_of(cost)) {
            *slot = number;
        }
    }
}
