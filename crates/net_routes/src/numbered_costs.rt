//! Costs under numbers.

ghost use Rattle.std.specs.Prelude.{◌≡◌, ◌≤◌, ◌^◌, [], IfOk, IfSome, IfNone, Some, None, length, map, slice_get, slice_index_or};
ghost use Rattle.std.specs.Bool.{OnTrue};
ghost use Rattle.net_routes.specs.inside.Numbers.{KeepNumbers, GetsNumberIf, GetNumbers};

use crate::cost::Cost;
use crate::guesses::Guesses;
use crate::kept::Kept;
use crate::route_row::RouteRow;
use sim_base::NoMemory;
use std::alloc::Global;
use std::collections::HashMap;
use std::marker::Model;

/// Costs under numbers, the number of each being its index. A number takes two bytes, so there are
/// at most 65,536.
#[derive(Drop)]
pub struct NumberedCosts {
    costs: Vec<Kept>,
    numbers: HashMap<Option<Cost>, u16>,
    guesses: Guesses,
}

impl Model for NumberedCosts {
    ghost use Rattle.std.specs.Prelude.{List, Option};
    ghost use Rattle.std.specs.Option.{option_eq};
    ghost use Rattle.std.specs.HashMap.{get};
    ghost use Rattle.net_routes.specs.declared.cost.Cost.{Cost};
    ghost use Rattle.net_routes.specs.inside.Numbers.{same_cost, AreNumbers};

    ghost Value = { List (Option Cost) };

    ghost view = { λ n. n.costs.items };

    ghost invariant = { λ n. AreNumbers n.costs.items (get (option_eq same_cost) n.numbers) };
}

impl NumberedCosts {
    pub fn new(alloc: Global) -> NumberedCosts
        ensures { result ≡ [] }
    {
        NumberedCosts {
            costs: Vec::new(alloc),
            numbers: HashMap::new(alloc),
            guesses: Guesses::new(alloc),
        }
    }

    /// The cost under a number, if there is one.
    pub fn get(&self, number: u16) -> Option<Cost>
        ensures { result ≡ slice_index_or self.now number None }
    {
        let place = number as usize;
        if place < self.costs.len() {
            self.costs[place].get()
        } else {
            None
        }
    }

    /// The number of a cost. One that has none gets the next, and nothing where all are taken.
    fn number_of(&mut self, cost: Option<Cost>) -> Result<Option<u16>, NoMemory>
        ensures number { IfOk result (λ o. IfSome o (λ n. slice_get self.new n ≡ Some cost)) }
        ensures full { IfOk result (λ o. IfNone o (2 ^ 16 ≤ length self.new)) }
        ensures kept { KeepNumbers self.old self.new }
        ensures added { GetsNumberIf cost self.old self.new }
    {
        if let Some(number) = self.numbers.get(&cost).copied() {
            return Ok(Some(number));
        }
        match u16::try_from(self.costs.len()) {
            Ok(number) => {
                self.costs.push(Kept::from(cost))?;
                self.numbers.insert(cost, number)?;
                Ok(Some(number))
            }
            Err(_) => Ok(None),
        }
    }

    /// Whether a cost has this number.
    fn is_under(&self, number: u16, cost: Option<Cost>) -> bool
        ensures { OnTrue result (slice_get self.now number ≡ Some cost) }
    {
        match self.costs.get(number as usize) {
            Some(kept) => kept.get() == cost,
            None => false,
        }
    }

    /// The number of a cost, where it is the one behind another number, or the one that a cost of its place had last.
    fn guessed(&self, near: u16, cost: Option<Cost>) -> Option<u16>
        ensures { IfSome result (λ n. slice_get self.now n ≡ Some cost) }
    {
        let next = near.wrapping_add(1);
        if self.is_under(next, cost) {
            return Some(next);
        }
        let last = self.guesses.get(cost)?;
        if self.is_under(last, cost) {
            return Some(last);
        }
        None
    }

    /// The number of a cost, as `number_of` tells it. It is guessed first: costs that follow one another in a row often have numbers
    /// that do, and the others were asked for before.
    fn number_from(&mut self, near: u16, cost: Option<Cost>) -> Result<Option<u16>, NoMemory>
        ensures number { IfOk result (λ o. IfSome o (λ n. slice_get self.new n ≡ Some cost)) }
        ensures full { IfOk result (λ o. IfNone o (2 ^ 16 ≤ length self.new)) }
        ensures kept { KeepNumbers self.old self.new }
        ensures added { GetsNumberIf cost self.old self.new }
    {
        if let Some(number) = self.guessed(near, cost) {
            return Ok(Some(number));
        }
        let found = self.number_of(cost)?;
        if let Some(number) = found {
            self.guesses.set(cost, number);
        }
        Ok(found)
    }

    /// The numbers of the costs of a row, or nothing where numbers don't last: all 65,536 are taken.
    pub fn numbers_of(
        &mut self,
        alloc: Global,
        row: &RouteRow,
    ) -> Result<Option<Vec<u16>>, NoMemory>
        ensures numbers { IfOk result
            (λ o. IfSome o (λ numbers. map (slice_get self.new) numbers.items ≡ map Some row.now)) }
        ensures full { IfOk result (λ o. IfNone o (2 ^ 16 ≤ length self.new)) }
        ensures kept { KeepNumbers self.old self.new }
        ensures added { GetNumbers row.now self.old self.new }
    {
        let mut numbers = Vec::with_capacity(alloc, row.len())?;
        self.guesses.open(alloc)?;
        let mut near = 0;
        for place in 0..row.len() {
            match self.number_from(near, row.get(place))? {
                Some(number) => {
                    numbers.push(number)?;
                    near = number;
                }
                None => return Ok(None),
            }
        }
        Ok(Some(numbers))
    }

    /// Lets go of what only new costs would need.
    pub fn shrink(&mut self, alloc: Global)
        ensures { self.new ≡ self.old }
    {
        self.numbers = HashMap::new(alloc);
        self.guesses = Guesses::new(alloc);
    }
}
