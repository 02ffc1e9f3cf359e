//! The costs of the routes from all nodes of hosts.

ghost use Rattle.std.specs.Prelude.{◌≡◌, ◌≤◌, ◌^◌, ◌⊎◌, [], ◌∷◌, ◌++◌, length, IfOk, OnOk};
ghost use Rattle.net_routes.specs.inside.RouteRows.{cost_at};
ghost use Rattle.net_routes.specs.inside.KeptRows.{row_in, HasCosts, HasNumbers};
ghost use Rattle.net_routes.specs.inside.Numbers.{KeepNumbers, GetNumbers};

use crate::cost::Cost;
use crate::kept_row::KeptRow;
use crate::numbered_costs::NumberedCosts;
use crate::route_row::RouteRow;
use sim_base::NoMemory;
use std::alloc::Global;
use std::marker::Model;

/// The costs of the routes from each of the nodes of hosts, in the order of their ids. What many
/// pairs cost is kept once.
#[derive(Drop)]
pub struct RouteRows {
    costs: NumberedCosts,
    rows: Vec<KeptRow>,
}

impl Model for RouteRows {
    ghost use Rattle.std.specs.Prelude.{List, Option, map, All};
    ghost use Rattle.net_routes.specs.declared.cost.Cost.{Cost};
    ghost use Rattle.net_routes.specs.inside.KeptRows.{row_in, HasCosts};

    ghost Value = { List (List (Option Cost)) };

    ghost view = { λ r. map (row_in r.costs) r.rows.items };

    ghost invariant = { λ r. All (HasCosts r.costs) r.rows.items };
}

/// A row as it is kept.
fn keep_row(alloc: Global, costs: &mut NumberedCosts, row: &RouteRow) -> Result<KeptRow, NoMemory>
    ensures row { IfOk result (λ kept. row_in costs.new kept ≡ row.now) }
    ensures costs { IfOk result (HasCosts costs.new) }
    ensures kept { KeepNumbers costs.old costs.new }
    ensures added { GetNumbers row.now costs.old costs.new }
    ensures numbered { IfOk result (λ kept. HasNumbers kept ⊎ (2 ^ 16 ≤ length costs.new)) }
{
    match costs.numbers_of(alloc, row)? {
        Some(numbers) => Ok(KeptRow::Numbers(numbers)),
        None => Ok(KeptRow::Costs(row.copy(alloc)?)),
    }
}

impl RouteRows {
    pub fn new(alloc: Global) -> RouteRows
        ensures { result ≡ [] }
    {
        RouteRows {
            costs: NumberedCosts::new(alloc),
            rows: Vec::new(alloc),
        }
    }

    pub fn len(&self) -> usize
        ensures { result ≡ length self.now }
    {
        self.rows.len()
    }

    /// Adds the row of the next node.
    pub fn push(&mut self, alloc: Global, row: &RouteRow) -> Result<(), NoMemory>
        ensures { OnOk result (self.new ≡ self.old ++ row.now ∷ []) }
    {
        let kept = keep_row(alloc, &mut self.costs, row)?;
        self.rows.push(kept)?;
        Ok(())
    }

    /// Lets go of what only new rows would need.
    pub fn shrink(&mut self, alloc: Global)
        ensures { self.new ≡ self.old }
    {
        self.costs.shrink(alloc);
    }

    /// The cost at the places of two nodes, if there is one.
    pub fn get(&self, from: usize, to: usize) -> Option<Cost>
        ensures { result ≡ cost_at self.now from to }
    {
        let row = self.rows.get(from)?;
        row.get(&self.costs, to)
    }
}
