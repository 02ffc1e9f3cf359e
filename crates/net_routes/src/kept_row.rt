//! A row of routes as tables keep it.

ghost use Rattle.std.specs.Prelude.{◌≡◌, None, slice_index_or};
ghost use Rattle.net_routes.specs.inside.KeptRows.{row_in};

use crate::cost::Cost;
use crate::numbered_costs::NumberedCosts;
use crate::route_row::RouteRow;

/// The costs of the routes from a node: their numbers, or each cost where numbers didn't last.
#[derive(Drop)]
pub enum KeptRow {
    Numbers(Vec<u16>),
    Costs(RouteRow),
}

impl KeptRow {
    /// The cost at a place, if there is one.
    pub fn get(&self, costs: &NumberedCosts, place: usize) -> Option<Cost>
        ensures { result ≡ slice_index_or (row_in costs.now self.now) place None }
    {
        match self {
            KeptRow::Numbers(numbers) => costs.get(*numbers.get(place)?),
            KeptRow::Costs(row) => row.get(place),
        }
    }
}
