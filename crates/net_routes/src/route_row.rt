//! The costs of the routes from one node.

ghost use Rattle.std.specs.Prelude.{◌≡◌, count_by, ◌==◌, length, Contains, All, MatchBool, IfOk, IfErr, OnErr, IsSome, None, slice_index_or};
ghost use Rattle.net_routes.specs.Needed.{IsNeeded};
ghost use Rattle.net_routes.specs.inside.Adjacency.{cost_to};
ghost use Rattle.net_routes.specs.inside.RouteRows.{IsRouteRow, NamesLack};

use crate::adjacency::Adjacency;
use crate::cost::Cost;
use crate::error::RouteError;
use crate::kept::Kept;
use sim_base::NoMemory;
use std::alloc::Global;
use std::marker::Model;

/// The costs of the routes from a node to each of the nodes of hosts, in the order of their ids,
/// where there are such.
pub struct RouteRow {
    costs: Vec<Kept>,
}

/// By hand: a derived one would be proved anew in each crate that drops such a value.
impl Drop for RouteRow {
    fn drop(self) {
        let RouteRow { costs } = self;
        drop(costs);
    }
}

impl Model for RouteRow {
    ghost use Rattle.std.specs.Prelude.{List, Option};
    ghost use Rattle.net_routes.specs.declared.cost.Cost.{Cost};

    ghost Value = { List (Option Cost) };

    ghost view = { λ l. l.costs.items };
}

impl RouteRow {
    pub fn len(&self) -> usize
        ensures { result ≡ length self.now }
    {
        self.costs.len()
    }

    /// The cost at a place, if there is one.
    pub fn get(&self, place: usize) -> Option<Cost>
        ensures { result ≡ slice_index_or self.now place None }
    {
        if place < self.costs.len() {
            self.costs[place].get()
        } else {
            None
        }
    }

    /// The same costs again.
    pub fn copy(&self, alloc: Global) -> Result<RouteRow, NoMemory>
        ensures { IfOk result (λ row. row ≡ self.now) }
    {
        let mut costs = Vec::with_capacity(alloc, self.costs.len())?;
        for kept in self.costs.as_slice() {
            costs.push(Kept::from(kept.get()))?;
        }
        Ok(RouteRow { costs })
    }
}

/// How many hosts are on a node.
pub(crate) fn hosts_on(nodes: &[u32], node: u32) -> usize
    ensures { result ≡ count_by (λ n. n == node) nodes.now }
{
    nodes.iter().filter(|other| **other == node).count()
}

/// Whether a host on the one node sends to another host on the other.
pub(crate) fn is_needed(nodes: &[u32], from: u32, to: u32) -> bool
    requires from { Contains nodes.now from }
    requires to { Contains nodes.now to }
    ensures { MatchBool result (IsNeeded nodes.now from to) (¬ IsNeeded nodes.now from to) }
{
    from != to || hosts_on(nodes, from) >= 2
}

/// The cost that was found for a node. One that hosts need has to be there.
fn found_cost(
    adjacency: &Adjacency,
    costs: &[Option<Cost>],
    nodes: &[u32],
    from: u32,
    to: u32,
) -> Result<Option<Cost>, RouteError>
    requires from { Contains nodes.now from }
    requires to { Contains nodes.now to }
    ensures ok { IfOk result (λ c. c ≡ cost_to adjacency.now.places costs.now to) }
    ensures whole { IfOk result (λ c. IsNeeded nodes.now from to → IsSome c) }
    ensures which { IfErr result (λ e. e ≡ RouteError.NoRoute from to) }
    ensures needed { OnErr result (IsNeeded nodes.now from to) }
    ensures none { OnErr result (cost_to adjacency.now.places costs.now to ≡ None) }
{
    match adjacency.cost_to(costs, to) {
        Some(cost) => Ok(Some(cost)),
        None => {
            if is_needed(nodes, from, to) {
                return Err(RouteError::NoRoute { from, to });
            }
            Ok(None)
        }
    }
}

/// The costs of the routes from a node, or the first that hosts need and that isn't there.
pub fn row_from(
    alloc: Global,
    adjacency: &Adjacency,
    costs: &[Option<Cost>],
    nodes: &[u32],
    stops: &[u32],
    from: u32,
) -> Result<RouteRow, RouteError>
    requires from { Contains nodes.now from }
    requires stops { All (Contains nodes.now) stops.now }
    ensures ok { IfOk result
        (IsRouteRow nodes.now stops.now from (cost_to adjacency.now.places costs.now)) }
    ensures err { IfErr result
        (NamesLack nodes.now stops.now from (cost_to adjacency.now.places costs.now)) }
{
    let mut row = Vec::with_capacity(alloc, stops.len())?;
    for to in stops {
        row.push(Kept::from(found_cost(adjacency, costs, nodes, from, *to)?))?;
    }
    Ok(RouteRow { costs: row })
}
