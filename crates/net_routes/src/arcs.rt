//! The cheapest of the arcs that leave a place, to each other place.

ghost use Rattle.std.specs.Prelude.{◌≡◌, ◌⊎◌, None, Some, length, All, IfOk, IfSome};
ghost use Rattle.std.specs.List.{slice_index_or};
ghost use Rattle.net_routes.specs.Cost.{IsAsGood, IsHopCost};
ghost use Rattle.net_routes.specs.inside.Path.{IsArc, HasArc, IsBest, IsBestTo};

use crate::arc::Arc;
use crate::cost::{Cost, better, extended, no_cost};
use sim_base::NoMemory;
use std::alloc::Global;

/// The better of a cost that may be known and another one.
fn better_of(known: Option<Cost>, cost: Cost) -> Cost
    ensures either { (known ≡ Some result) ⊎ (result ≡ cost) }
    ensures known { IfSome known (IsAsGood result) }
    ensures cost { IsAsGood result cost }
{
    match known {
        Some(other) => better(other, cost),
        None => better(cost, cost),
    }
}

/// The cheapest cost of an arc to each place, where there is one.
pub fn cheapest_arcs(
    alloc: Global,
    places: usize,
    arcs: &[Arc],
) -> Result<Vec<Option<Cost>>, NoMemory>
    requires { All (IsArc places) arcs.now }
    ensures size { IfOk result (λ best. length best.items ≡ places) }
    ensures best { IfOk result
        (λ best. IsBest (HasArc arcs.now) (λ place. slice_index_or best.items place None)) }
{
    let mut best = vec![in alloc; None; places]?;
    for arc in arcs {
        let cost = better_of(best[arc.to], extended(no_cost(), arc.cost));
        best[arc.to] = Some(cost);
    }
    Ok(best)
}

/// The cheapest cost of an arc to one place, where there is one.
pub fn cheapest_arc(arcs: &[Arc], place: usize) -> Option<Cost>
    requires { All (λ x. IsHopCost x.cost) arcs.now }
    ensures { IsBestTo arcs.now place result }
{
    let mut best = None;
    for arc in arcs {
        if arc.to == place {
            best = Some(better_of(best, extended(no_cost(), arc.cost)));
        }
    }
    best
}
