//! The search for the cheapest paths from a place to all others: the cheapest place that waits is
//! left first.

ghost use Rattle.std.specs.Prelude.{◌≡◌, ℕ, ◌+◌, ◌*◌, ◌<◌, ◌≤◌, ◌^◌, List, Option, length, All, None, Some, IfOk, IfSome, IfNone, IsSome, IsSomeAnd, OnOk};
ghost use Rattle.std.specs.BinaryHeap.{IsHeap, heap_items, heap_len};
ghost use Rattle.net_routes.specs.declared.arc.Arc.{Arc};
ghost use Rattle.net_routes.specs.declared.cost.Cost.{Cost};
ghost use Rattle.std.specs.List.{slice_index_or};
ghost use Rattle.net_routes.specs.inside.Found.{most_places};
ghost use Rattle.gml_graph.specs.Edges.{lossless};
ghost use Rattle.net_routes.specs.Cost.{and_then, IsAsGood};
ghost use Rattle.net_routes.specs.inside.Path.{AreArcs, IsArc, HasPath, IsBest};
ghost use Rattle.net_routes.specs.inside.Search.{entry_order, IsSearch, IsNext, AddsArcs};

use crate::arc::{Arc, Arcs};
use crate::cost::{Cost, extended, no_cost};
use sim_base::NoMemory;
use std::alloc::Global;
use std::cmp::Reverse;
use std::collections::BinaryHeap;

/// A place that waits to be left, after so many nanoseconds. The greatest is the soonest.
#[derive_where(Clone, Copy, Debug, PartialEq, Eq, PartialOrd, Ord)]
pub struct Entry {
    pub latency: Reverse<u64>,
    #[derive_where(skip(EqHashOrd))]
    pub place: usize,
}

fn entry_at(latency: u64, place: usize) -> Entry
    ensures { (result.latency.0 ≡ latency) × (result.place ≡ place) }
{
    Entry {
        latency: Reverse(latency),
        place,
    }
}

/// The cost that is known of a place.
fn known_cost(known: &[Option<Cost>], place: usize) -> Cost
    requires within { place < length known.now }
    requires known { IsSome (slice_index_or known.now place None) }
    ensures { slice_index_or known.now place None ≡ Some result }
{
    match known[place] {
        Some(cost) => cost,
        None => unreachable!(),
    }
}

/// The first entry of a place that wasn't left yet.
fn next_entry(waiting: &mut BinaryHeap<Entry>, best: &[Option<Cost>]) -> Option<Entry>
    requires heap { IsHeap entry_order (heap_items waiting.old) }
    requires places { All (λ e. e.place < length best.now) (heap_items waiting.old) }
    ensures heap { IsHeap entry_order (heap_items waiting.new) }
    ensures next { (rows : List (List Arc)) (start : ℕ) (known : List (Option Cost))
        → IsSearch rows start best.now known (heap_items waiting.old)
        → IsNext rows start best.now known result (heap_items waiting.new) }
{
    while let Some(entry) = waiting.pop() {
        if best[entry.place].is_none() {
            return Some(entry);
        }
    }
    None
}

/// The cost of a walk and then of a hop, if nothing as good is known.
fn improved(known: Option<Cost>, cost: Cost, hop: Cost) -> Option<Cost>
    requires room { cost.latency + hop.latency < 2 ^ 64 }
    requires before { cost.reliability ≤ lossless }
    requires part { hop.reliability ≤ lossless }
    ensures some { IfSome result (λ c. c ≡ and_then cost hop) }
    ensures better { IfSome result (λ c. IfSome known (IsAsGood c)) }
    ensures none { IfNone result (IsSomeAnd known (λ c. IsAsGood c (and_then cost hop))) }
{
    let Some(other) = known else {
        return Some(extended(cost, hop));
    };
    if other.latency < cost.latency + hop.latency {
        return None;
    }
    let found = extended(cost, hop);
    if other.latency == found.latency && found.reliability <= other.reliability {
        return None;
    }
    Some(found)
}

/// Lets the ends of the arcs of a place that was left at this cost wait, but for those of which as
/// good a cost is known.
fn add_arcs(
    waiting: &mut BinaryHeap<Entry>,
    known: &mut [Option<Cost>],
    cost: Cost,
    arcs: &[Arc],
) -> Result<(), NoMemory>
    requires ends { All (IsArc (length known.old)) arcs.now }
    requires room { cost.latency < 2 ^ 62 }
    requires part { cost.reliability ≤ lossless }
    ensures heap { IsHeap entry_order (heap_items waiting.old)
        → IsHeap entry_order (heap_items waiting.new) }
    ensures adds { OnOk result (AddsArcs cost arcs.now known.old known.new
        (heap_items waiting.old) (heap_items waiting.new)) }
{
    for arc in arcs {
        if let Some(found) = improved(known[arc.to], cost, arc.cost) {
            known[arc.to] = Some(found);
            waiting.push(entry_at(found.latency, arc.to))?;
        }
    }
    Ok(())
}

/// The cheapest cost of a path from a place to each other, where there is one.
pub fn cheapest_paths(
    alloc: Global,
    rows: &[Arcs],
    start: usize,
) -> Result<Vec<Option<Cost>>, NoMemory>
    requires start { start < length rows.now }
    requires arcs { AreArcs rows.now }
    requires few { length rows.now ≤ most_places }
    ensures size { IfOk result (λ best. length best.items ≡ length rows.now) }
    ensures best { IfOk result
        (λ best. IsBest (HasPath rows.now start) (λ place. slice_index_or best.items place None)) }
{
    let mut best = vec![in alloc; None; rows.len()]?;
    let mut known = vec![in alloc; None; rows.len()]?;
    let mut waiting = BinaryHeap::new(alloc);
    known[start] = Some(no_cost());
    waiting.push(entry_at(0, start))?;
    for _ in 0..rows.len() {
        let Some(entry) = next_entry(&mut waiting, &best) else {
            return Ok(best);
        };
        let cost = known_cost(&known, entry.place);
        best[entry.place] = Some(cost);
        add_arcs(&mut waiting, &mut known, cost, rows[entry.place].as_slice())?;
    }
    Ok(best)
}
