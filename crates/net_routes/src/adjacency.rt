//! The arcs that leave each node of a graph, over the places of the nodes.

ghost use Rattle.std.specs.Prelude.{◌≡◌, ◌<◌, ◌≤◌, ◌+◌, ◌*◌, ℕ, List, None, [], length, All, Contains, IfOk, OnOk};
ghost use Rattle.std.specs.List.{slice_index_or};
ghost use Rattle.net_routes.specs.inside.Found.{most_places};
ghost use Rattle.net_routes.specs.declared.hop.Hop.{Hop};
ghost use Rattle.net_routes.specs.Walk.{AreHops, Goes};
ghost use Rattle.net_routes.specs.inside.Path.{AreArcs, HasWay, IsBest};
ghost use Rattle.net_routes.specs.inside.Adjacency.{ends_of, IsAdjacency, AddsArc, cost_to};

use crate::arc::{Arc, Arcs};
use crate::arcs::{cheapest_arc, cheapest_arcs};
use crate::cost::Cost;
use crate::hop::Hop;
use crate::node_ids::NodeIds;
use crate::search::cheapest_paths;
use sim_base::NoMemory;
use std::alloc::Global;

/// The places of the nodes that hops join, and the arcs that leave each.
#[derive(Drop)]
pub struct Adjacency {
    pub places: NodeIds,
    pub rows: Vec<Arcs>,
}

/// The ids of the nodes that hops join.
fn ends_of(alloc: Global, hops: &[Hop]) -> Result<Vec<u32>, NoMemory>
    ensures size { IfOk result (λ ends. length ends.items ≡ 2 * length hops.now) }
    ensures ends { IfOk result (λ ends. All
        (λ s. Contains ends.items s.from × Contains ends.items s.to) hops.now) }
    ensures all { IfOk result (λ ends. ends.items ≡ ends_of hops.now) }
{
    let mut ends = Vec::new(alloc);
    for hop in hops {
        ends.push(hop.from)?;
        ends.push(hop.to)?;
    }
    Ok(ends)
}

fn empty_rows(alloc: Global, count: usize) -> Result<Vec<Arcs>, NoMemory>
    ensures size { IfOk result (λ rows. length rows.items ≡ count) }
    ensures empty { IfOk result (λ rows. All (λ row. row ≡ []) rows.items) }
{
    let mut rows = Vec::new(alloc);
    for _ in 0..count {
        rows.push(Arcs::new(alloc))?;
    }
    Ok(rows)
}

/// Adds the arc of a hop.
fn add_arc(rows: &mut Vec<Arcs>, places: &NodeIds, hop: &Hop) -> Result<(), NoMemory>
    requires from { Contains places.now hop.now.from }
    requires to { Contains places.now hop.now.to }
    requires size { length rows.old.items ≡ length places.now }
    ensures { OnOk result (AddsArc places.now hop.now rows.old.items rows.new.items) }
{
    let place = places.place(hop.from);
    let arc = Arc {
        to: places.place(hop.to),
        cost: hop.cost,
    };
    let row = &mut rows[place];
    row.push(arc)?;
    Ok(())
}

fn rows_of(alloc: Global, places: &NodeIds, hops: &[Hop]) -> Result<Vec<Arcs>, NoMemory>
    requires { All (λ s. Contains places.now s.from × Contains places.now s.to) hops.now }
    ensures { IfOk result (λ rows. IsAdjacency hops.now places.now rows.items) }
{
    let mut rows = empty_rows(alloc, places.len())?;
    for hop in hops {
        add_arc(&mut rows, places, hop)?;
    }
    Ok(rows)
}

/// The best costs from a place to each place, of the walks by which a route may go.
fn costs_of(
    alloc: Global,
    rows: &[Arcs],
    start: usize,
    shortest: bool,
) -> Result<Vec<Option<Cost>>, NoMemory>
    requires start { start < length rows.now }
    requires arcs { AreArcs rows.now }
    requires few { length rows.now ≤ most_places }
    ensures { IfOk result
        (λ best. IsBest (HasWay rows.now shortest start) (λ v. slice_index_or best.items v None)) }
{
    let arcs = rows[start].as_slice();
    if !shortest {
        let alone = cheapest_arcs(alloc, rows.len(), arcs)?;
        return Ok(alone);
    }
    let mut best = cheapest_paths(alloc, rows, start)?;
    best[start] = cheapest_arc(arcs, start);
    Ok(best)
}

impl Adjacency {
    pub fn new(alloc: Global, hops: &[Hop]) -> Result<Adjacency, NoMemory>
        requires { AreHops hops.now }
        ensures adjacency { IfOk result (λ adjacency. IsAdjacency hops.now adjacency.places adjacency.rows.items) }
        ensures arcs { IfOk result (λ adjacency. AreArcs adjacency.rows.items) }
        ensures few { IfOk result (λ adjacency. length adjacency.rows.items ≤ most_places) }
        ensures size { IfOk result (λ adjacency. length adjacency.rows.items ≡ length adjacency.places) }
    {
        let places = NodeIds::from(ends_of(alloc, hops)?);
        let rows = rows_of(alloc, &places, hops)?;
        Ok(Adjacency { places, rows })
    }

    /// The best costs from a node to each place, of the walks by which a route may go.
    pub fn costs_from(
        &self,
        alloc: Global,
        node: u32,
        shortest: bool,
    ) -> Result<Vec<Option<Cost>>, NoMemory>
        requires arcs { AreArcs self.now.rows.items }
        requires few { length self.now.rows.items ≤ most_places }
        requires size { length self.now.rows.items ≡ length self.now.places }
        ensures { (hops : List Hop) → IsAdjacency hops self.now.places self.now.rows.items →
            IfOk result (λ costs. IsBest (Goes hops shortest node)
            (cost_to self.now.places costs.items)) }
    {
        match self.places.find(node) {
            Some(start) => costs_of(alloc, &self.rows, start, shortest),
            None => Ok(Vec::new(alloc)),
        }
    }

    /// What was found for a node.
    pub fn cost_to(&self, costs: &[Option<Cost>], node: u32) -> Option<Cost>
        ensures { result ≡ cost_to self.now.places costs.now node }
    {
        let place = self.places.find(node)?;
        if place < costs.len() {
            costs[place]
        } else {
            None
        }
    }
}
