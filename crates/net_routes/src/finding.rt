//! Finds the routes that hosts need.

ghost use Rattle.std.specs.Prelude.{◌≡◌, ◌<◌, ◌≤◌, ◌++◌, All, Contains, IfOk, IfErr, OnOk, length, map, take, drop};
ghost use Rattle.net_routes.specs.inside.Found.{most_at_once, IsReady, AreStops, IsTurnedAt, IsToSearch, IsFound, IsSearched, AreSearched, oks, rows_found, IsStopped, AreFound, IsRefused};
ghost use Rattle.net_routes.specs.Routes.{HasRoutes, AreRoutes, AreSound, IsRefusal};
ghost use Rattle.net_routes.specs.Table.{IsTable};

use crate::adjacency::Adjacency;
use crate::error::RouteError;
use crate::hop::hops_of;
use crate::node_ids::NodeIds;
use crate::route_row::{RouteRow, row_from};
use crate::route_rows::RouteRows;
use crate::table::Routes;
use gml_graph::Graph;
use sim_base::NoMemory;
use std::alloc::Global;
use std::thread::{Threads, for_each_mut};

/// From so many nodes at most rows are found at once.
const AT_ONCE: usize = 64;

/// A node, and the costs of the routes from it once they are found.
#[derive(Drop)]
pub(crate) struct Search {
    pub(crate) from: u32,
    pub(crate) row: Result<RouteRow, RouteError>,
}

/// The costs of the routes from a node, or the first that hosts need and that isn't there.
fn find_row(
    alloc: Global,
    adjacency: &Adjacency,
    nodes: &[u32],
    stops: &[u32],
    shortest: bool,
    from: u32,
) -> Result<RouteRow, RouteError>
    requires adjacency { IsReady adjacency.now }
    requires from { Contains nodes.now from }
    requires stops { AreStops nodes.now stops.now }
    ensures { IsFound adjacency.now nodes.now stops.now shortest from result }
{
    let costs = adjacency.costs_from(alloc, from, shortest)?;
    row_from(alloc, adjacency, costs.as_slice(), nodes, stops, from)
}

/// Makes a search.
fn make_search(
    alloc: Global,
    adjacency: &Adjacency,
    nodes: &[u32],
    stops: &[u32],
    shortest: bool,
    each: &mut Search,
)
    requires adjacency { IsReady adjacency.now }
    requires from { IsToSearch nodes.now each.old }
    requires stops { AreStops nodes.now stops.now }
    ensures { IsSearched adjacency.now nodes.now stops.now shortest each.old each.new }
{
    each.row = find_row(alloc, adjacency, nodes, stops, shortest, each.from);
}

/// Makes all searches, in so many threads side by side. Where no thread can be made, they come one
/// after another.
fn make_searches<R: Threads + Sync>(
    rt: &R,
    alloc: Global,
    adjacency: &Adjacency,
    nodes: &[u32],
    stops: &[u32],
    shortest: bool,
    workers: u32,
    searches: &mut [Search],
)
    requires adjacency { IsReady adjacency.now }
    requires stops { AreStops nodes.now stops.now }
    requires workers { 0 < workers }
    requires from { All (IsToSearch nodes.now) searches.old }
    ensures { AreSearched adjacency.now nodes.now stops.now shortest searches.old searches.new }
{
    for_each_mut(
        rt,
        searches,
        workers as usize,
        &|_, each| { make_search(alloc, adjacency, nodes, stops, shortest, each) },
    );
}

/// The same for a vector of searches.
fn search_all<R: Threads + Sync>(
    rt: &R,
    alloc: Global,
    adjacency: &Adjacency,
    nodes: &[u32],
    stops: &[u32],
    shortest: bool,
    workers: u32,
    searches: &mut Vec<Search>,
)
    requires adjacency { IsReady adjacency.now }
    requires stops { AreStops nodes.now stops.now }
    requires workers { 0 < workers }
    requires from { All (IsToSearch nodes.now) searches.old.items }
    ensures { AreSearched adjacency.now nodes.now stops.now shortest searches.old.items searches.new.items }
{
    make_searches(
        rt,
        alloc,
        adjacency,
        nodes,
        stops,
        shortest,
        workers,
        searches.as_mut_slice(),
    );
}

/// Turns the search at a place to a node, or takes one more for it behind the others.
fn turn_one(searches: &mut Vec<Search>, place: usize, from: u32) -> Result<(), NoMemory>
    requires { place ≤ length searches.old.items }
    ensures { OnOk result (IsTurnedAt place from searches.old.items searches.new.items) }
{
    if place < searches.len() {
        searches[place].from = from;
        return Ok(());
    }
    searches.push(Search {
        from,
        row: Err(RouteError::NoMemory),
    })?;
    Ok(())
}

/// Turns searches to these nodes, and takes more of them where they are too few. What they found before stays until they find more, so
/// that its memory is used again.
fn turn_to(searches: &mut Vec<Search>, stops: &[u32]) -> Result<(), NoMemory>
    ensures { OnOk result (map (λ s. s.from) searches.new.items ≡ stops.now) }
{
    searches.truncate(stops.len());
    for place in 0..stops.len() {
        turn_one(searches, place, stops[place])?;
    }
    Ok(())
}

/// The next of the nodes behind so many.
fn next_stops(stops: &[u32], before: usize) -> &[u32]
    requires { before < length stops.now }
    ensures some { 0 < length result.now }
    ensures next { result.now ≡ take most_at_once (drop before stops.now) }
{
    let rest = &stops[before..];
    let (next, _) = rest.split_at(AT_ONCE.min(rest.len()));
    next
}

/// Adds the rows that were found, up to the first error.
fn add_found(alloc: Global, searches: &[Search], rows: &mut RouteRows) -> Result<(), RouteError>
    ensures ok { OnOk result (oks rows.new ≡ oks rows.old ++ rows_found searches.now) }
    ensures err { IfErr result (IsStopped (oks rows.old ++ rows_found searches.now)) }
{
    for each in searches {
        match &each.row {
            Ok(row) => rows.push(alloc, row)?,
            Err(error) => return Err(*error),
        }
    }
    Ok(())
}

/// Finds the rows from the next nodes. Only these are kept as they were found for a while: the
/// others need less room.
fn find_next<R: Threads + Sync>(
    rt: &R,
    alloc: Global,
    adjacency: &Adjacency,
    nodes: &[u32],
    stops: &[u32],
    shortest: bool,
    workers: u32,
    searches: &mut Vec<Search>,
    rows: &mut RouteRows,
) -> Result<(), RouteError>
    requires adjacency { IsReady adjacency.now }
    requires stops { AreStops nodes.now stops.now }
    requires workers { 0 < workers }
    requires left { length rows.old < length stops.now }
    requires found { AreFound adjacency.now nodes.now stops.now shortest (oks rows.old) }
    ensures ok { OnOk result (AreFound adjacency.now nodes.now stops.now shortest (oks rows.new)) }
    ensures more { OnOk result (length rows.old < length rows.new) }
    ensures err { IfErr result (IsRefused adjacency.now nodes.now stops.now shortest) }
{
    turn_to(searches, next_stops(stops, rows.len()))?;
    search_all(
        rt, alloc, adjacency, nodes, stops, shortest, workers, searches,
    );
    add_found(alloc, searches.as_slice(), rows)
}

/// Finds the rows from all nodes of hosts.
fn find_rows<R: Threads + Sync>(
    rt: &R,
    alloc: Global,
    adjacency: &Adjacency,
    nodes: &[u32],
    stops: &[u32],
    shortest: bool,
    workers: u32,
) -> Result<RouteRows, RouteError>
    requires adjacency { IsReady adjacency.now }
    requires stops { AreStops nodes.now stops.now }
    requires workers { 0 < workers }
    ensures ok { IfOk result
        (λ rows. AreFound adjacency.now nodes.now stops.now shortest (oks rows)) }
    ensures all { IfOk result (λ rows. length rows ≡ length stops.now) }
    ensures err { IfErr result (IsRefused adjacency.now nodes.now stops.now shortest) }
{
    let mut rows = RouteRows::new(alloc);
    let mut searches = Vec::new(alloc);
    while rows.len() < stops.len() {
        find_next(
            rt,
            alloc,
            adjacency,
            nodes,
            stops,
            shortest,
            workers,
            &mut searches,
            &mut rows,
        )?;
    }
    rows.shrink(alloc);
    Ok(rows)
}

/// The routes that hosts on these nodes need, one entry for each host, found by so many workers
/// side by side. With `shortest` a route between two nodes is the best walk, of any length;
/// otherwise, and from a node to itself, it is the best edge. The best one takes the least time,
/// and of those that do most arrives. The table has all routes between nodes of hosts, also those
/// that no hosts need, so graph and nodes determine it.
pub fn routes<R: Threads + Sync>(
    rt: &R,
    alloc: Global,
    graph: &Graph,
    nodes: &[u32],
    shortest: bool,
    workers: u32,
) -> Result<Routes, RouteError>
    requires { 0 < workers }
    ensures ok { IfOk result (AreRoutes graph.now shortest nodes.now) }
    ensures whole { IfOk result (HasRoutes nodes.now) }
    ensures sound { IfOk result (AreSound graph.now shortest) }
    ensures table { IfOk result (IsTable graph.now shortest nodes.now) }
    ensures err { IfErr result (IsRefusal graph.now shortest nodes.now) }
{
    let hops = hops_of(alloc, graph)?;
    let adjacency = Adjacency::new(alloc, hops.as_slice())?;
    let stops = NodeIds::from(Vec::from_slice(alloc, nodes)?);
    let ids = stops.as_slice();
    let rows = find_rows(rt, alloc, &adjacency, nodes, ids, shortest, workers)?;
    Ok(Routes { stops, rows })
}
