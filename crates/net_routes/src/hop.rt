//! Hops: the ways along the edges of a graph.

ghost use Rattle.std.specs.Prelude.{◌≡◌, ◌++◌, IfOk, OnOk};
ghost use Rattle.net_routes.specs.Walk.{along, against, ways, hops, AreHops};

use crate::cost::Cost;
use gml_graph::{Edge, Graph};
use sim_base::NoMemory;
use std::alloc::Global;

/// A way along an edge, from one node to another.
#[derive(Clone, Copy)]
pub struct Hop {
    pub from: u32,
    pub to: u32,
    pub cost: Cost,
}

fn cost_of(edge: Edge) -> Cost
    ensures { result ≡ (along edge).cost }
{
    Cost {
        latency: edge.latency.nanos,
        reliability: edge.reliability,
    }
}

fn push_ways(hops: &mut Vec<Hop>, directed: bool, edge: Edge) -> Result<(), NoMemory>
    ensures { OnOk result (hops.new.items ≡ hops.old.items ++ ways directed edge) }
{
    let cost = cost_of(edge);
    hops.push(Hop {
        from: edge.source,
        to: edge.target,
        cost,
    })?;
    if directed {
        return Ok(());
    }
    hops.push(Hop {
        from: edge.target,
        to: edge.source,
        cost,
    })?;
    Ok(())
}

/// The hops of a graph: along each edge, and against it too where the graph isn't directed.
pub fn hops_of(alloc: Global, graph: &Graph) -> Result<Vec<Hop>, NoMemory>
    ensures hops { IfOk result (λ found. found.items ≡ hops graph.now) }
    ensures sound { IfOk result (λ found. AreHops found.items) }
{
    let directed = graph.directed;
    let edges = graph.edges.as_slice();
    let mut found = Vec::new(alloc);
    for edge in edges {
        push_ways(&mut found, directed, *edge)?;
    }
    Ok(found)
}
