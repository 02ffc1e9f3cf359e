//! The edges of a graph.

ghost use Rattle.std.specs.Prelude.{◌≡◌, length};
ghost use Rattle.gml_graph.specs.Steps.{Gives, through};
ghost use Rattle.gml_graph.specs.Graph.{block, known_id, latency_of, edge_attribute, edge_row, new_edge, finished_edge, edge_of, edges_of};

use crate::block::{Part, next_block, rows_inside};
use crate::fault::{GmlError, GmlFault, GmlKind};
use crate::graph::{Edge, Edges};
use crate::node::NodeTable;
use crate::outline::OutlineRow;
use crate::token::Key;
use crate::value::{
    check_list, check_once, check_room, id, latency, loss, required, required_time, time,
};
use sim_base::Time;
use std::alloc::Global;

/// The most edges of a graph.
const MOST_EDGES: usize = 65_536;

/// The reliability of an edge that loses nothing, in units of 10^-9.
const ALL: u32 = 1_000_000_000;

/// What was read of an edge.
#[derive(Clone, Copy)]
pub struct EdgeDraft {
    pub source: Option<u32>,
    pub target: Option<u32>,
    pub latency: Option<Time>,
    pub loss: Option<u32>,
    pub jittered: bool,
    pub labelled: bool,
}

/// The id of some node.
fn id_of(nodes: &NodeTable, row: &OutlineRow) -> Result<u32, GmlFault>
    ensures { result ≡ known_id nodes.now row.now.value row.now.line }
{
    let id = id(row.value, row.line)?;
    if !nodes.knows(id) {
        return Err(GmlFault {
            line: row.line,
            kind: GmlKind::UnknownNode,
        });
    }
    Ok(id)
}

fn read_latency(row: &OutlineRow) -> Result<Time, GmlFault>
    ensures { result ≡ latency_of row.now.value row.now.line }
{
    latency(time(row.value, row.line)?, row.line)
}

fn read_attribute(
    nodes: &NodeTable,
    draft: EdgeDraft,
    row: &OutlineRow,
) -> Result<EdgeDraft, GmlFault>
    ensures { result ≡ edge_attribute row.now.key nodes.now draft row.now }
{
    let mut draft = draft;
    match row.key {
        Key::Source => {
            check_once(draft.source.is_some(), row.line)?;
            draft.source = Some(id_of(nodes, row)?);
        }
        Key::Target => {
            check_once(draft.target.is_some(), row.line)?;
            draft.target = Some(id_of(nodes, row)?);
        }
        Key::Latency => {
            check_once(draft.latency.is_some(), row.line)?;
            draft.latency = Some(read_latency(row)?);
        }
        Key::PacketLoss => {
            check_once(draft.loss.is_some(), row.line)?;
            draft.loss = Some(loss(row.value, row.line)?);
        }
        Key::Jitter => {
            check_once(draft.jittered, row.line)?;
            let _ = time(row.value, row.line)?;
            draft.jittered = true;
        }
        Key::Label => {
            check_once(draft.labelled, row.line)?;
            draft.labelled = true;
        }
        _ => {}
    }
    Ok(draft)
}

#[tactic(auto, unfolding(crate::specs::Graph::edge_row))]
fn read_row(nodes: &NodeTable, draft: EdgeDraft, row: &OutlineRow) -> Result<EdgeDraft, GmlFault>
    ensures { result ≡ edge_row nodes.now draft row.now }
{
    if row.depth == 2 {
        return read_attribute(nodes, draft, row);
    }
    Ok(draft)
}

fn read_rows(nodes: &NodeTable, rows: &[OutlineRow]) -> Result<EdgeDraft, GmlFault>
    ensures { result ≡ through (edge_row nodes.now) new_edge rows.now }
{
    let mut draft = EdgeDraft {
        source: None,
        target: None,
        latency: None,
        loss: None,
        jittered: false,
        labelled: false,
    };
    for row in rows {
        draft = read_row(nodes, draft, row)?;
    }
    Ok(draft)
}

#[tactic(auto, unfolding(crate::specs::Graph::finished_edge))]
fn finish(line: u64, draft: EdgeDraft) -> Result<Edge, GmlFault>
    ensures { result ≡ finished_edge line draft }
{
    let source = required(draft.source, line)?;
    let target = required(draft.target, line)?;
    let latency = required_time(draft.latency, line)?;
    Ok(Edge {
        source,
        target,
        latency,
        reliability: ALL.saturating_sub(draft.loss.unwrap_or(0)),
    })
}

/// Reads the edge of a row and of the rows inside it, behind `count` others.
#[tactic(auto, unfolding(crate::specs::Graph::edge_of))]
fn read_edge(
    nodes: &NodeTable,
    count: usize,
    row: &OutlineRow,
    behind: &[OutlineRow],
) -> Result<Edge, GmlFault>
    ensures { result ≡ edge_of nodes.now count (block row.now behind.now) }
{
    check_list(row.value, row.line)?;
    check_room(MOST_EDGES, count, row.line)?;
    let draft = read_rows(nodes, rows_inside(row.depth, behind))?;
    finish(row.line, draft)
}

/// Reads all edges.
#[tactic(auto, unfolding(crate::specs::Graph::edges_of, crate::specs::Graph::add_edge))]
pub fn read_edges(alloc: Global, nodes: &NodeTable, rows: &[OutlineRow]) -> Result<Edges, GmlError>
    ensures { Gives (λ edges. edges) result (edges_of nodes.now rows.now) }
{
    let mut edges = Vec::new(alloc);
    let mut rest = rows;
    while let Some((row, behind)) = next_block(Part::Edge, rest) {
        let edge = read_edge(nodes, edges.len(), row, behind)?;
        edges.push(edge)?;
        rest = behind;
    }
    Ok(Edges::new(edges))
}
