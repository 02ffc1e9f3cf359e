//! From the bytes of a text to its graph.

ghost use Rattle.std.specs.Prelude.{◌≡◌, MatchResult, Ok, Err};
ghost use Rattle.gml_graph.specs.Steps.{Gives};
ghost use Rattle.gml_graph.specs.Outline.{outline};
ghost use Rattle.gml_graph.specs.Graph.{graph_of};
ghost use Rattle.gml_graph.specs.Gml.{graph, utf8_at};

use crate::block::{read_directed, read_graph_rows};
use crate::edge::read_edges;
use crate::fault::{GmlError, GmlFault, GmlKind};
use crate::graph::Graph;
use crate::node::read_nodes;
use crate::outline::{OutlineRow, read_outline};
use crate::scanner::line_behind;
use std::alloc::Global;

/// The graph of the rows of a text.
#[tactic(auto, unfolding(crate::specs::Graph::graph_of))]
fn read_graph(alloc: Global, rows: &[OutlineRow]) -> Result<Graph, GmlError>
    ensures { Gives (λ graph. graph) result (graph_of rows.now) }
{
    let inner = read_graph_rows(rows)?;
    let directed = read_directed(inner)?;
    let nodes = read_nodes(alloc, inner)?;
    let edges = read_edges(alloc, &nodes, inner)?;
    Ok(Graph {
        directed,
        nodes: nodes.into_nodes(),
        edges,
    })
}

/// The text that the bytes spell.
fn text_of(bytes: &[u8]) -> Result<&str, GmlFault>
    ensures { MatchResult result (λ text. (text.now ≡ bytes.now) × (utf8_at bytes.now ≡ Ok tt))
        (λ fault. utf8_at bytes.now ≡ Err fault) }
{
    match str::from_utf8(bytes) {
        Ok(text) => Ok(text),
        Err(e) => Err(GmlFault {
            line: line_behind(1, &bytes[..e.valid_up_to()]),
            kind: GmlKind::NotUtf8,
        }),
    }
}

/// Reads the graph of a GML text, or its first fault.
#[tactic(auto, using(crate::proofs::AskedLemmas::graph_of_asked), unfolding(crate::specs::Gml::graph, crate::specs::inside::Asked::asked_outline))]
pub fn read_gml(alloc: Global, text: &[u8]) -> Result<Graph, GmlError>
    ensures { Gives (λ found. found) result (graph text.now) }
{
    let text = text_of(text)?;
    let rows = read_outline(alloc, text)?;
    read_graph(alloc, &rows)
}
