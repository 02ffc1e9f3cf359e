//! The graph of the network.

ghost use Rattle.std.specs.Prelude.{◌≡◌, IfSome, IfOk};
ghost use Rattle.run_plan.specs.Network.{one_gbit_switch, graph_at, graph_in, network};
ghost use Rattle.run_plan.specs.Reading.{gives, Meets, CountsSource};

use crate::fault::{Fault, ReadStop};
use crate::file::read_file;
use base_texts::Name;
use gml_graph::{Edge, Edges, GmlError, Graph, Node, Nodes, read_gml};
use run_outside::Source;
use shd_config::GraphSource;
use sim_base::{NoMemory, Time};
use std::alloc::Global;

/// One node with 1 Gbit both ways, and a loop of 1 ms without loss.
fn one_gbit_switch(alloc: Global) -> Result<Graph, NoMemory>
    ensures { IfOk result (λ g. g ≡ one_gbit_switch) }
{
    let node = Node {
        id: 0,
        bandwidth_up: Some(1_000_000_000),
        bandwidth_down: Some(1_000_000_000),
    };
    let edge = Edge {
        source: 0,
        target: 0,
        latency: Time { nanos: 1_000_000 },
        reliability: 1_000_000_000,
    };
    let nodes = Vec::from_slice(alloc, &[node])?;
    let edges = Vec::from_slice(alloc, &[edge])?;
    Ok(Graph {
        directed: false,
        nodes: Nodes::from(nodes),
        edges: Edges::new(edges),
    })
}

/// The graph of a text, which stands in this file, or inside the configuration in this file.
fn parse_graph(alloc: Global, file: &str, inline: bool, text: &[u8]) -> Result<Graph, ReadStop>
    ensures { Meets (λ g. g) (gives (graph_at file.now inline text.now)) result }
{
    match read_gml(alloc, text) {
        Ok(graph) => Ok(graph),
        Err(GmlError::Fault(fault)) => {
            let file = Name::from_str(alloc, file)?;
            Err(ReadStop::Refused(Fault::Graph {
                file,
                inline,
                fault,
            }))
        }
        Err(GmlError::NoMemory) => Err(ReadStop::NoMemory),
    }
}

/// The graph in a file.
fn read_graph<S: Source>(alloc: Global, source: &mut S, file: &str) -> Result<Graph, ReadStop>
    ensures told { IfSome (S.held source.old) (λ held. Meets (λ g. g) (graph_in held file.now) result) }
    ensures same { S.held source.new ≡ S.held source.old }
    ensures count { CountsSource result (S.faults source.old) (S.faults source.new) }
{
    let text = read_file(alloc, source, file)?;
    parse_graph(alloc, file, false, &text)
}

/// The graph of the configuration in the file `name`.
pub fn read_network<S: Source>(
    alloc: Global,
    source: &mut S,
    name: &str,
    graph: &GraphSource,
) -> Result<Graph, ReadStop>
    ensures told { IfSome (S.held source.old) (λ held. Meets (λ g. g) (network held name.now graph.now) result) }
    ensures same { S.held source.new ≡ S.held source.old }
    ensures count { CountsSource result (S.faults source.old) (S.faults source.new) }
{
    match graph {
        GraphSource::OneGbitSwitch => Ok(one_gbit_switch(alloc)?),
        GraphSource::Inline(text) => parse_graph(alloc, name, true, text.as_bytes()),
        GraphSource::File(file) => read_graph(alloc, source, file.as_str()),
    }
}
