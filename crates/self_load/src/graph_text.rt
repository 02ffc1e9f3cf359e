//! The file of a self-load's graph.

ghost use Rattle.std.specs.Prelude.{◌≡◌, ◌≤◌, ◌<◌, string_bytes, Ok, IfOk};
ghost use Rattle.std.specs.List.{flat_map, range_with_len};
ghost use Rattle.sim_base.specs.Limits.{most_ring_hosts};
ghost use Rattle.gml_graph.specs.Gml.{graph};
ghost use Rattle.run_plan.specs.SelfLoad.{next_host, self_load_graph};
ghost use Rattle.self_load.specs.GraphText.{node_line, loss_word, edge_line, graph_text};

use base_texts::Text;
use sim_base::NoMemory;
use std::alloc::Global;

/// The share of packets that the edge from this node loses.
fn loss(host: u32) -> &'static str
    ensures { result.now ≡ loss_word host }
{
    if host % 4 == 3 { "1.0" } else { "0.0" }
}

fn node_line(alloc: Global, node: u32) -> Result<String, NoMemory>
    ensures { IfOk result (λ s. string_bytes s ≡ node_line node) }
{
    Ok(format!(in alloc; "  node [ id {node} ]\n")?)
}

/// The edge from a node to the next one.
fn edge_line(alloc: Global, hosts: u32, host: u32) -> Result<String, NoMemory>
    requires some { 0 < hosts }
    requires few { hosts ≤ most_ring_hosts }
    requires within { host < hosts }
    ensures { IfOk result (λ s. string_bytes s ≡ edge_line hosts host) }
{
    let next = (host + 1) % hosts;
    let milliseconds = 1 + host % 7;
    let loss = loss(host);
    Ok(format!(in alloc;
        "  edge [ source {host} target {next} latency \"{milliseconds} ms\" packet_loss {loss} ]\n"
    )?)
}

fn node_lines(alloc: Global, hosts: u32) -> Result<Text, NoMemory>
    ensures { IfOk result (λ text. text ≡ flat_map node_line (range_with_len 0 hosts)) }
{
    let mut lines = Text::new(alloc);
    for node in 0..hosts {
        let line = node_line(alloc, node)?;
        lines.push_str(line.as_str())?;
    }
    Ok(lines)
}

fn edge_lines(alloc: Global, hosts: u32) -> Result<Text, NoMemory>
    requires some { 0 < hosts }
    requires few { hosts ≤ most_ring_hosts }
    ensures { IfOk result (λ text. text ≡ flat_map (edge_line hosts) (range_with_len 0 hosts)) }
{
    let mut lines = Text::new(alloc);
    for host in 0..hosts {
        let line = edge_line(alloc, hosts, host)?;
        lines.push_str(line.as_str())?;
    }
    Ok(lines)
}

/// The text of the graph of a ring of hosts.
#[tactic(auto, unfolding(crate::specs::GraphText::graph_text))]
fn ring_text(alloc: Global, hosts: u32) -> Result<Text, NoMemory>
    requires some { 0 < hosts }
    requires few { hosts ≤ most_ring_hosts }
    ensures { IfOk result (λ text. text ≡ graph_text hosts) }
{
    let nodes = node_lines(alloc, hosts)?;
    let edges = edge_lines(alloc, hosts)?;
    let nodes = nodes.as_str();
    let edges = edges.as_str();
    let text = format!(in alloc; "graph [\n  directed 1\n{nodes}{edges}]\n")?;
    Ok(Text::from(text))
}

/// A text that reads as the graph of a self-load.
pub fn graph_file(alloc: Global, hosts: u32) -> Result<Text, NoMemory>
    requires some { 2 ≤ hosts }
    requires few { hosts ≤ most_ring_hosts }
    ensures { IfOk result (λ text. graph text ≡ Ok (self_load_graph hosts)) }
{
    ring_text(alloc, hosts)
}
