//! The key `network`.

ghost use Rattle.std.specs.Prelude.{◌≡◌};
ghost use Rattle.shd_config.specs.Steps.{Gives, Sets, optional, through};
ghost use Rattle.shd_config.specs.Values.{scalar_at};
ghost use Rattle.shd_config.specs.Network.{queue_rule, new_network, network_key, network_row, finished_network, network_of, network_at};

use crate::config::GraphSource;
use crate::fault::{ConfigError, ConfigKind};
use crate::graph::read_graph;
use crate::key::{Key, key_of};
use crate::optional::optional_truth;
use crate::setting::{set, set_some};
use crate::steps::{below, mapping_line, needed, refused, valued};
use crate::value::{read_mapping, read_text};
use net_iface::QueueRule;
use std::alloc::Global;
use yaml_merge::Pair;

/// What `network` sets.
#[derive(Drop)]
pub struct Network {
    pub graph: GraphSource,
    pub use_shortest_path: bool,
    pub router_queue: QueueRule,
}

/// What was read of `network`.
#[derive(Drop)]
pub struct NetworkDraft {
    pub graph: Option<GraphSource>,
    pub use_shortest_path: Option<bool>,
    pub router_queue: Option<QueueRule>,
}

fn queue_rule(text: &str) -> Option<QueueRule>
    ensures { result ≡ queue_rule text.now }
{
    if text == "fifo" {
        Some(QueueRule::Fifo)
    } else if text == "codel" {
        Some(QueueRule::Codel)
    } else {
        None
    }
}

fn optional_queue_rule(alloc: Global, pair: &Pair) -> Result<Option<QueueRule>, ConfigError>
    ensures { Gives result (optional pair.now (scalar_at queue_rule pair.now)) }
{
    if pair.value.is_null() {
        return Ok(None);
    }
    let text = read_text(alloc, pair)?;
    Ok(Some(valued(alloc, ConfigKind::BadValue, pair, queue_rule(text))?))
}

fn read_key(
    alloc: Global,
    key: Option<Key>,
    draft: &mut NetworkDraft,
    pair: &Pair,
) -> Result<(), ConfigError>
    ensures { Sets result draft.new (network_key key draft.old pair.now) }
{
    match key {
        Some(Key::Graph) => set_some(&mut draft.graph, read_graph(alloc, pair)),
        Some(Key::UseShortestPath) => {
            set(&mut draft.use_shortest_path, optional_truth(alloc, pair))
        }
        Some(Key::RouterQueue) => set(&mut draft.router_queue, optional_queue_rule(alloc, pair)),
        _ => Err(refused(alloc, ConfigKind::UnknownKey, pair)),
    }
}

fn new_network() -> NetworkDraft
    ensures { result ≡ new_network }
{
    NetworkDraft {
        graph: None,
        use_shortest_path: None,
        router_queue: None,
    }
}

fn read_pairs(alloc: Global, pairs: &[Pair]) -> Result<NetworkDraft, ConfigError>
    ensures { Gives result (through network_row new_network pairs.now) }
{
    let mut draft = new_network();
    for pair in pairs {
        read_key(alloc, key_of(pair.key.as_str()), &mut draft, pair)?;
    }
    Ok(draft)
}

fn finish_network(alloc: Global, line: usize, draft: NetworkDraft) -> Result<Network, ConfigError>
    ensures { Gives result (finished_network line draft) }
{
    Ok(Network {
        graph: needed(alloc, "graph", line, draft.graph)?,
        use_shortest_path: draft.use_shortest_path.unwrap_or(true),
        router_queue: draft.router_queue.unwrap_or(QueueRule::Fifo),
    })
}

#[tactic(auto, unfolding(crate::specs::Network::network_of))]
fn network_of(alloc: Global, line: usize, pairs: &[Pair]) -> Result<Network, ConfigError>
    ensures { Gives result (network_of line pairs.now) }
{
    let draft = read_pairs(alloc, pairs)?;
    finish_network(alloc, mapping_line(line, pairs), draft)
}

/// Reads `network`.
#[tactic(auto, unfolding(crate::specs::Network::network_at))]
pub fn read_network(alloc: Global, pair: &Pair) -> Result<Network, ConfigError>
    ensures { Gives result (network_at pair.now) }
{
    let pairs = read_mapping(alloc, pair)?;
    match network_of(alloc, pair.line, pairs) {
        Ok(network) => Ok(network),
        Err(error) => Err(below(alloc, pair.key.as_str(), error)),
    }
}
