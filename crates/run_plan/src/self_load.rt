//! The experiment of a self-load.

ghost use Rattle.std.specs.Prelude.{◌≡◌, ◌≤◌, ◌<◌, map, unwrap_or, codes, IfOk};
ghost use Rattle.std.specs.List.{range_with_len};
ghost use Rattle.sim_base.specs.Limits.{most_ring_hosts};
ghost use Rattle.shd_config.specs.Limits.{MayOverride, IsWithinLimits};
ghost use Rattle.run_plan.specs.Names.{AreHostsApart};
ghost use Rattle.run_plan.specs.SelfLoad.{host_name, next_host, address_number, ring_process, ring_host, self_load_config, ring_node, ring_edge, self_load_graph};

use base_texts::{Name, Text};
use gml_graph::{Edge, Edges, Graph, Node, Nodes};
use host_rows::FinalState;
use net_iface::QueueRule;
use shd_config::{
    Config, GraphSource, HostConfig, Hosts, Overrides, ProcessConfig, Processes, Variables,
};
use shd_values::Texts;
use sim_base::{NoMemory, Signal, Time};
use std::alloc::Global;

/// 11.0.0.0.
const NET: u32 = 0x0b00_0000;

/// 1 Gbit in bits.
const GIGABIT: u64 = 1_000_000_000;

/// The name of a host, as `h0007`.
fn host_name(alloc: Global, host: u32) -> Result<Name, NoMemory>
    ensures { IfOk result (λ name. name ≡ host_name host) }
{
    let thousands = host / 1000 % 10;
    let hundreds = host / 100 % 10;
    let tens = host / 10 % 10;
    let ones = host % 10;
    let name = format!(in alloc; "h{thousands}{hundreds}{tens}{ones}")?;
    Ok(Name::from(name))
}

/// The number of the host behind another one in a ring of `hosts`.
fn next_host(hosts: u32, host: u32) -> u32
    requires some { 0 < hosts }
    requires few { hosts ≤ most_ring_hosts }
    requires within { host < hosts }
    ensures { result ≡ next_host hosts host }
{
    (host + 1) % hosts
}

/// The address of a host as a number.
fn address_number(host: u32) -> u32
    requires { host < most_ring_hosts }
    ensures { result ≡ address_number host }
{
    NET + 256 * (host / 254) + host % 254 + 1
}

/// The guest that sends to the host of this number.
fn ring_process(alloc: Global, next: u32) -> Result<ProcessConfig, NoMemory>
    requires { next < most_ring_hosts }
    ensures { IfOk result (λ p. p ≡ ring_process next) }
{
    let number = address_number(next);
    let argument = format!(in alloc; "{number}")?;
    let mut args = Texts::new(alloc);
    args.push(Text::from(argument))?;
    Ok(ProcessConfig {
        path: Name::from_str(alloc, "ring")?,
        args,
        environment: Variables::from(Vec::new(alloc)),
        start_time: Time { nanos: 0 },
        shutdown_time: None,
        shutdown_signal: Signal::SigTerm,
        expected_final_state: FinalState::Exited(0),
    })
}

/// A host of a ring.
fn ring_host(alloc: Global, hosts: u32, host: u32) -> Result<HostConfig, NoMemory>
    requires some { 0 < hosts }
    requires few { hosts ≤ most_ring_hosts }
    requires within { host < hosts }
    ensures { IfOk result (λ h. h ≡ ring_host hosts host) }
{
    let process = ring_process(alloc, next_host(hosts, host))?;
    let mut processes = Vec::new(alloc);
    processes.push(process)?;
    Ok(HostConfig {
        name: host_name(alloc, host)?,
        line: 1,
        network_node_id: host,
        ip_addr: None,
        bandwidth_up: Some(GIGABIT),
        bandwidth_down: Some(GIGABIT),
        pcap_enabled: false,
        pcap_capture_size: 65_535,
        processes: Processes::from(processes),
    })
}

fn ring_hosts(alloc: Global, hosts: u32) -> Result<Hosts, NoMemory>
    requires some { 0 < hosts }
    requires few { hosts ≤ most_ring_hosts }
    ensures { IfOk result (λ all. all ≡ map (ring_host hosts) (range_with_len 0 hosts)) }
{
    let mut all = Vec::new(alloc);
    for host in 0..hosts {
        let next = ring_host(alloc, hosts, host)?;
        all.push(next)?;
    }
    Ok(Hosts::from(all))
}

/// The directory that the options name, or the default one.
fn directory_of(alloc: Global, overrides: &Overrides) -> Result<Name, NoMemory>
    ensures { IfOk result (λ name. name ≡ unwrap_or overrides.now.data_directory (codes "shadow.data")) }
{
    match &overrides.data_directory {
        Some(directory) => Name::from_str(alloc, directory.as_str()),
        None => Name::from_str(alloc, "shadow.data"),
    }
}

/// The configuration of a ring of hosts.
#[tactic(auto, unfolding(crate::specs::SelfLoad::self_load_config))]
fn ring_config(alloc: Global, overrides: &Overrides, hosts: u32) -> Result<Config, NoMemory>
    requires some { 0 < hosts }
    requires few { hosts ≤ most_ring_hosts }
    ensures { IfOk result (λ c. c ≡ self_load_config overrides.now hosts) }
{
    Ok(Config {
        stop_time: overrides.stop_time.unwrap_or(Time {
            nanos: 5_000_000_000,
        }),
        seed: overrides.seed.unwrap_or(1),
        parallelism: overrides.parallelism.unwrap_or(0),
        bootstrap_end_time: Time { nanos: 0 },
        data_directory: directory_of(alloc, overrides)?,
        graph: GraphSource::File(Name::from_str(alloc, "graph.gml")?),
        use_shortest_path: true,
        router_queue: QueueRule::Fifo,
        hosts: ring_hosts(alloc, hosts)?,
        notes: Texts::new(alloc),
    })
}

/// The configuration of a self-load, which is within the limits of configurations.
pub fn self_load_config(
    alloc: Global,
    overrides: &Overrides,
    hosts: u32,
) -> Result<Config, NoMemory>
    requires some { 0 < hosts }
    requires few { hosts ≤ most_ring_hosts }
    requires overrides { MayOverride overrides.now }
    ensures config { IfOk result (λ c. c ≡ self_load_config overrides.now hosts) }
    ensures limits { IfOk result IsWithinLimits }
    ensures apart { IfOk result (λ c. AreHostsApart c.hosts) }
{
    ring_config(alloc, overrides, hosts)
}

fn ring_nodes(alloc: Global, hosts: u32) -> Result<Vec<Node>, NoMemory>
    ensures { IfOk result (λ all. all.items ≡ map ring_node (range_with_len 0 hosts)) }
{
    let mut all = Vec::new(alloc);
    for id in 0..hosts {
        all.push(Node {
            id,
            bandwidth_up: None,
            bandwidth_down: None,
        })?;
    }
    Ok(all)
}

/// The edge from a node to the next one.
fn ring_edge(hosts: u32, host: u32) -> Edge
    requires some { 0 < hosts }
    requires few { hosts ≤ most_ring_hosts }
    requires within { host < hosts }
    ensures edge { result ≡ ring_edge hosts host }
{
    let reliability = if host % 4 == 3 { 0 } else { 1_000_000_000 };
    Edge {
        source: host,
        target: next_host(hosts, host),
        latency: Time {
            nanos: u64::from(1 + host % 7) * 1_000_000,
        },
        reliability,
    }
}

fn ring_edges(alloc: Global, hosts: u32) -> Result<Vec<Edge>, NoMemory>
    requires some { 0 < hosts }
    requires few { hosts ≤ most_ring_hosts }
    ensures { IfOk result (λ all. all.items ≡ map (ring_edge hosts) (range_with_len 0 hosts)) }
{
    let mut all = Vec::new(alloc);
    for host in 0..hosts {
        all.push(ring_edge(hosts, host))?;
    }
    Ok(all)
}

/// The graph of a self-load.
#[tactic(auto, unfolding(crate::specs::SelfLoad::self_load_graph))]
pub fn self_load_graph(alloc: Global, hosts: u32) -> Result<Graph, NoMemory>
    requires some { 0 < hosts }
    requires few { hosts ≤ most_ring_hosts }
    ensures { IfOk result (λ g. g ≡ self_load_graph hosts) }
{
    let nodes = ring_nodes(alloc, hosts)?;
    let edges = ring_edges(alloc, hosts)?;
    Ok(Graph {
        directed: true,
        nodes: Nodes::from(nodes),
        edges: Edges::new(edges),
    })
}
