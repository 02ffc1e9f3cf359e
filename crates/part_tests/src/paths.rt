//! The routes of graphs: their latency, and what arrives of 10^9.

ghost use Rattle.std.specs.Prelude.{◌<◌};

use crate::rows::parted;
use gml_graph::{Graph, read_gml};
use net_routes::routes;
use sim_base::Time;
use std::alloc::{AllocError, AllocGlobal, Global};
use std::test::Fail;
use std::thread::Threads;

/// The nodes of each graph.
const NODES: &str = r#"
node [ id 0 ] node [ id 1 ] node [ id 2 ] node [ id 3 ] node [ id 4 ]
node [ id 5 ] node [ id 6 ] node [ id 7 ] node [ id 8 ] node [ id 9 ]
"#;

/// Two nodes, whether walks are wanted or single edges, the nodes of hosts, and what is found: nanoseconds, and what
/// arrives. Then the graph. The random ones are by every walk of at most as many edges as there are nodes.
const CASES: &str = r#"
# of two walks of 20 ms that with which more arrives
0 1 shortest 0 1 = 20000000 300000000
directed 1
edge [ source 0 target 2 latency "10000000 ns" packet_loss 0.500000000 ]
edge [ source 2 target 1 latency "10000000 ns" packet_loss 0.500000000 ]
edge [ source 0 target 1 latency "20000000 ns" packet_loss 0.700000000 ]
edge [ source 1 target 0 latency "5000000 ns" packet_loss 0.000000000 ]
# two edges are faster than one
0 1 shortest 0 1 = 20000000 1000000000
directed 0
edge [ source 0 target 2 latency "10000000 ns" packet_loss 0.000000000 ]
edge [ source 2 target 1 latency "10000000 ns" packet_loss 0.000000000 ]
edge [ source 0 target 1 latency "30000000 ns" packet_loss 0.000000000 ]
# one edge, where walks are not wanted
1 0 direct 0 1 = 30000000 1000000000
directed 0
edge [ source 0 target 2 latency "10000000 ns" packet_loss 0.000000000 ]
edge [ source 2 target 1 latency "10000000 ns" packet_loss 0.000000000 ]
edge [ source 0 target 1 latency "30000000 ns" packet_loss 0.000000000 ]
# a node that no host is on
3 4 shortest 3 = none
directed 1
edge [ source 3 target 4 latency "1000000 ns" packet_loss 0.000000000 ]
# the longer walk loses less
0 1 shortest 0 1 = 2 999999998
directed 1
edge [ source 0 target 2 latency "1 ns" packet_loss 0.000000001 ]
edge [ source 2 target 1 latency "1 ns" packet_loss 0.000000001 ]
edge [ source 0 target 1 latency "2 ns" packet_loss 0.000000003 ]
edge [ source 1 target 0 latency "1 ns" packet_loss 0.000000000 ]
# the longer walk loses more
0 1 shortest 0 1 = 2 999999999
directed 1
edge [ source 0 target 2 latency "1 ns" packet_loss 0.000000001 ]
edge [ source 2 target 1 latency "1 ns" packet_loss 0.000000001 ]
edge [ source 0 target 1 latency "2 ns" packet_loss 0.000000001 ]
edge [ source 1 target 0 latency "1 ns" packet_loss 0.000000000 ]
# rounded down at each edge: the whole product would give 666666663
0 3 shortest 0 3 = 3 666666662
directed 0
edge [ source 0 target 1 latency "1 ns" packet_loss 0.000000003 ]
edge [ source 1 target 2 latency "1 ns" packet_loss 0.333333333 ]
edge [ source 2 target 3 latency "1 ns" packet_loss 0.000000003 ]
# from a node to itself by one edge, not round
0 0 shortest 0 0 = 9 750000000
directed 1
edge [ source 0 target 1 latency "3 ns" packet_loss 0.000000000 ]
edge [ source 1 target 0 latency "1 ns" packet_loss 0.000000000 ]
edge [ source 0 target 0 latency "9 ns" packet_loss 0.500000000 ]
edge [ source 0 target 0 latency "9 ns" packet_loss 0.250000000 ]
# graph 1 of six random ones
2 4 shortest 2 4 6 = 4 900000000
directed 0
edge [ source 4 target 4 latency "2 ns" packet_loss 1.000000000 ]
edge [ source 4 target 0 latency "1 ns" packet_loss 0.000000000 ]
edge [ source 6 target 2 latency "3 ns" packet_loss 0.000000001 ]
edge [ source 4 target 4 latency "3 ns" packet_loss 0.000000001 ]
edge [ source 2 target 0 latency "3 ns" packet_loss 0.100000000 ]
edge [ source 6 target 2 latency "3 ns" packet_loss 1.000000000 ]
edge [ source 0 target 6 latency "3 ns" packet_loss 0.750000000 ]
edge [ source 0 target 2 latency "3 ns" packet_loss 0.700000000 ]
# graph 2 of six random ones
0 5 shortest 4 5 4 0 = 4 500000000
directed 0
edge [ source 4 target 5 latency "1 ns" packet_loss 0.000000001 ]
edge [ source 6 target 4 latency "2 ns" packet_loss 0.300000000 ]
edge [ source 4 target 5 latency "1 ns" packet_loss 0.000000000 ]
edge [ source 4 target 1 latency "2 ns" packet_loss 0.300000000 ]
edge [ source 1 target 1 latency "2 ns" packet_loss 0.000000000 ]
edge [ source 4 target 0 latency "3 ns" packet_loss 0.500000000 ]
edge [ source 4 target 4 latency "3 ns" packet_loss 0.750000000 ]
edge [ source 4 target 4 latency "2 ns" packet_loss 1.000000000 ]
# graph 3 of six random ones
1 5 shortest 3 1 5 2 = 5 209999999
directed 0
edge [ source 3 target 5 latency "2 ns" packet_loss 0.000000001 ]
edge [ source 7 target 2 latency "1 ns" packet_loss 0.100000000 ]
edge [ source 3 target 3 latency "3 ns" packet_loss 0.500000000 ]
edge [ source 2 target 7 latency "2 ns" packet_loss 0.999999999 ]
edge [ source 7 target 5 latency "2 ns" packet_loss 0.500000000 ]
edge [ source 2 target 1 latency "2 ns" packet_loss 0.700000000 ]
edge [ source 2 target 3 latency "1 ns" packet_loss 0.300000000 ]
edge [ source 3 target 3 latency "2 ns" packet_loss 1.000000000 ]
# graph 4 of six random ones
4 6 shortest 7 6 4 = 3 999999999
directed 0
edge [ source 3 target 6 latency "3 ns" packet_loss 0.250000000 ]
edge [ source 7 target 3 latency "1 ns" packet_loss 0.000000000 ]
edge [ source 6 target 7 latency "1 ns" packet_loss 0.500000000 ]
edge [ source 6 target 7 latency "1 ns" packet_loss 0.000000001 ]
edge [ source 3 target 4 latency "1 ns" packet_loss 0.000000000 ]
# graph 5 of six random ones
6 7 shortest 7 8 6 = 3 675000000
directed 0
edge [ source 2 target 2 latency "2 ns" packet_loss 0.300000000 ]
edge [ source 6 target 2 latency "2 ns" packet_loss 0.700000000 ]
edge [ source 2 target 1 latency "3 ns" packet_loss 0.100000000 ]
edge [ source 6 target 2 latency "2 ns" packet_loss 0.100000000 ]
edge [ source 7 target 2 latency "1 ns" packet_loss 0.250000000 ]
edge [ source 2 target 8 latency "1 ns" packet_loss 0.100000000 ]
edge [ source 6 target 6 latency "1 ns" packet_loss 0.100000000 ]
# graph 6 of six random ones
1 4 shortest 1 3 4 = 5 900000000
directed 0
edge [ source 5 target 5 latency "1 ns" packet_loss 0.999999999 ]
edge [ source 1 target 5 latency "3 ns" packet_loss 0.000000000 ]
edge [ source 5 target 1 latency "3 ns" packet_loss 0.250000000 ]
edge [ source 6 target 4 latency "1 ns" packet_loss 0.700000000 ]
edge [ source 3 target 1 latency "2 ns" packet_loss 0.500000000 ]
edge [ source 5 target 4 latency "2 ns" packet_loss 0.500000000 ]
edge [ source 6 target 4 latency "1 ns" packet_loss 0.100000000 ]
edge [ source 5 target 4 latency "2 ns" packet_loss 0.100000000 ]
"#;

/// The graph of these edges.
fn graph_of(alloc: Global, edges: &str) -> Result<Graph, Fail> {
    let text = format!(in alloc; "graph [ {NODES} {edges} ]")?;
    match read_gml(alloc, text.as_bytes()) {
        Ok(graph) => Ok(graph),
        Err(_) => Err(Fail::new("no graph")),
    }
}

fn numbers(alloc: Global, text: &str) -> Result<Vec<u32>, Fail> {
    let mut numbers = Vec::new(alloc);
    for number in text.split_whitespace() {
        numbers.push(number.parse::<u32>()?)?;
    }
    Ok(numbers)
}

/// A route's latency, and how many of 10^9 packets arrive.
fn shown(alloc: Global, route: Option<(Time, u32)>) -> Result<String, AllocError> {
    match route {
        Some((time, arrives)) => format!(in alloc; "{} {arrives}", time.nanos),
        None => String::from_str(alloc, "none"),
    }
}

/// What is found where a row asks.
fn found(
    rt: &(impl Threads + Sync + AllocGlobal),
    asked: &str,
    graph: &Graph,
) -> Result<String, Fail> {
    let alloc = rt.alloc();
    let (from, asked) = parted(asked, ' ')?;
    let (to, asked) = parted(asked, ' ')?;
    let (kind, hosts) = parted(asked, ' ')?;
    let (from, to) = (from.parse::<u32>()?, to.parse::<u32>()?);
    let nodes = numbers(alloc, hosts)?;
    let all = routes(rt, alloc, graph, nodes.as_slice(), kind == "shortest", 2)?;
    Ok(shown(alloc, all.find(from, to))?)
}

#[test]
fn the_best_of_all_walks_is_found(rt: HostRuntime) -> Result<(), Fail> {
    for case in CASES.trim().split('#').skip(1) {
        let (title, case) = parted(case, '\n')?;
        let (row, edges) = parted(case, '\n')?;
        let (asked, wanted) = parted(row, '=')?;
        let graph = graph_of(rt.alloc(), edges)?;
        let shown = found(&rt, asked, &graph)?;
        assert_eq!(rt; shown.as_str(), wanted.trim(), "{title}");
    }
    Ok(())
}

/// From 7 to 5 in 3 ms, back in 2 ms, and from 7 to itself in 1 ms.
const THREE: &str = r#"
directed 1
edge [ source 7 target 5 latency "3000000 ns" packet_loss 0.250000000 ]
edge [ source 5 target 7 latency "2000000 ns" packet_loss 0.000000000 ]
edge [ source 7 target 7 latency "1000000 ns" packet_loss 0.000000000 ]
"#;

/// The least latency between hosts on these nodes, in nanoseconds.
fn least_between(
    rt: &(impl Threads + Sync + AllocGlobal),
    graph: &Graph,
    nodes: &[u32],
    shortest: bool,
    workers: u32,
) -> Result<Option<u64>, Fail>
    requires { 0 < workers }
{
    let all = routes(rt, rt.alloc(), graph, nodes, shortest, workers)?;
    match all.least_between(nodes) {
        Some(time) => Ok(Some(time.nanos)),
        None => Ok(None),
    }
}

#[test]
fn the_least_latency_is_that_of_all_hosts(rt: HostRuntime) -> Result<(), Fail> {
    let graph = graph_of(rt.alloc(), THREE)?;
    let least = [
        least_between(&rt, &graph, &[7, 5], true, 1)?,
        least_between(&rt, &graph, &[5], true, 64)?,
        least_between(&rt, &graph, &[7, 7, 5], false, 3)?,
    ];
    assert_eq!(rt; least, [Some(2_000_000), None, Some(1_000_000)]);
    Ok(())
}

#[test]
fn a_route_that_is_there_is_given(rt: HostRuntime) -> Result<(), Fail> {
    let graph = graph_of(rt.alloc(), THREE)?;
    let all = routes(&rt, rt.alloc(), &graph, &[7, 5], true, 1)?;
    if all.find(7, 5).is_some() {
        assert!(rt; all.get(7, 5) == (Time { nanos: 3_000_000 }, 750_000_000));
    }
    Ok(())
}
