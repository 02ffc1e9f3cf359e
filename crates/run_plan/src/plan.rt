//! The plan of a run.

ghost use Rattle.std.specs.Prelude.{◌≡◌, ◌<◌, ◌≤◌, length, map, option_map, string_bytes, IfSome, IfOk};
ghost use Rattle.net_routes.specs.Routes.{AreRoutes, HasRoutes};
ghost use Rattle.net_routes.specs.Least.{IsLookahead};
ghost use Rattle.out_text.specs.Hosts.{hosts_text};
ghost use Rattle.shd_config.specs.Limits.{IsWithinLimits};
ghost use Rattle.run_plan.specs.Limits.{KeepsToLimits};
ghost use Rattle.run_plan.specs.Names.{AreHostsApart, AreRowsApart};
ghost use Rattle.run_plan.specs.Network.{network};
ghost use Rattle.run_plan.specs.Reading.{gives, Meets, CountsSource};
ghost use Rattle.run_plan.specs.Routed.{IsRouted, TakeTime};
ghost use Rattle.run_plan.specs.Plan.{nodes_of, routed, nanos_of, line_of_host, settings_of, run_of, plan_of};

use crate::fault::{Fault, ReadStop};
use crate::host_row::{HostRow, HostRows, host_rows};
use crate::network::read_network;
use crate::programs::{programs_of, read_images};
use crate::workers::worker_count;
use base_texts::{Name, Text};
use elf_load::Image;
use gml_graph::Graph;
use net_iface::QueueRule;
use net_routes::{RouteError, Routes, routes};
use out_text::{HostLine, hosts_text};
use run_outside::Source;
use shd_config::{Config, Hosts};
use shd_values::Texts;
use sim_base::{NoMemory, Time};
use std::alloc::Global;
use std::marker::Model;
use std::thread::Threads;

/// The images of programs, which contracts see as a list.
#[derive(Drop)]
pub struct Images {
    items: Vec<Image>,
}

impl Model for Images {
    ghost use Rattle.std.specs.Prelude.{List};
    ghost use Rattle.std.specs.Coded.{coded_list};
    ghost use Rattle.elf_load.specs.ProgramImage.{ProgramImage, program_image_code};

    ghost Value = { List ProgramImage };

    ghost coded = { coded_list program_image_code };

    ghost view = { λ i. i.items.items };
}

impl Images {
    pub fn as_slice(&self) -> &[Image]
        ensures { result.now ≡ self.now }
    {
        self.items.as_slice()
    }

    /// Gives the images back without taking memory.
    pub fn into_vec(self) -> Vec<Image>
        ensures { result.items ≡ self }
    {
        let Images { items } = self;
        items
    }
}

impl From<Vec<Image>> for Images {
    ghost from_gives = { λ v i. i ≡ v.items };

    fn from(items: Vec<Image>) -> Images {
        Images { items }
    }
}

/// What a configuration says of the run as a whole.
#[derive(Drop)]
pub struct Settings {
    /// No event that is due at this time or later fires.
    pub stop_time: Time,
    pub seed: u32,
    /// The number of workers; 0 stands for as many as the machine has cores.
    pub parallelism: u32,
    /// Before this time packets pass all lanes at once, and none is lost.
    pub bootstrap_end_time: Time,
    pub data_directory: Name,
    pub router_queue: QueueRule,
    /// The paths of the keys that have no effect, in document order.
    pub notes: Texts,
}

/// What is to be run.
#[derive(Drop)]
pub struct Plan {
    pub settings: Settings,
    /// The hosts, in byte order of their names.
    pub rows: HostRows,
    /// The routes between the nodes of the hosts.
    pub routes: Routes,
    /// The least latency of all routes that hosts need; none where there is one host.
    pub lookahead: Option<Time>,
    /// The images of the programs, in document order of first mention.
    pub images: Images,
    /// What guests read as `/etc/hosts`.
    pub hosts_text: Text,
}

/// The node of each host.
fn nodes_of(alloc: Global, rows: &[HostRow]) -> Result<Vec<u32>, NoMemory>
    ensures { IfOk result (λ v. v.items ≡ nodes_of rows.now) }
{
    let mut nodes = Vec::new(alloc);
    for row in rows {
        nodes.push(row.config.network_node_id)?;
    }
    Ok(nodes)
}

/// The routes that hosts on these nodes need.
fn find_routes<R: Threads + Sync>(
    rt: &R,
    alloc: Global,
    graph: &Graph,
    nodes: &[u32],
    shortest: bool,
    workers: u32,
) -> Result<Routes, ReadStop>
    requires { 0 < workers }
    ensures told { Meets (λ r. r) (routed graph.now shortest nodes.now) result }
    ensures whole { IfOk result (HasRoutes nodes.now) }
    ensures later { IfOk result (TakeTime nodes.now) }
{
    let _edges = graph.edges.as_slice();
    match routes(rt, alloc, graph, nodes, shortest, workers) {
        Ok(routes) => Ok(routes),
        Err(RouteError::NoRoute { from, to }) => {
            Err(ReadStop::Refused(Fault::NoRoute { from, to }))
        }
        Err(RouteError::NoMemory) => Err(ReadStop::NoMemory),
    }
}

/// The routes that hosts need, and the least latency of these.
#[derive(Drop)]
struct Routed {
    routes: Routes,
    lookahead: Option<Time>,
}

/// The routes that the hosts of these rows need.
fn route_rows<R: Threads + Sync>(
    rt: &R,
    alloc: Global,
    graph: &Graph,
    rows: &[HostRow],
    shortest: bool,
    parallelism: u32,
    cores: u32,
) -> Result<Routed, ReadStop>
    ensures told { Meets (λ r. r.routes) (routed graph.now shortest (nodes_of rows.now)) result }
    ensures whole { IfOk result (λ r. HasRoutes (nodes_of rows.now) r.routes) }
    ensures later { IfOk result (λ r. TakeTime (nodes_of rows.now) r.routes) }
    ensures least { IfOk result (λ r. IsLookahead (nodes_of rows.now) r.routes (nanos_of r.lookahead)) }
{
    let nodes = nodes_of(alloc, rows)?;
    let count = u32::try_from(nodes.len()).unwrap_or(u32::MAX);
    let workers = worker_count(parallelism, cores, count);
    let routes = find_routes(rt, alloc, graph, &nodes, shortest, workers)?;
    let lookahead = routes.least_between(&nodes);
    Ok(Routed { routes, lookahead })
}

/// The line of each host.
fn lines_of_hosts(alloc: Global, rows: &[HostRow]) -> Result<Vec<HostLine>, NoMemory>
    ensures { IfOk result (λ v. v.items ≡ map line_of_host rows.now) }
{
    let mut lines = Vec::new(alloc);
    for row in rows {
        let name = Name::from_str(alloc, row.config.name.as_str())?;
        lines.push(HostLine {
            address: row.address,
            name,
        })?;
    }
    Ok(lines)
}

/// What guests read as `/etc/hosts`.
fn text_of_hosts(alloc: Global, rows: &[HostRow]) -> Result<Text, NoMemory>
    ensures { IfOk result (λ text. text ≡ hosts_text (map line_of_host rows.now)) }
{
    let lines = lines_of_hosts(alloc, rows)?;
    let mut text = Text::new(alloc);
    hosts_text(alloc, &mut text, &lines)?;
    Ok(text)
}

/// What a configuration says of the run as a whole, and its hosts.
fn parts_of(config: Config) -> (Settings, Hosts)
    ensures settings { result.0 ≡ settings_of config }
    ensures hosts { result.1 ≡ config.hosts }
{
    let settings = Settings {
        stop_time: config.stop_time,
        seed: config.seed,
        parallelism: config.parallelism,
        bootstrap_end_time: config.bootstrap_end_time,
        data_directory: config.data_directory,
        router_queue: config.router_queue,
        notes: config.notes,
    };
    (settings, config.hosts)
}

/// What is run of a configuration in the file `name`, over a graph.
#[tactic(auto, unfolding(crate::specs::Plan::run_of))]
pub fn read_run<R: Threads + Sync, S: Source>(
    rt: &R,
    alloc: Global,
    source: &mut S,
    name: &str,
    graph: &Graph,
    config: Config,
    cores: u32,
) -> Result<Plan, ReadStop>
    requires { IsWithinLimits config }
    ensures told { IfSome (S.held source.old) (λ held. Meets (λ p. p) (run_of held name.now graph.now config) result) }
    ensures limits { IfOk result KeepsToLimits }
    ensures routed { IfOk result IsRouted }
    ensures apart { AreHostsApart config.hosts → IfOk result AreRowsApart }
    ensures same { S.held source.new ≡ S.held source.old }
    ensures count { CountsSource result (S.faults source.old) (S.faults source.new) }
{
    let shortest = config.use_shortest_path;
    let (settings, hosts) = parts_of(config);
    let programs = programs_of(alloc, hosts.as_slice())?;
    let rows = host_rows(alloc, name, graph, &programs, hosts)?;
    let workers = settings.parallelism;
    let routed = route_rows(rt, alloc, graph, rows.as_slice(), shortest, workers, cores)?;
    let images = read_images(alloc, source, &programs)?;
    let hosts_text = text_of_hosts(alloc, rows.as_slice())?;
    Ok(Plan {
        settings,
        rows,
        routes: routed.routes,
        lookahead: routed.lookahead,
        images: Images::from(images),
        hosts_text,
    })
}

/// What is run of the configuration in the file `name`.
#[tactic(auto, unfolding(crate::specs::Plan::plan_of))]
pub fn read_plan_of<R: Threads + Sync, S: Source>(
    rt: &R,
    alloc: Global,
    source: &mut S,
    name: &str,
    config: Config,
    cores: u32,
) -> Result<Plan, ReadStop>
    requires { IsWithinLimits config }
    ensures told { IfSome (S.held source.old) (λ held. Meets (λ p. p) (plan_of held name.now config) result) }
    ensures limits { IfOk result KeepsToLimits }
    ensures routed { IfOk result IsRouted }
    ensures apart { AreHostsApart config.hosts → IfOk result AreRowsApart }
    ensures same { S.held source.new ≡ S.held source.old }
    ensures count { CountsSource result (S.faults source.old) (S.faults source.new) }
{
    let graph = read_network(alloc, source, name, &config.graph)?;
    read_run(rt, alloc, source, name, &graph, config, cores)
}
