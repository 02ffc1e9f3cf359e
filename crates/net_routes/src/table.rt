//! The routes between the nodes of hosts.

ghost use Rattle.std.specs.Prelude.{◌≡◌, ◌<◌, ◌↔◌, Some, IsSome, IsTrue, option_map, length, All, Contains};
ghost use Rattle.net_routes.specs.Routes.{route_in, AreBetween, HasRoutes};
ghost use Rattle.net_routes.specs.Least.{IsLookahead};
ghost use Rattle.net_routes.specs.inside.LeastSteps.{lesser, IsLatency, IsLeastIf, IsFromTo, IsNeededLatency, IsNeededTo};
ghost use Rattle.net_routes.specs.inside.RouteMaps.{route_at};

use crate::cost::Cost;
use crate::node_ids::NodeIds;
use crate::route_row::{hosts_on, is_needed};
use crate::route_rows::RouteRows;
use sim_base::Time;
use std::marker::Model;

/// The routes between the nodes of hosts: of each the latency, and what arrives of 10^9 packets
/// that are sent. Contracts see a finite map from pairs of nodes.
#[derive(Drop)]
pub struct Routes {
    pub(crate) stops: NodeIds,
    pub(crate) rows: RouteRows,
}

impl Model for Routes {
    ghost use Rattle.net_routes.specs.RouteMap.{RouteMap, route_map_code};

    ghost Value = { RouteMap };

    ghost coded = { route_map_code };

    ghost use Rattle.net_routes.specs.inside.RouteMaps.{map_of};

    ghost view = { λ r. map_of r.stops r.rows };
}

/// The cost that rows keep for a pair of nodes.
fn cost_in(stops: &NodeIds, rows: &RouteRows, from: u32, to: u32) -> Option<Cost>
    ensures { result ≡ route_at stops.now rows.now from to }
{
    let row = stops.find(from)?;
    rows.get(row, stops.find(to)?)
}

impl Routes {
    /// The nodes between which there are routes.
    fn nodes(&self) -> &[u32]
        ensures { AreBetween result.now self.now }
    {
        self.stops.as_slice()
    }

    /// The cost of the route from one node to another, if it is kept.
    fn cost(&self, from: u32, to: u32) -> Option<Cost>
        ensures { result ≡ route_in self.now from to }
    {
        cost_in(&self.stops, &self.rows, from, to)
    }

    /// The route from one node to another, if it is kept: its latency and its reliability in units
    /// of 10^-9. Each that hosts need is kept, and each that is kept is a route.
    pub fn find(&self, from: u32, to: u32) -> Option<(Time, u32)>
        ensures { result ≡ option_map (λ c. (record { nanos = c.latency }, c.reliability))
            (route_in self.now from to) }
    {
        let cost = self.cost(from, to)?;
        Some((
            Time {
                nanos: cost.latency,
            },
            cost.reliability,
        ))
    }

    /// The route from one node to another that is kept: the caller knows that it is, as each that
    /// hosts need.
    pub fn get(&self, from: u32, to: u32) -> (Time, u32)
        requires { IsSome (route_in self.now from to) }
        ensures { route_in self.now from to
            ≡ Some (record { latency = result.0.nanos; reliability = result.1 }) }
    {
        match self.find(from, to) {
            Some(route) => route,
            None => unreachable!(),
        }
    }

    /// The latency from one host to another one; none from a host to itself.
    fn latency_between(&self, nodes: &[u32], host: usize, other: usize) -> Option<u64>
        requires host { host < length nodes.now }
        requires other { other < length nodes.now }
        requires routes { HasRoutes nodes.now self.now }
        ensures { IsLatency nodes.now self.now host other result }
    {
        if host == other {
            return None;
        }
        let (latency, _) = self.get(nodes[host], nodes[other]);
        Some(latency.nanos)
    }

    /// The least latency from one host to the others.
    fn least_from(&self, nodes: &[u32], host: usize) -> Option<u64>
        requires host { host < length nodes.now }
        requires routes { HasRoutes nodes.now self.now }
        ensures { IsLeastIf (IsFromTo host (length nodes.now)) nodes.now self.now result }
    {
        let mut least = None;
        for other in 0..nodes.len() {
            least = lesser(least, self.latency_between(nodes, host, other));
        }
        least
    }

    /// The least latency of all routes that hosts on these nodes need, host by host.
    fn least_of_hosts(&self, nodes: &[u32]) -> Option<Time>
        requires { HasRoutes nodes.now self.now }
        ensures { IsLookahead nodes.now self.now (option_map (λ t. t.nanos) result) }
    {
        let mut least = None;
        for host in 0..nodes.len() {
            least = lesser(least, self.least_from(nodes, host));
        }
        match least {
            Some(nanos) => Some(Time { nanos }),
            None => None,
        }
    }

    /// The latency from one node to another one, where hosts need it.
    fn needed_latency(&self, nodes: &[u32], from: u32, to: u32) -> Option<u64>
        requires from { Contains nodes.now from }
        requires to { Contains nodes.now to }
        requires routes { HasRoutes nodes.now self.now }
        ensures { IsNeededLatency nodes.now self.now from to result }
    {
        if !is_needed(nodes, from, to) {
            return None;
        }
        let (latency, _) = self.get(from, to);
        Some(latency.nanos)
    }

    /// The least latency that hosts need from the node at a place.
    fn least_from_stop(&self, nodes: &[u32], stops: &[u32], from: usize) -> Option<u64>
        requires from { from < length stops.now }
        requires stops { All (Contains nodes.now) stops.now }
        requires routes { HasRoutes nodes.now self.now }
        ensures { IsLeastIf (IsNeededTo nodes.now stops.now from (length stops.now)) stops.now
            self.now result }
    {
        let mut least = None;
        for to in 0..stops.len() {
            least = lesser(least, self.needed_latency(nodes, stops[from], stops[to]));
        }
        least
    }

    /// The least latency of all routes that hosts on these nodes need, node by node.
    fn least_of_stops(&self, nodes: &[u32], stops: &[u32]) -> Option<Time>
        requires between { AreBetween stops.now self.now }
        requires stops { All (Contains nodes.now) stops.now }
        requires routes { HasRoutes nodes.now self.now }
        ensures { IsLookahead nodes.now self.now (option_map (λ t. t.nanos) result) }
    {
        let mut least = None;
        for from in 0..stops.len() {
            least = lesser(least, self.least_from_stop(nodes, stops, from));
        }
        match least {
            Some(nanos) => Some(Time { nanos }),
            None => None,
        }
    }

    /// The least latency of all routes that hosts on these nodes need, one entry for each host;
    /// none where there are fewer than two. Each route that they need has to be kept: for the nodes
    /// that `routes` was asked for, and for some of them, it is.
    pub fn least_between(&self, nodes: &[u32]) -> Option<Time>
        requires { HasRoutes nodes.now self.now }
        ensures { IsLookahead nodes.now self.now (option_map (λ t. t.nanos) result) }
    {
        let stops = self.nodes();
        if have_hosts(nodes, stops) {
            return self.least_of_stops(nodes, stops);
        }
        self.least_of_hosts(nodes)
    }
}

/// Whether there is a host on each of these nodes.
fn have_hosts(nodes: &[u32], stops: &[u32]) -> bool
    ensures { IsTrue result ↔ All (Contains nodes.now) stops.now }
{
    for stop in stops {
        if hosts_on(nodes, *stop) == 0 {
            return false;
        }
    }
    true
}

/// The less of two numbers, each of which may be missing.
fn lesser(a: Option<u64>, b: Option<u64>) -> Option<u64>
    ensures { result ≡ lesser a b }
{
    match (a, b) {
        (Some(x), Some(y)) => Some(x.min(y)),
        (Some(x), None) => Some(x),
        (None, b) => b,
    }
}
