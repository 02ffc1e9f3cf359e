//! The rates of hosts.

ghost use Rattle.std.specs.Prelude.{◌≡◌, ◌++◌, IfOk, OnOk};
ghost use Rattle.std.specs.Option.{option_to_list};
ghost use Rattle.sim_base.specs.Addresses.{has_host};
ghost use Rattle.run_plan.specs.Reading.{gives, Meets, IsRefusal};
ghost use Rattle.run_plan.specs.Rates.{node_of, rate_of, at_host, is_given_again, rates_of, all_rates};

use crate::fault::{Fault, HostFault, ReadStop};
use base_texts::Name;
use gml_graph::Node;
use shd_config::HostConfig;
use sim_base::{Ip, NoMemory};
use std::alloc::Global;

/// The rates of a host in bits a second, at least 1.
#[derive(Clone, Copy)]
pub struct Rates {
    pub up: u64,
    pub down: u64,
}

fn node_of(nodes: &[Node], number: u32) -> Option<Node>
    ensures { result ≡ node_of nodes.now number }
{
    nodes.iter().copied().find(|node| node.id == number)
}

/// The host's own rate, or its node's.
fn rate_of(own: Option<u64>, node: Option<u64>) -> Option<u64>
    ensures { result ≡ rate_of own node }
{
    own.or(node)
}

fn has(addresses: &[Ip], ip: Ip) -> bool
    ensures { result ≡ has_host addresses.now ip }
{
    addresses.iter().any(|other| ip.bits == other.bits)
}

/// Whether the host is given an address that earlier hosts were given.
fn is_given_again(earlier: &[Ip], host: &HostConfig) -> bool
    ensures { result ≡ is_given_again earlier.now host.now }
{
    match host.ip_addr {
        Some(ip) => has(earlier, ip),
        None => false,
    }
}

/// The fault of a host, at the line of its key.
fn fault_at(
    alloc: Global,
    file: &str,
    host: &HostConfig,
    kind: HostFault,
) -> Result<Fault, NoMemory>
    ensures { IfOk result (λ fault. fault ≡ at_host file.now host.now kind) }
{
    Ok(Fault::Host {
        file: Name::from_str(alloc, file)?,
        line: host.line,
        host: Name::from_str(alloc, host.name.as_str())?,
        kind,
    })
}

/// The refusal of a host.
fn refused(alloc: Global, file: &str, host: &HostConfig, kind: HostFault) -> ReadStop
    ensures { IsRefusal (at_host file.now host.now kind) result }
{
    match fault_at(alloc, file, host, kind) {
        Ok(fault) => ReadStop::Refused(fault),
        Err(NoMemory) => ReadStop::NoMemory,
    }
}

/// The rates of a host behind earlier ones that were given these addresses, or its first fault.
#[tactic(auto, unfolding(crate::specs::Rates::rates_of))]
fn rates_of(
    alloc: Global,
    file: &str,
    nodes: &[Node],
    earlier: &[Ip],
    host: &HostConfig,
) -> Result<Rates, ReadStop>
    ensures { Meets (λ r. r) (gives (rates_of file.now nodes.now earlier.now host.now)) result }
{
    let Some(node) = node_of(nodes, host.network_node_id) else {
        return Err(refused(alloc, file, host, HostFault::UnknownNode));
    };
    let Some(up) = rate_of(host.bandwidth_up, node.bandwidth_up) else {
        return Err(refused(alloc, file, host, HostFault::NoBandwidth));
    };
    let Some(down) = rate_of(host.bandwidth_down, node.bandwidth_down) else {
        return Err(refused(alloc, file, host, HostFault::NoBandwidth));
    };
    if is_given_again(earlier, host) {
        return Err(refused(alloc, file, host, HostFault::DuplicateAddress));
    }
    Ok(Rates { up, down })
}

/// Adds an address that is given.
fn push_given(earlier: &mut Vec<Ip>, given: Option<Ip>) -> Result<(), NoMemory>
    ensures { OnOk result (earlier.new.items ≡ earlier.old.items ++ option_to_list given) }
{
    if let Some(ip) = given {
        earlier.push(ip)?;
    }
    Ok(())
}

/// The rates of hosts in their order, or the first fault of one.
pub fn all_rates(
    alloc: Global,
    file: &str,
    nodes: &[Node],
    hosts: &[HostConfig],
) -> Result<Vec<Rates>, ReadStop>
    ensures { Meets (λ v. v.items) (gives (all_rates file.now nodes.now hosts.now)) result }
{
    let mut earlier = Vec::new(alloc);
    let mut all = Vec::new(alloc);
    for host in hosts {
        let rates = rates_of(alloc, file, nodes, &earlier, host)?;
        all.push(rates)?;
        push_given(&mut earlier, host.ip_addr)?;
    }
    Ok(all)
}
