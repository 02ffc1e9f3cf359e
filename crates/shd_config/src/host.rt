//! The key `hosts`.

ghost use Rattle.std.specs.Prelude.{◌≡◌, [], map, IfOk};
ghost use Rattle.shd_config.specs.Values.{is_within};
ghost use Rattle.shd_config.specs.Steps.{Gives, Sets, GivesSeen, through};
ghost use Rattle.shd_config.specs.Host.{no_options, new_host, host_key, host_row, finished_host, host_of, host_at, hosts_row, hosts_at, chosen, completed};

use crate::config::HostConfig;
use crate::fault::{ConfigError, ConfigKind};
use crate::key::{Key, key_of};
use crate::lists::{Hosts, Processes};
use crate::optional::{optional_address, optional_rate};
use crate::options::{HostOptions, no_options, optional_options};
use crate::process::optional_processes;
use crate::setting::{set, set_or, set_some};
use crate::steps::{below, checked, mapping_line, needed, refused};
use crate::value::{read_mapping, read_u32};
use base_texts::Name;
use shd_values::is_host_name;
use sim_base::Ip;
use std::alloc::{AllocError, Global};
use std::marker::Model;
use yaml_merge::Pair;

/// What was read of a host.
#[derive(Drop)]
pub struct HostDraft {
    pub network_node_id: Option<u32>,
    pub ip_addr: Option<Ip>,
    pub bandwidth_up: Option<u64>,
    pub bandwidth_down: Option<u64>,
    pub options: HostOptions,
    pub processes: Processes,
}

/// A host with the options that it gives itself.
#[derive(Drop)]
pub struct HostRead {
    pub name: Name,
    pub line: usize,
    pub network_node_id: u32,
    pub ip_addr: Option<Ip>,
    pub bandwidth_up: Option<u64>,
    pub bandwidth_down: Option<u64>,
    pub options: HostOptions,
    pub processes: Processes,
}

/// Hosts in order, which contracts see as a list.
#[derive(Drop)]
pub struct HostsRead {
    hosts: Vec<HostRead>,
}

impl Model for HostsRead {
    ghost use Rattle.std.specs.Prelude.{List};
    ghost use Rattle.shd_config.specs.declared.host.HostRead.{HostRead};

    ghost Value = { List HostRead };

    ghost view = { λ h. h.hosts.items };
}

impl HostsRead {
    fn new(hosts: Vec<HostRead>) -> HostsRead
        ensures { result ≡ hosts.items }
    {
        HostsRead { hosts }
    }

    fn into_vec(self) -> Vec<HostRead>
        ensures { result.items ≡ self }
    {
        let HostsRead { hosts } = self;
        hosts
    }
}

fn read_key(
    alloc: Global,
    key: Option<Key>,
    draft: &mut HostDraft,
    pair: &Pair,
) -> Result<(), ConfigError>
    ensures { Sets result draft.new (host_key key draft.old pair.now) }
{
    match key {
        Some(Key::NetworkNodeId) => set_some(&mut draft.network_node_id, read_u32(alloc, pair)),
        Some(Key::IpAddr) => set(&mut draft.ip_addr, optional_address(alloc, pair)),
        Some(Key::BandwidthUp) => set(&mut draft.bandwidth_up, optional_rate(alloc, pair)),
        Some(Key::BandwidthDown) => set(&mut draft.bandwidth_down, optional_rate(alloc, pair)),
        Some(Key::HostOptions) => {
            set_or(
                &mut draft.options,
                optional_options(alloc, pair),
                no_options(),
            )
        }
        Some(Key::Processes) => {
            let none = Processes::from(Vec::new(alloc));
            set_or(&mut draft.processes, optional_processes(alloc, pair), none)
        }
        _ => Err(refused(alloc, ConfigKind::UnknownKey, pair)),
    }
}

fn new_host(alloc: Global) -> HostDraft
    ensures { result ≡ new_host }
{
    HostDraft {
        network_node_id: None,
        ip_addr: None,
        bandwidth_up: None,
        bandwidth_down: None,
        options: no_options(),
        processes: Processes::from(Vec::new(alloc)),
    }
}

fn read_pairs(alloc: Global, pairs: &[Pair]) -> Result<HostDraft, ConfigError>
    ensures { Gives result (through host_row new_host pairs.now) }
{
    let mut draft = new_host(alloc);
    for pair in pairs {
        read_key(alloc, key_of(pair.key.as_str()), &mut draft, pair)?;
    }
    Ok(draft)
}

fn finish_host(
    alloc: Global,
    pair: &Pair,
    line: usize,
    draft: HostDraft,
) -> Result<HostRead, ConfigError>
    ensures { Gives result (finished_host pair.now line draft) }
{
    Ok(HostRead {
        name: Name::from_str(alloc, pair.key.as_str())?,
        line: pair.line,
        network_node_id: needed(alloc, "network_node_id", line, draft.network_node_id)?,
        ip_addr: draft.ip_addr,
        bandwidth_up: draft.bandwidth_up,
        bandwidth_down: draft.bandwidth_down,
        options: draft.options,
        processes: draft.processes,
    })
}

#[tactic(auto, unfolding(crate::specs::Host::host_of))]
fn host_of(alloc: Global, pair: &Pair, pairs: &[Pair]) -> Result<HostRead, ConfigError>
    ensures { Gives result (host_of pair.now pairs.now) }
{
    let draft = read_pairs(alloc, pairs)?;
    finish_host(alloc, pair, mapping_line(pair.line, pairs), draft)
}

/// Reads a host.
#[tactic(auto, unfolding(crate::specs::Host::host_at))]
fn read_host(alloc: Global, pair: &Pair) -> Result<HostRead, ConfigError>
    ensures { Gives result (host_at pair.now) }
{
    checked(
        alloc,
        ConfigKind::BadValue,
        pair,
        is_host_name(pair.key.as_str()),
    )?;
    let pairs = read_mapping(alloc, pair)?;
    match host_of(alloc, pair, pairs) {
        Ok(host) => Ok(host),
        Err(error) => Err(below(alloc, pair.key.as_str(), error)),
    }
}

fn read_list(alloc: Global, pairs: &[Pair]) -> Result<Vec<HostRead>, ConfigError>
    ensures { GivesSeen (λ v. v.items) result (through hosts_row [] pairs.now) }
{
    let mut hosts = Vec::new(alloc);
    for pair in pairs {
        hosts.push(read_host(alloc, pair)?)?;
    }
    Ok(hosts)
}

/// The most hosts.
const MOST_HOSTS: usize = 16_384;

fn may_be_hosts(count: usize) -> bool
    ensures { result ≡ is_within 1 MOST_HOSTS count }
{
    1 <= count && count <= MOST_HOSTS
}

/// Reads all hosts.
#[tactic(auto, unfolding(crate::specs::Host::hosts_at))]
pub fn read_hosts(alloc: Global, pair: &Pair) -> Result<HostsRead, ConfigError>
    ensures { Gives result (hosts_at pair.now) }
{
    let pairs = read_mapping(alloc, pair)?;
    checked(
        alloc,
        ConfigKind::OutOfRange,
        pair,
        may_be_hosts(pairs.len()),
    )?;
    match read_list(alloc, pairs) {
        Ok(hosts) => Ok(HostsRead::new(hosts)),
        Err(error) => Err(below(alloc, pair.key.as_str(), error)),
    }
}

/// The bytes of a packet that are kept where no option says it.
pub const CAPTURE_SIZE: u32 = 65_535;

fn complete(all: HostOptions, host: HostRead) -> HostConfig
    ensures { result ≡ completed all host }
{
    let HostRead {
        name,
        line,
        network_node_id,
        ip_addr,
        bandwidth_up,
        bandwidth_down,
        options,
        processes,
    } = host;
    HostConfig {
        name,
        line,
        network_node_id,
        ip_addr,
        bandwidth_up,
        bandwidth_down,
        pcap_enabled: options
            .pcap_enabled
            .unwrap_or(all.pcap_enabled.unwrap_or(false)),
        pcap_capture_size: options
            .pcap_capture_size
            .unwrap_or(all.pcap_capture_size.unwrap_or(CAPTURE_SIZE)),
        processes,
    }
}

/// Hosts with the options of all hosts where they give none.
pub fn complete_all(alloc: Global, all: HostOptions, hosts: HostsRead) -> Result<Hosts, AllocError>
    ensures { IfOk result (λ completed_hosts. completed_hosts ≡ map (completed all) hosts) }
{
    let mut completed = Vec::new(alloc);
    for host in hosts.into_vec() {
        completed.push(complete(all, host))?;
    }
    Ok(Hosts::from(completed))
}
