//! The rows of hosts.

ghost use Rattle.std.specs.Prelude.{◌≡◌, ◌≤◌, length, map, IfOk, OnOk};
ghost use Rattle.sim_base.specs.Limits.{most_hosts};
ghost use Rattle.run_plan.specs.HostRows.{AreInOrder, HaveAddresses, images_of, row_of, rows_of, host_rows};
ghost use Rattle.run_plan.specs.Reading.{Meets};
ghost use Rattle.run_plan.specs.Programs.{paths_of, place_of, programs_of};

use crate::addresses::addresses_of;
use crate::fault::ReadStop;
use crate::programs::place_of;
use crate::rates::{Rates, all_rates};
use base_texts::Name;
use gml_graph::Graph;
use shd_config::{HostConfig, Hosts};
use sim_base::{Ip, NoMemory};
use std::alloc::Global;
use std::marker::Model;

/// The places of images among those of a plan, which contracts see as a list of numbers.
#[derive(Drop)]
pub struct ImagePlaces {
    items: Vec<usize>,
}

impl Model for ImagePlaces {
    ghost use Rattle.std.specs.Prelude.{List, ℕ};

    ghost Value = { List ℕ };

    ghost view = { λ p. p.items.items };
}

impl ImagePlaces {
    pub fn as_slice(&self) -> &[usize]
        ensures { result.now ≡ self.now }
    {
        self.items.as_slice()
    }
}

impl From<Vec<usize>> for ImagePlaces {
    ghost from_gives = { λ v p. p ≡ v.items };

    fn from(items: Vec<usize>) -> ImagePlaces {
        ImagePlaces { items }
    }
}

/// A host that is to run.
#[derive(Drop)]
pub struct HostRow {
    /// The host as the configuration has it.
    pub config: HostConfig,
    pub rates: Rates,
    pub address: Ip,
    /// For each of its processes, the place of its image among those of the plan.
    pub images: ImagePlaces,
}

/// The rows of hosts in the order of the hosts, which contracts see as a list.
#[derive(Drop)]
pub struct HostRows {
    items: Vec<HostRow>,
}

impl Model for HostRows {
    ghost use Rattle.std.specs.Prelude.{List};
    ghost use Rattle.run_plan.specs.declared.host_row.HostRow.{HostRow};

    ghost Value = { List HostRow };

    ghost view = { λ r. r.items.items };
}

impl HostRows {
    pub fn as_slice(&self) -> &[HostRow]
        ensures { result.now ≡ self.now }
    {
        self.items.as_slice()
    }

    /// Gives the rows back without taking memory.
    pub fn into_vec(self) -> Vec<HostRow>
        ensures { result.items ≡ self }
    {
        let HostRows { items } = self;
        items
    }
}

impl From<Vec<HostRow>> for HostRows {
    ghost from_gives = { λ v r. r ≡ v.items };

    fn from(items: Vec<HostRow>) -> HostRows {
        HostRows { items }
    }
}

/// The hosts in the byte order of their names.
fn in_order(hosts: Hosts) -> Result<Vec<HostConfig>, NoMemory>
    ensures order { IfOk result (λ ordered. AreInOrder hosts ordered.items) }
    ensures len { IfOk result (λ ordered. length ordered.items ≡ length hosts) }
{
    let mut ordered = hosts.into_vec();
    ordered.sort_by(|a, b| a.name.as_str().cmp(b.name.as_str()))?;
    Ok(ordered)
}

/// The addresses that hosts are given.
fn given_of(alloc: Global, hosts: &[HostConfig]) -> Result<Vec<Option<Ip>>, NoMemory>
    ensures { IfOk result (λ v. v.items ≡ map (λ h. h.ip_addr) hosts.now) }
{
    let mut given = Vec::new(alloc);
    for host in hosts {
        given.push(host.ip_addr)?;
    }
    Ok(given)
}

/// The addresses of hosts in their order.
fn host_addresses(alloc: Global, hosts: &[HostConfig]) -> Result<Vec<Ip>, NoMemory>
    requires { length hosts.now ≤ most_hosts }
    ensures { IfOk result (λ v. HaveAddresses hosts.now v.items) }
{
    let given = given_of(alloc, hosts)?;
    addresses_of(alloc, &given)
}

/// The places of the images of a host's processes.
fn images_of(alloc: Global, programs: &[Name], host: &HostConfig) -> Result<ImagePlaces, NoMemory>
    ensures { IfOk result (λ p. p ≡ images_of programs.now host.now) }
{
    let mut places = Vec::new(alloc);
    for process in host.processes.as_slice() {
        places.push(place_of(programs, &process.path))?;
    }
    Ok(ImagePlaces::from(places))
}

/// The row of a host.
fn row_of(
    alloc: Global,
    programs: &[Name],
    config: HostConfig,
    rates: Rates,
    address: Ip,
) -> Result<HostRow, NoMemory>
    ensures { IfOk result (λ r. r ≡ row_of programs.now config rates address) }
{
    let images = images_of(alloc, programs, &config)?;
    Ok(HostRow {
        config,
        rates,
        address,
        images,
    })
}

/// The row of each host with its rates and its address.
fn rows_of(
    alloc: Global,
    programs: &[Name],
    hosts: Vec<HostConfig>,
    rates: &[Rates],
    addresses: &[Ip],
) -> Result<HostRows, NoMemory>
    ensures { IfOk result (λ r. r ≡ rows_of programs.now hosts.items rates.now addresses.now) }
{
    let mut rows = Vec::new(alloc);
    let mut at = 0;
    for host in hosts {
        if rates.len() <= at || addresses.len() <= at {
            return Ok(HostRows::from(rows));
        }
        let row = row_of(alloc, programs, host, rates[at], addresses[at])?;
        rows.push(row)?;
        at += 1;
    }
    Ok(HostRows::from(rows))
}

/// The rows of the hosts of a configuration that has the name `file`, or the first fault of one.
#[tactic(auto, unfolding(crate::specs::HostRows::host_rows))]
pub fn host_rows(
    alloc: Global,
    file: &str,
    graph: &Graph,
    programs: &[Name],
    hosts: Hosts,
) -> Result<HostRows, ReadStop>
    requires programs { programs.now ≡ programs_of hosts }
    requires few { length hosts ≤ most_hosts }
    ensures { Meets (λ r. r) (host_rows file.now graph.now hosts) result }
{
    let ordered = in_order(hosts)?;
    let rates = all_rates(alloc, file, graph.nodes.as_slice(), &ordered)?;
    let addresses = host_addresses(alloc, &ordered)?;
    let rows = rows_of(alloc, programs, ordered, &rates, &addresses)?;
    Ok(rows)
}
