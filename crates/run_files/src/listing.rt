//! What the rows of hosts say.

ghost use Rattle.std.specs.Prelude.{◌≡◌, ◌<◌, All, IfOk, Some, length, map, slice_get};
ghost use Rattle.run_files.specs.Listed as spec;
ghost use Rattle.run_files.specs.Listed.{HostNames};

use crate::capture::any_captures;
use crate::listed::{HostListing, Listing, ProcessListing};
use crate::piece::{expected_state, program};
use base_texts::Name;
use host_rows::{ProcessRow, Row};
use sim_base::NoMemory;
use std::alloc::Global;

/// So many processes of a host have ids of 32 bits.
const MOST_IDS: usize = 4_000_000_000;

fn process_listing(alloc: Global, row: &ProcessRow) -> Result<ProcessListing, NoMemory>
    ensures { IfOk result (λ l. l ≡ spec.listed_process row.now) }
{
    Ok(ProcessListing {
        program: Name::from_str(alloc, program(row.path.as_str()))?,
        expected: expected_state(row.expected),
    })
}

fn process_listings(alloc: Global, rows: &[ProcessRow]) -> Result<Vec<ProcessListing>, NoMemory>
    ensures { IfOk result (λ v. v.items ≡ map spec.listed_process rows.now) }
{
    let mut processes = Vec::new(alloc);
    for row in rows {
        processes.push(process_listing(alloc, row)?)?;
    }
    Ok(processes)
}

fn host_listing(alloc: Global, row: &Row) -> Result<HostListing, NoMemory>
    ensures said { IfOk result (λ l. spec.said l ≡ spec.listed row.now) }
    ensures ids { IfOk result (λ l. spec.HasIds (spec.said l)) }
{
    let name = Name::from_str(alloc, row.name.as_str())?;
    let processes = process_listings(alloc, row.processes.as_slice())?;
    if processes.len() > MOST_IDS {
        return Err(NoMemory);
    }
    Ok(HostListing {
        name,
        address: row.address,
        capture: row.capture,
        processes,
    })
}

impl Listing {
    /// What the rows of hosts say. Where a host has more processes than ids, it has no room.
    pub fn new(alloc: Global, rows: &[Row]) -> Result<Listing, NoMemory>
        ensures names { IfOk result (λ l. spec.names_of l ≡ map spec.listed rows.now) }
        ensures ids { IfOk result (λ l. All spec.HasIds (spec.names_of l)) }
    {
        let mut hosts = Vec::new(alloc);
        for row in rows {
            hosts.push(host_listing(alloc, row)?)?;
        }
        let captures = any_captures(hosts.as_slice());
        Ok(Listing { hosts, captures })
    }

    pub fn host_count(&self) -> usize
        ensures { result ≡ length (spec.names_of self.now) }
    {
        self.hosts.len()
    }

    /// How many processes a host has, by its number.
    pub fn process_count(&self, host: usize) -> usize
        requires { host < length (spec.names_of self.now) }
        ensures { (names : HostNames) → slice_get (spec.names_of self.now) host ≡ Some names → result ≡ length names.processes }
    {
        self.hosts[host].processes.len()
    }
}
