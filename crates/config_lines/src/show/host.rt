//! How a host is shown.

ghost use Rattle.std.specs.Prelude.{◌≡◌, codes, string_bytes, option_map, IfOk};
ghost use Rattle.std.specs.List.{flat_map};
ghost use Rattle.config_lines.specs.Shown.{shown_address, shown_rate, line_if, changed_options, shown_interface, shown_options, host_lines, shown_host};

use crate::show::process::processes_string;
use crate::show::quoted::quoted;
use crate::show::value::{address_string, rate_string};
use shd_config::{CAPTURE_SIZE, HostConfig};
use sim_base::Ip;
use std::alloc::{AllocError, Global};

fn address_line(alloc: Global, address: Option<Ip>) -> Result<String, AllocError>
    ensures { IfOk result (λ s. string_bytes s ≡ line_if (codes "    ip_addr") shown_address address) }
{
    match address {
        Some(address) => {
            let address = address_string(alloc, address)?;
            format!(in alloc; "    ip_addr: {address}\n")
        }
        None => Ok(String::new(alloc)),
    }
}

/// The line of a rate, if it is given. The key stands in its column.
fn rate_line(alloc: Global, key: &str, rate: Option<u64>) -> Result<String, AllocError>
    ensures { IfOk result (λ s. string_bytes s ≡ line_if key.now shown_rate rate) }
{
    match rate {
        Some(rate) => {
            let rate = rate_string(alloc, rate)?;
            format!(in alloc; "{key}: {rate}\n")
        }
        None => Ok(String::new(alloc)),
    }
}

/// The options that aren't the built-in defaults, in flow form.
fn options_string(alloc: Global, enabled: bool, size: u32) -> Result<Option<String>, AllocError>
    ensures { IfOk result (λ o. option_map string_bytes o ≡ changed_options enabled size) }
{
    match (enabled, size == CAPTURE_SIZE) {
        (false, true) => Ok(None),
        (false, false) => Ok(Some(format!(in alloc; "{{pcap_capture_size: {size} B}}")?)),
        (true, true) => Ok(Some(String::from_str(alloc, "{pcap_enabled: true}")?)),
        (true, false) => Ok(Some(format!(in alloc;
            "{{pcap_enabled: true, pcap_capture_size: {size} B}}"
        )?)),
    }
}

fn options_line(alloc: Global, host: &HostConfig) -> Result<String, AllocError>
    ensures { IfOk result (λ s. string_bytes s ≡ shown_options host.now) }
{
    match options_string(alloc, host.pcap_enabled, host.pcap_capture_size)? {
        Some(options) => format!(in alloc; "    host_options: {options}\n"),
        None => Ok(String::new(alloc)),
    }
}

/// The lines of the address and of the rates that are given.
fn interface_lines(alloc: Global, host: &HostConfig) -> Result<String, AllocError>
    ensures { IfOk result (λ s. string_bytes s ≡ shown_interface host.now) }
{
    let address = address_line(alloc, host.ip_addr)?;
    let up = rate_line(alloc, "    bandwidth_up", host.bandwidth_up)?;
    let down = rate_line(alloc, "    bandwidth_down", host.bandwidth_down)?;
    format!(in alloc; "{address}{up}{down}")
}

/// The lines of a host, of the texts of its values.
#[tactic(auto, unfolding(crate::specs::Shown::host_lines))]
fn host_lines(
    alloc: Global,
    name: &str,
    node: u32,
    interface: &str,
    options: &str,
    processes: &str,
) -> Result<String, AllocError>
    ensures { IfOk result (λ s. string_bytes s ≡ host_lines name.now node interface.now options.now processes.now) }
{
    format!(in alloc; "  {name}:\n    network_node_id: {node}\n{interface}{options}{processes}")
}

#[tactic(auto, unfolding(crate::specs::Shown::shown_host))]
fn host_string(alloc: Global, host: &HostConfig) -> Result<String, AllocError>
    ensures { IfOk result (λ s. string_bytes s ≡ shown_host host.now) }
{
    let name = quoted(alloc, host.name.as_str())?;
    let interface = interface_lines(alloc, host)?;
    let options = options_line(alloc, host)?;
    let processes = processes_string(alloc, host.processes.as_slice())?;
    host_lines(
        alloc,
        name.as_str(),
        host.network_node_id,
        interface.as_str(),
        options.as_str(),
        processes.as_str(),
    )
}

/// Hosts, one behind the other.
pub fn hosts_string(alloc: Global, hosts: &[HostConfig]) -> Result<String, AllocError>
    ensures { IfOk result (λ s. string_bytes s ≡ flat_map shown_host hosts.now) }
{
    let mut out = String::new(alloc);
    for host in hosts {
        let host = host_string(alloc, host)?;
        write!(out, "{host}")?;
    }
    Ok(out)
}
