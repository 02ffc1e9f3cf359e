//! The rows of hosts and the parts of their net, which a plan says.

ghost use Rattle.std.specs.Prelude.{◌≡◌, ◌≤◌, ◌∷◌, map, length, IfOk};
ghost use Rattle.sim_base.specs.Limits.{most_hosts};
ghost use Rattle.run_plan.specs.Plan.{nodes_of};
ghost use Rattle.plan_rows.specs.Rows.{variable_text, process_of, processes_of, capture_of, row_of, rows_from, known_of, cut_lookahead};

use base_texts::{Name, Text};
use file_calls::Known;
use host_rows::{ByteTexts, ProcessRow, ProcessRows, Row};
use run_plan::{HostRow, Settings};
use shd_config::{HostConfig, ProcessConfig, Variable};
use sim_base::{Book, Bytes, HostId, Ip, NoMemory, Time};
use std::alloc::Global;

/// The longest lookahead, which is past every stop.
const LONGEST: u64 = 1 << 62;

fn bytes_of(text: Text) -> Bytes
    ensures { result ≡ text }
{
    Bytes::from(text.into_string().into_bytes())
}

/// A variable as its process finds it: NAME=VALUE.
fn variable(alloc: Global, variable: &Variable) -> Result<Bytes, NoMemory>
    ensures { IfOk result (λ bytes. bytes ≡ variable_text variable.now) }
{
    let mut bytes = Bytes::from_slice(alloc, variable.name.as_bytes())?;
    bytes.extend_from_slice(b"=")?;
    bytes.extend_from_slice(variable.value.as_bytes())?;
    Ok(bytes)
}

/// The path, and the arguments behind it.
fn arguments_of(alloc: Global, path: &Name, args: &[Text]) -> Result<Vec<Bytes>, NoMemory>
    ensures { IfOk result (λ v. v.items ≡ path.now ∷ args.now) }
{
    let mut arguments = Vec::new(alloc);
    arguments.push(Bytes::from_slice(alloc, path.as_bytes())?)?;
    for arg in args {
        arguments.push(Bytes::from_slice(alloc, arg.as_bytes())?)?;
    }
    Ok(arguments)
}

fn environment_of(alloc: Global, variables: &[Variable]) -> Result<Vec<Bytes>, NoMemory>
    ensures { IfOk result (λ v. v.items ≡ map variable_text variables.now) }
{
    let mut environment = Vec::new(alloc);
    for each in variables {
        environment.push(variable(alloc, each)?)?;
    }
    Ok(environment)
}

/// A process, and the place of its image.
fn process_row(alloc: Global, process: &ProcessConfig, image: usize) -> Result<ProcessRow, NoMemory>
    ensures { IfOk result (λ row. row ≡ process_of process.now image) }
{
    Ok(ProcessRow {
        path: Name::from_str(alloc, process.path.as_str())?,
        image,
        arguments: ByteTexts::from(arguments_of(alloc, &process.path, process.args.as_slice())?),
        environment: ByteTexts::from(environment_of(alloc, process.environment.as_slice())?),
        start: process.start_time,
        shutdown: process.shutdown_time,
        shutdown_signal: process.shutdown_signal,
        expected: process.expected_final_state,
    })
}

fn process_rows(
    alloc: Global,
    processes: &[ProcessConfig],
    images: &[usize],
) -> Result<Vec<ProcessRow>, NoMemory>
    ensures { IfOk result (λ rows. rows.items ≡ processes_of processes.now images.now) }
{
    let mut rows = Vec::new(alloc);
    for (place, process) in processes.iter().enumerate() {
        let Some(image) = images.get(place) else {
            break;
        };
        rows.push(process_row(alloc, process, *image)?)?;
    }
    Ok(rows)
}

/// The capture size of a host whose packets are captured.
fn capture_of(host: &HostConfig) -> Option<u32>
    ensures { result ≡ capture_of host.now }
{
    if host.pcap_enabled {
        Some(host.pcap_capture_size)
    } else {
        None
    }
}

/// The host with a number.
fn row_of(alloc: Global, settings: &Settings, number: u32, host: &HostRow) -> Result<Row, NoMemory>
    ensures { IfOk result (λ row. row ≡ row_of settings.now number host.now) }
{
    let config = &host.config;
    let processes = process_rows(alloc, config.processes.as_slice(), host.images.as_slice())?;
    Ok(Row {
        host: HostId { index: number },
        name: Name::from_str(alloc, config.name.as_str())?,
        address: host.address,
        bandwidth_up: host.rates.up,
        bandwidth_down: host.rates.down,
        router_queue: settings.router_queue,
        seed: settings.seed,
        processes: ProcessRows::from(processes),
        capture: capture_of(config),
    })
}

/// The hosts in their order.
pub fn rows_of(alloc: Global, settings: &Settings, hosts: &[HostRow]) -> Result<Vec<Row>, NoMemory>
    requires { length hosts.now ≤ most_hosts }
    ensures { IfOk result (λ rows. rows.items ≡ rows_from settings.now 0 hosts.now) }
{
    let mut rows = Vec::new(alloc);
    for (number, host) in hosts.iter().enumerate() {
        rows.push(row_of(alloc, settings, number as u32, host)?)?;
    }
    Ok(rows)
}

fn addresses_of(alloc: Global, hosts: &[HostRow]) -> Result<Vec<Ip>, NoMemory>
    ensures { IfOk result (λ v. v.items ≡ map (λ h. h.address) hosts.now) }
{
    let mut addresses = Vec::new(alloc);
    for host in hosts {
        addresses.push(host.address)?;
    }
    Ok(addresses)
}

/// The nodes of hosts.
pub fn nodes_of(alloc: Global, hosts: &[HostRow]) -> Result<Vec<u32>, NoMemory>
    ensures { IfOk result (λ v. v.items ≡ nodes_of hosts.now) }
{
    let mut nodes = Vec::new(alloc);
    for host in hosts {
        nodes.push(host.config.network_node_id)?;
    }
    Ok(nodes)
}

/// The book of all addresses, and the text of `/etc/hosts`.
pub fn known_of(alloc: Global, hosts: &[HostRow], text: Text) -> Result<Known, NoMemory>
    requires { length hosts.now ≤ most_hosts }
    ensures { IfOk result (λ k. k ≡ known_of hosts.now text) }
{
    let addresses = addresses_of(alloc, hosts)?;
    Ok(Known {
        book: Book::new(alloc, addresses)?,
        hosts: bytes_of(text),
    })
}

/// A lookahead, cut at the longest.
pub fn cut_lookahead(lookahead: Option<Time>) -> Option<Time>
    ensures { result ≡ cut_lookahead lookahead }
{
    let time = lookahead?;
    Some(Time {
        nanos: time.nanos.min(LONGEST),
    })
}
