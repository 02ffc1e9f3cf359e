//! A configuration.

ghost use Rattle.std.specs.Prelude.{◌≡◌};

use crate::lists::{Hosts, Processes, Variables};
use base_texts::{Name, Text};
use host_rows::FinalState;
use net_iface::QueueRule;
use shd_values::Texts;
use sim_base::{Ip, Signal, Time};

/// Where the graph of the network comes from.
#[derive(Drop)]
pub enum GraphSource {
    /// One node with 1 Gbit both ways and a loop of 1 ms.
    OneGbitSwitch,
    /// The text of a graph.
    Inline(Text),
    /// The name of a file that has the text of a graph.
    File(Name),
}

/// A variable of an environment.
#[derive(Drop)]
pub struct Variable {
    pub name: Text,
    pub value: Text,
}

/// A process of a host.
#[derive(Drop)]
pub struct ProcessConfig {
    /// The file of the program; the part behind its last `/` isn't empty.
    pub path: Name,
    pub args: Texts,
    pub environment: Variables,
    pub start_time: Time,
    /// Later than the start, where it is given.
    pub shutdown_time: Option<Time>,
    pub shutdown_signal: Signal,
    pub expected_final_state: FinalState,
}

/// A host.
#[derive(Drop)]
pub struct HostConfig {
    pub name: Name,
    /// The line of the host's key.
    pub line: usize,
    pub network_node_id: u32,
    pub ip_addr: Option<Ip>,
    /// Bits a second, at least 1; the node's where there is none.
    pub bandwidth_up: Option<u64>,
    /// Bits a second, at least 1; the node's where there is none.
    pub bandwidth_down: Option<u64>,
    pub pcap_enabled: bool,
    /// Bytes of a packet, 1 to 65,535.
    pub pcap_capture_size: u32,
    /// At most 64.
    pub processes: Processes,
}

/// A configuration.
#[derive(Drop)]
pub struct Config {
    /// 1 ns to 2^61 ns.
    pub stop_time: Time,
    pub seed: u32,
    /// The number of workers; 0 stands for as many as the machine has cores.
    pub parallelism: u32,
    pub bootstrap_end_time: Time,
    /// Not empty.
    pub data_directory: Name,
    pub graph: GraphSource,
    pub use_shortest_path: bool,
    pub router_queue: QueueRule,
    /// 1 to 16,384, in document order.
    pub hosts: Hosts,
    /// The paths of the keys that have no effect, in document order.
    pub notes: Texts,
}

impl Config {
    /// The paths of the keys that have no effect, in document order.
    pub fn notes(&self) -> &[Text]
        ensures { result.now ≡ self.now.notes }
    {
        self.notes.as_slice()
    }
}
