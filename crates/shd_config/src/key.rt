//! The keys of a configuration.

ghost use Rattle.std.specs.Prelude.{◌≡◌};
ghost use Rattle.shd_config.specs.Keys.{key_in, key_of, table};

/// A key that a mapping of a configuration may have.
#[derive(Clone, Copy)]
pub enum Key {
    General,
    Network,
    Hosts,
    HostOptionDefaults,
    Experimental,
    StopTime,
    Seed,
    Parallelism,
    BootstrapEndTime,
    DataDirectory,
    LogLevel,
    HeartbeatInterval,
    Progress,
    ModelUnblockedSyscallLatency,
    Graph,
    UseShortestPath,
    RouterQueue,
    Type,
    Inline,
    File,
    Path,
    Compression,
    NetworkNodeId,
    IpAddr,
    BandwidthUp,
    BandwidthDown,
    HostOptions,
    PcapEnabled,
    PcapCaptureSize,
    Processes,
    Args,
    Environment,
    StartTime,
    ShutdownTime,
    ShutdownSignal,
    ExpectedFinalState,
    Exited,
    Signaled,
}

/// The name of each key.
const NAMES: [(&[u8], Key); 38] = [
    (b"general", Key::General),
    (b"network", Key::Network),
    (b"hosts", Key::Hosts),
    (b"host_option_defaults", Key::HostOptionDefaults),
    (b"experimental", Key::Experimental),
    (b"stop_time", Key::StopTime),
    (b"seed", Key::Seed),
    (b"parallelism", Key::Parallelism),
    (b"bootstrap_end_time", Key::BootstrapEndTime),
    (b"data_directory", Key::DataDirectory),
    (b"log_level", Key::LogLevel),
    (b"heartbeat_interval", Key::HeartbeatInterval),
    (b"progress", Key::Progress),
    (
        b"model_unblocked_syscall_latency",
        Key::ModelUnblockedSyscallLatency,
    ),
    (b"graph", Key::Graph),
    (b"use_shortest_path", Key::UseShortestPath),
    (b"router_queue", Key::RouterQueue),
    (b"type", Key::Type),
    (b"inline", Key::Inline),
    (b"file", Key::File),
    (b"path", Key::Path),
    (b"compression", Key::Compression),
    (b"network_node_id", Key::NetworkNodeId),
    (b"ip_addr", Key::IpAddr),
    (b"bandwidth_up", Key::BandwidthUp),
    (b"bandwidth_down", Key::BandwidthDown),
    (b"host_options", Key::HostOptions),
    (b"pcap_enabled", Key::PcapEnabled),
    (b"pcap_capture_size", Key::PcapCaptureSize),
    (b"processes", Key::Processes),
    (b"args", Key::Args),
    (b"environment", Key::Environment),
    (b"start_time", Key::StartTime),
    (b"shutdown_time", Key::ShutdownTime),
    (b"shutdown_signal", Key::ShutdownSignal),
    (b"expected_final_state", Key::ExpectedFinalState),
    (b"exited", Key::Exited),
    (b"signaled", Key::Signaled),
];

fn find(names: &[(&[u8], Key)], name: &[u8]) -> Option<Key>
    ensures { result ≡ key_in (table names.now) name.now }
{
    for (known, key) in names {
        if *known == name {
            return Some(*key);
        }
    }
    None
}

/// The key of a name.
#[tactic(auto, unfolding(crate::specs::Keys::key_of))]
pub fn key_of(name: &str) -> Option<Key>
    ensures { result ≡ key_of name.now }
{
    find(&NAMES, name.as_bytes())
}
