//! Why an input is refused, and why the reading stops before its end.

ghost use Rattle.std.specs.Prelude.{◌≡◌};
ghost use Rattle.run_plan.specs.Fault.{word_of};

use base_texts::Name;
use command_line::WordsFault;
use elf_load::ElfFault;
use gml_graph::GmlFault;
use pcap_text::PcapFault;
use shd_config::ConfigFault;
use sim_base::NoMemory;
use std::alloc::{AllocError, AllocFailed};
use yaml_tree::YamlFault;

/// What is wrong with a host, in the order in which it is told.
#[derive(Clone, Copy)]
pub enum HostFault {
    /// The graph has no node of its number.
    UnknownNode,
    /// Neither the host nor its node has a rate, up or down.
    NoBandwidth,
    /// An earlier host was given its address.
    DuplicateAddress,
}

impl HostFault {
    /// The words for messages.
    pub fn word(self) -> &'static str
        ensures { result.now ≡ word_of self }
    {
        match self {
            HostFault::UnknownNode => "unknown node",
            HostFault::NoBandwidth => "no bandwidth",
            HostFault::DuplicateAddress => "duplicate address",
        }
    }
}

/// The first fault of an input.
#[derive(Drop)]
pub enum Fault {
    /// The command line is refused.
    Words(WordsFault),
    /// No such file.
    NotFound(Name),
    /// The file has more than 16 MiB.
    TooLong(Name),
    /// The configuration has no tree.
    Tree {
        file: Name,
        fault: YamlFault,
    },
    /// The configuration's tree has no configuration.
    Config {
        file: Name,
        fault: ConfigFault,
    },
    /// The graph's text has a fault; an inline one stands in the configuration's file.
    Graph {
        file: Name,
        inline: bool,
        fault: GmlFault,
    },
    /// A host of the configuration doesn't fit the graph, or another host.
    Host {
        file: Name,
        line: usize,
        host: Name,
        kind: HostFault,
    },
    /// Two nodes need a route and have none.
    NoRoute {
        from: u32,
        to: u32,
    },
    /// The program's file is no program image.
    Elf(Name, ElfFault),
    /// The data directory is there.
    Exists(Name),
    /// The file's bytes are no capture.
    Capture(Name, PcapFault),
}

/// Why the reading stops before its end.
#[derive(Drop)]
pub enum ReadStop {
    Refused(Fault),
    /// A read of this file failed.
    ReadFailed(Name),
    NoMemory,
}

impl From<Fault> for ReadStop {
    ghost use Rattle.run_plan.specs.declared.fault.ReadStop.TheVariants as stop;

    ghost from_gives = { λ fault s. s ≡ stop.Refused fault };

    fn from(fault: Fault) -> ReadStop {
        ReadStop::Refused(fault)
    }
}

impl From<NoMemory> for ReadStop {
    ghost use Rattle.run_plan.specs.declared.fault.ReadStop.TheVariants as stop;

    ghost from_gives = { λ _ s. s ≡ stop.NoMemory };

    fn from(_error: NoMemory) -> ReadStop {
        ReadStop::NoMemory
    }
}

impl From<AllocError> for ReadStop {
    ghost use Rattle.run_plan.specs.declared.fault.ReadStop.TheVariants as stop;

    ghost from_gives = { λ _ s. s ≡ stop.NoMemory };

    fn from(_error: AllocError) -> ReadStop {
        ReadStop::NoMemory
    }
}

impl<T: Drop> From<AllocFailed<T>> for ReadStop {
    ghost use Rattle.run_plan.specs.declared.fault.ReadStop.TheVariants as stop;

    ghost from_gives = { λ _ s. s ≡ stop.NoMemory };

    fn from(_error: AllocFailed<T>) -> ReadStop {
        ReadStop::NoMemory
    }
}
