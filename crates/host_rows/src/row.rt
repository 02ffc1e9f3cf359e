//! The row of a host: what the configuration and the graph say of it.

ghost use Rattle.std.specs.Prelude.{◌≡◌};

use base_texts::Name;
use net_iface::QueueRule;
use sim_base::{Bytes, HostId, Ip, Signal, Time};
use std::marker::Model;

/// The state in which a process is expected to be at the stop.
#[derive(Clone, Copy)]
pub enum FinalState {
    /// It ended by an exit with this status.
    Exited(u8),
    /// It was ended by this signal.
    Signaled(Signal),
    /// It runs or is blocked.
    Running,
}

/// Texts of bytes, which contracts see as a list.
#[derive(Drop)]
pub struct ByteTexts {
    items: Vec<Bytes>,
}

impl Model for ByteTexts {
    ghost use Rattle.std.specs.Prelude.{List, ℕ};

    ghost Value = { List (List ℕ) };

    ghost view = { λ t. t.items.items };
}

impl ByteTexts {
    pub fn as_slice(&self) -> &[Bytes]
        ensures { result.now ≡ self.now }
    {
        self.items.as_slice()
    }
}

impl From<Vec<Bytes>> for ByteTexts {
    ghost from_gives = { λ v t. t ≡ v.items };

    fn from(items: Vec<Bytes>) -> ByteTexts {
        ByteTexts { items }
    }
}

/// A process of a host.
#[derive(Drop)]
pub struct ProcessRow {
    /// Its program's file.
    pub path: Name,
    /// The place of its program's image among those of the net.
    pub image: usize,
    /// The texts of its arguments, its path first.
    pub arguments: ByteTexts,
    /// The texts of its environment, each a name, `=` and a value.
    pub environment: ByteTexts,
    pub start: Time,
    /// When it is shut down, if it runs then.
    pub shutdown: Option<Time>,
    /// The signal that ends it then.
    pub shutdown_signal: Signal,
    pub expected: FinalState,
}

/// The processes of a host, which contracts see as a list.
#[derive(Drop)]
pub struct ProcessRows {
    items: Vec<ProcessRow>,
}

impl Model for ProcessRows {
    ghost use Rattle.std.specs.Prelude.{List};
    ghost use Rattle.host_rows.specs.declared.row.ProcessRow.{ProcessRow};

    ghost Value = { List ProcessRow };

    ghost view = { λ r. r.items.items };
}

impl ProcessRows {
    pub fn as_slice(&self) -> &[ProcessRow]
        ensures { result.now ≡ self.now }
    {
        self.items.as_slice()
    }
}

impl From<Vec<ProcessRow>> for ProcessRows {
    ghost from_gives = { λ v r. r ≡ v.items };

    fn from(items: Vec<ProcessRow>) -> ProcessRows {
        ProcessRows { items }
    }
}

/// A host.
pub struct Row {
    pub host: HostId,
    pub name: Name,
    pub address: Ip,
    /// Bits a second of its lane to the network.
    pub bandwidth_up: u64,
    /// Bits a second of its router's lane.
    pub bandwidth_down: u64,
    /// The rule of the router's lane.
    pub router_queue: QueueRule,
    /// The seed of the experiment.
    pub seed: u32,
    /// The most bytes of a packet in its captures, where it has them.
    pub capture: Option<u32>,
    pub processes: ProcessRows,
}

/// By hand: a derived one would be proved anew in each crate that drops such a value.
impl Drop for Row {
    fn drop(self) {
        let Row {
            host: _,
            name,
            address: _,
            bandwidth_up: _,
            bandwidth_down: _,
            router_queue: _,
            seed: _,
            capture: _,
            processes,
        } = self;
        drop(name);
        drop(processes);
    }
}
