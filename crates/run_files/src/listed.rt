//! What is told of each host: its name and address, its capture size, and of its processes the programs and the expected final states.

ghost use Rattle.std.proofs.Props.{props};
ghost use Rattle.std.specs.Prelude.{◌≡◌};
ghost use Rattle.std.specs.List.{list_any};
ghost use Rattle.run_files.specs.Captures.{is_there};

use base_texts::Name;
use sim_base::{Ip, State};

/// A process of a host.
#[derive(Drop)]
pub struct ProcessListing {
    /// The part of its program's path behind the last slash.
    pub program: Name,
    pub expected: State,
}

/// A host.
#[derive(Drop)]
pub struct HostListing {
    pub name: Name,
    pub address: Ip,
    /// The most bytes of a packet in its captures, where it has them.
    pub capture: Option<u32>,
    pub processes: Vec<ProcessListing>,
}

/// The hosts of a run in their order. So that no round has to look for it, whether any of them captures stands beside them.
pub struct Listing {
    pub hosts: Vec<HostListing>,
    pub captures: bool,
    ghost told: { captures ≡ list_any (λ host. is_there host.capture) hosts.items } by { Prim.hlevel props },
}

/// By hand: a derived one would be proved anew in each crate that drops such a value.
impl Drop for Listing {
    fn drop(self) {
        let Listing { hosts, captures: _ } = self;
        drop(hosts);
    }
}
