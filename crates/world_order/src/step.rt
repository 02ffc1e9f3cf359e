//! The steps of a round.

use sim_base::HostId;

/// Where a packet that was made for another host is put.
#[derive(Clone, Copy, Drop)]
pub enum Spot {
    /// A place of the host that it goes to, from 0.
    Place(u32),
    /// The list of the worker that made it.
    Spill,
}

/// A step of a round. Workers are numbered from 0.
#[derive(Clone, Copy, Drop)]
pub enum Step {
    /// The worker takes a host that waits.
    Take { worker: u32, host: HostId },
    /// The host in the worker's hand fires its least event.
    Fire { worker: u32 },
    /// The worker puts the first of the packets in its hand somewhere.
    Put { worker: u32, spot: Spot },
    /// The worker gives its host back.
    Back { worker: u32 },
    /// The round ends.
    Close,
}
