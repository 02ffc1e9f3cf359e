//! What a worker leaves.

use file_calls::Output;
use host_link::Logged;
use host_state::Host;
use sim_base::{HostId, Parcel};

/// A host that was run up to the end of a round, the lines of the log that it made, and what its processes wrote, each in order.
#[derive(Drop)]
pub struct Done {
    pub id: HostId,
    pub host: Box<Host>,
    pub lines: Vec<Logged>,
    pub outputs: Vec<Output>,
}

/// The hosts that a worker ran, in the order in which it took them, and the parcels that are in no inbox.
#[derive(Drop)]
pub struct Worked {
    pub done: Vec<Done>,
    pub spill: Vec<Parcel>,
}
