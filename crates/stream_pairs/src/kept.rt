//! What a host keeps of its connections.

use host_sockets::HostStream;
use sim_base::{HostId, Ip};

/// What a host keeps of all pairs of ends.
#[derive(Drop)]
pub struct KeptStreams {
    pub host: HostId,
    pub address: Ip,
    pub streams: Vec<HostStream>,
}
