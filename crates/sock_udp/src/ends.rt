//! What sockets are bound and connected to.

use sim_base::Addr;

/// What a UDP socket is bound to and connected to.
#[derive(Clone, Copy, PartialEq, Eq)]
pub struct UdpEnds {
    pub local: Option<Addr>,
    pub peer: Option<Addr>,
}
