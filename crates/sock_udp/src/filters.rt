//! Which datagrams a socket takes.

ghost use Rattle.std.specs.Prelude.{◌≡◌};
ghost use Rattle.sock_udp.specs.Socket as spec;

use sim_base::{Addr, Ip};

/// Whether what is sent to an end goes to a socket that is bound so.
pub(crate) fn is_bound_for(local: Option<Addr>, to: Addr) -> bool
    ensures { result ≡ spec.is_bound_for local to }
{
    match local {
        Some(at) => at.port == to.port && (at.ip == Ip::ANY || at.ip == to.ip),
        None => false,
    }
}

/// Whether a socket with this peer takes what comes from an end.
pub(crate) fn is_open_to(peer: Option<Addr>, from: Addr) -> bool
    ensures { result ≡ spec.is_open_to peer from }
{
    match peer {
        Some(peer) => peer == from,
        None => true,
    }
}
