//! Where a socket sends from.

ghost use Rattle.std.specs.Prelude.{◌≡◌};
ghost use Rattle.sim_base.specs.Addresses as spec;

use crate::address::{Addr, Ip};

/// Whether a socket that is bound so sends to 127.0.0.1 alone.
pub fn stays_inside(local: Option<Addr>) -> bool
    ensures { result ≡ spec.stays_inside local }
{
    match local {
        Some(at) => at.ip == Ip::LOOPBACK,
        None => false,
    }
}

/// The source address of what a socket that is bound to an address sends to another: the bound one
/// where that is not 0.0.0.0, else 127.0.0.1 to 127.0.0.1, else the host's own.
pub fn source_ip(own: Ip, bound: Ip, to: Ip) -> Ip
    ensures { result ≡ spec.source_ip own bound to }
{
    if bound != Ip::ANY {
        bound
    } else if to == Ip::LOOPBACK {
        Ip::LOOPBACK
    } else {
        own
    }
}
