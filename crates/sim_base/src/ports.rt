//! Ports: which are had, and the least that is free.

ghost use Rattle.std.specs.Prelude.{◌≡◌, ◌-◌, ◌≤◌, false};
ghost use Rattle.sim_base.specs.Addresses as spec;

use crate::address::{Addr, Ip};

/// The least port that a socket gets by itself (this project's own profile).
const FIRST_FREE: u32 = 10_000;

/// Whether a socket at this end would meet one that is bound to one of these.
pub fn is_taken(bound: &[Addr], at: Addr) -> bool
    ensures { result ≡ spec.is_taken bound.now at }
{
    bound.iter().any(|other| at.meets(*other))
}

/// The end that is asked for, for port 0 at the least port from 10000 up that none of the ends
/// has. `None`: each port is had.
pub fn with_port(bound: &[Addr], at: Addr) -> Option<Addr>
    ensures { result ≡ spec.with_port bound.now at }
{
    if at.port == 0 {
        at_free_port(bound, at.ip)
    } else {
        Some(at)
    }
}

/// An address at the least port from 10000 up that none of the ends has. `None`: each port is had.
pub fn at_free_port(bound: &[Addr], ip: Ip) -> Option<Addr>
    ensures { result ≡ spec.at_free_port bound.now ip }
{
    let port = least_free_port(bound)?;
    Some(Addr { ip, port })
}

/// The least port from 10000 up that none of the ends has. `None`: each port is had.
pub fn least_free_port(bound: &[Addr]) -> Option<u16>
    ensures { result ≡ spec.least_free_port bound.now }
{
    let mut port = FIRST_FREE;
    loop {
        let next = port_past(bound, port);
        if next == port {
            break;
        }
        port = next;
    }
    u16::try_from(port).ok()
}

/// The port after those that the ends have, from a port on, each where the last one left it. It is
/// the same port where none of them has it.
fn port_past(bound: &[Addr], port: u32) -> u32
    requires { port ≤ 65536 }
    ensures first_free { spec.first_free_port bound.now result (65536 - result) ≡ spec.first_free_port bound.now port (65536 - port) }
    ensures no_less { port ≤ result }
    ensures within { result ≤ 65536 }
    ensures free { result ≡ port → spec.has_port bound.now port ≡ false }
{
    let mut past = port;
    for at in bound {
        if u32::from(at.port) == past {
            past += 1;
        }
    }
    past
}
