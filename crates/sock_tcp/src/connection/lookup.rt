//! How a connection is found by its two ends.

ghost use Rattle.std.specs.Prelude.{◌≡◌, ◌≤◌, List, length, position};
ghost use Rattle.sock_tcp.specs.connection.Tcb.{Tcb};
ghost use Rattle.sim_base.specs.Addresses.{is_same};
ghost use Rattle.sock_tcp.specs.connection.Pairs.{is_pair, place_in, takes};
ghost use Rattle.sock_tcp.specs.connection.StandsFor.{StandsAll};

use crate::connection::conn::Conn;
use sim_base::{Addr, Load, Packet};

fn is_same(a: Addr, b: Addr) -> bool
    ensures { result ≡ is_same a b }
{
    a.ip == b.ip && a.port == b.port
}

fn is_pair(conn: &Conn, own: Addr, other: Addr) -> bool
    ensures { result ≡ is_pair own other conn.now.control }
{
    !conn.control.state.is_over()
        && is_same(conn.control.local, own)
        && is_same(conn.control.peer, other)
}

/// The place of the live connection of two ends.
fn position_in(conns: &[Conn], own: Addr, other: Addr) -> Option<usize>
    ensures { result ≡ position (λ c. is_pair own other c.control) conns.now }
{
    conns.iter().position(|conn| is_pair(conn, own, other))
}

/// The place of the live connection of two ends, or the length where there is none.
#[tactic(auto, using(crate::proofs::Connections::Places::place_within))]
pub fn place_in(conns: &[Conn], own: Addr, other: Addr) -> usize
    ensures place { (records : List Tcb) → StandsAll conns.now records
        → result ≡ place_in own other records }
    ensures within { result ≤ length conns.now }
{
    position_in(conns, own, other).unwrap_or(conns.len())
}

impl Conn {
    ghost use Rattle.sock_tcp.specs.connection.StandsFor.{StandsFor};

    /// Whether a packet is a segment of the connection's two ends, while it isn't over.
    pub fn takes(&self, packet: &Packet) -> bool
        ensures { (r : Tcb) → StandsFor self.now r → result ≡ takes packet.now r.control }
    {
        matches!(packet.load, Load::Tcp { .. }) && is_pair(self, packet.to, packet.from)
    }
}
