//! How a TCP socket is found.

ghost use Rattle.std.specs.Prelude.{◌≡◌, ◌≢◌, ◌<◌, ◌⊎◌, ◌==◌, ℕ, true, List, Some, length, position, slice_get, IfSome};
ghost use Rattle.std.specs.List.{list_any};
ghost use Rattle.host_sockets.specs.TcpSocket.{TcpSocket};
ghost use Rattle.host_sockets.specs.inside.Lookup.{is_sought, earlier, IsSoughtAt};
ghost use Rattle.host_sockets.specs.SocketsStand.{SocketStands, AllStand};

use crate::tcp_sock::TcpSock;
use sim_base::Addr;

/// Which socket is looked for.
#[derive(Clone, Copy)]
pub enum Sought {
    /// A place that a new socket may take.
    Free,
    /// That with the live connection of two ends.
    Record { own: Addr, other: Addr },
    /// That whose listener keeps the live connection of two ends.
    Keeper { own: Addr, other: Addr },
    /// That which listens for connections to an end.
    Listener { to: Addr },
}

impl TcpSock {
    ghost use Rattle.std.specs.Prelude.{◌≡◌};
    ghost use Rattle.host_sockets.specs.TcpSocket.{TcpSocket};
    ghost use Rattle.host_sockets.specs.inside.Lookup.{is_sought};
    ghost use Rattle.host_sockets.specs.SocketsStand.{SocketStands};

    /// Whether it is looked for.
    fn is_sought(&self, sought: Sought) -> bool
        ensures { (s : TcpSocket) → SocketStands self.now s → result ≡ is_sought sought s }
    {
        match sought {
            Sought::Free => self.is_free(),
            Sought::Record { own, other } => self.has_record(own, other),
            Sought::Keeper { own, other } => self.keeps_record(own, other),
            Sought::Listener { to } => self.listens_to(to),
        }
    }
}

/// The place of the first socket that is looked for.
pub(crate) fn place_in(socks: &[TcpSock], sought: Sought) -> Option<usize>
    ensures place { (sockets : List TcpSocket) → AllStand socks.now sockets → result ≡ position (is_sought sought) sockets }
    ensures within { IfSome result (λ place. place < length socks.now) }
{
    for (place, sock) in socks.iter().enumerate() {
        if sock.is_sought(sought) {
            return Some(place);
        }
    }
    None
}

/// Whether the socket at a place is looked for.
pub(crate) fn sought_at(socks: &[TcpSock], place: usize, sought: Sought) -> bool
    ensures is { (c : TcpSock) (s : TcpSocket) → slice_get socks.now place ≡ Some c → SocketStands c s → result ≡ is_sought sought s }
    ensures within { result ≡ true → place < length socks.now }
{
    if place >= socks.len() {
        return false;
    }
    socks[place].is_sought(sought)
}

/// The earlier one of a place that was found, if there is one, and another.
fn earlier(best: Option<usize>, place: usize) -> usize
    ensures { result ≡ earlier best place }
{
    match best {
        Some(best) => { if place < best { place } else { best } }
        None => place,
    }
}

/// The earlier one of a place that was found, if there is one, and another whose socket may be
/// looked for.
fn better(socks: &[TcpSock], best: Option<usize>, place: usize, sought: Sought) -> Option<usize>
    ensures sought { (c : TcpSock) (s : TcpSocket) → slice_get socks.now place ≡ Some c → SocketStands c s → is_sought sought s ≡ true
        → result ≡ Some (earlier best place) }
    ensures either { (result ≡ best) ⊎ ((result ≡ Some (earlier best place)) × ((place < length socks.now) × IsSoughtAt sought socks.now place)) }
{
    if sought_at(socks, place, sought) {
        Some(earlier(best, place))
    } else {
        best
    }
}

/// The first place of a socket that is looked for, where it can only be the place `last` or one of
/// some others.
pub(crate) fn first_among(
    socks: &[TcpSock],
    places: &[usize],
    last: usize,
    sought: Sought,
) -> Option<usize>
    ensures place { (sockets : List TcpSocket) → AllStand socks.now sockets
        → ((k : ℕ) (c : TcpSock) (s : TcpSocket) → k ≢ last → slice_get socks.now k ≡ Some c → SocketStands c s → is_sought sought s ≡ true
        → list_any (λ j. j == k) places.now ≡ true)
        → result ≡ position (is_sought sought) sockets }
    ensures within { IfSome result (λ place. place < length socks.now) }
{
    let mut best = better(socks, None, last, sought);
    for place in places {
        best = better(socks, best, *place, sought);
    }
    best
}
