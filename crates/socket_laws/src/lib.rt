//! Laws of the sockets of a host, over everything that may happen at it. No code that runs.
#![tactic(auto)]

ghost use Rattle.std.specs.Prelude.{◌≡◌, ◌≤◌, ◌||◌, ℕ, ℤ, List, Option, Some, Ok, false, true, slice_get, find, filter};
ghost use Rattle.std.specs.List.Sorted.{IsStrictlySortedBy};
ghost use Rattle.sim_base.specs.Addresses.{loopback, is_same_ip, is_local};
ghost use Rattle.sim_base.specs.declared.address.Addr.{Addr};
ghost use Rattle.sim_base.specs.declared.address.Ip.{Ip};
ghost use Rattle.sim_base.specs.declared.packet.Packet.{Packet};
ghost use Rattle.sim_base.specs.declared.time.Time.{Time};
ghost use Rattle.sock_tcp.specs.connection.Tcb.{Tcb};
ghost use Rattle.sock_tcp.specs.listener.Listen.{Listen, accepts};
ghost use Rattle.sock_udp.specs.Socket.{UdpState, takes};
ghost use Rattle.host_sockets.specs.Accepting.{accepts_at};
ghost use Rattle.socket_laws.specs.Apart.{BoundApart, BoundHere};
ghost use Rattle.host_sockets.specs.Binding.{bound_to_use};
ghost use Rattle.host_sockets.specs.Connecting.{source_end, connect_asked};
ghost use Rattle.socket_laws.specs.Histories.{SocketsAct, sockets_of};
ghost use Rattle.socket_laws.specs.Pairs.{live_records};
ghost use Rattle.host_sockets.specs.Ready.{tcp_rises, udp_rises};
ghost use Rattle.socket_laws.specs.Rises.{AreCounted, tcp_rises_counted, udp_rises_counted};
ghost use Rattle.host_sockets.specs.Sockets.{SocketsRecord};
ghost use Rattle.host_sockets.specs.Records.{records_of};
ghost use Rattle.host_sockets.specs.Streams.{pair_order, streams_of};
ghost use Rattle.socket_laws.specs.Told.{is_between, is_of, told_of};
ghost use Rattle.udp_slots.specs.Slots.{local_in};
ghost use Rattle.host_sockets.specs.Udp.{udp_in, sends_udp};
ghost use Rattle.host_sockets.specs.TcpSocket.{TcpSocket, listens_to};
ghost use Rattle.socket_laws.specs.Waiting.{ListenAct, listen_of};

/// Whatever happened at a host, the connection that a socket accepts next has no running timer. So no
/// alarm of it is left behind where it gets a socket of its own.
pub fn accepted_rests()
    ensures host { (hosts : List Ip) (own : Ip) (draws : List ℕ) (acts : List (Time × SocketsAct)) (k : ℕ) (r : Tcb) (rest : Listen)
        → accepts_at k (sockets_of hosts own draws acts) ≡ Some (r, rest) → r.control.timer ≡ false }
    ensures listener { (local : Addr) (count : ℤ) (acts : List ListenAct) (r : Tcb) (rest : Listen)
        → accepts (listen_of local count acts) ≡ Some (r, rest) → r.control.timer ≡ false }
{}

/// Two live connections of a host never have the same pair of ends, be they of sockets or of those
/// that wait at listeners.
pub fn pairs_apart()
    ensures { (own other : Addr) (hosts : List Ip) (host : Ip) (draws : List ℕ) (acts : List (Time × SocketsAct))
        → live_records own other (sockets_of hosts host draws acts) ≤ 1 }
{}

/// What a socket sends comes from the end that it is bound to, by the rule of source addresses.
pub fn sources()
    ensures datagram { (hosts : List Ip) (k : ℕ) (bytes : List ℕ) (to : Option Addr) (t after : SocketsRecord) (p : Packet)
        → sends_udp hosts k bytes to t ≡ Ok (p, after)
        → (at : Addr) × ((local_in (udp_in k after) ≡ Some at) × (p.from ≡ source_end t.own at p.to)) }
    ensures connection { (hosts : List Ip) (k : ℕ) (to own : Addr) (t : SocketsRecord)
        → connect_asked hosts k to t ≡ Ok own
        → (at : Addr) × ((bound_to_use k t ≡ Ok at) × (own ≡ source_end t.own at to)) }
{}

/// A connection that a socket opens from 127.0.0.1 goes there, and one that goes there comes from it
/// or from the host's own address, as what its socket is bound to is an address of the host.
pub fn loopback_inside()
    ensures from { (hosts : List Ip) (k : ℕ) (to own : Addr) (t : SocketsRecord)
        → is_same_ip t.own loopback ≡ false → connect_asked hosts k to t ≡ Ok own
        → is_same_ip own.ip loopback ≡ true → is_same_ip to.ip loopback ≡ true }
    ensures to { (hosts : List Ip) (k : ℕ) (to own at : Addr) (t : SocketsRecord)
        → connect_asked hosts k to t ≡ Ok own → bound_to_use k t ≡ Ok at → is_local t.own at.ip ≡ true
        → is_same_ip to.ip loopback ≡ true
        → (is_same_ip own.ip loopback || is_same_ip own.ip t.own) ≡ true }
    ensures history { (hosts : List Ip) (host : Ip) (draws : List ℕ) (acts : List (Time × SocketsAct)) (k : ℕ) (to own : Addr)
        → connect_asked hosts k to (sockets_of hosts host draws acts) ≡ Ok own → is_same_ip to.ip loopback ≡ true
        → (is_same_ip own.ip loopback || is_same_ip own.ip host) ≡ true }
{}

/// Whatever happened at a host, no two of its sockets of one protocol that are bound meet: they
/// have different ports, or different addresses of which neither is 0.0.0.0.
pub fn bound_apart()
    ensures { (hosts : List Ip) (own : Ip) (draws : List ℕ) (acts : List (Time × SocketsAct))
        → BoundApart (sockets_of hosts own draws acts) }
{}

/// What they are bound to is an address of the host: 0.0.0.0, 127.0.0.1 or its own.
pub fn bound_here()
    ensures { (hosts : List Ip) (own : Ip) (draws : List ℕ) (acts : List (Time × SocketsAct))
        → BoundHere own (sockets_of hosts own draws acts) }
{}

/// And at most one of its UDP sockets takes a datagram from one end to another.
pub fn one_takes()
    ensures { (hosts : List Ip) (own : Ip) (draws : List ℕ) (acts : List (Time × SocketsAct)) (from to : Addr) (i j : ℕ) (u v : UdpState)
        → slice_get (sockets_of hosts own draws acts).udp i ≡ Some (Some u) → takes from to u ≡ true
        → slice_get (sockets_of hosts own draws acts).udp j ≡ Some (Some v) → takes from to v ≡ true → i ≡ j }
{}

/// And at most one of its TCP sockets listens for connections to an end.
pub fn one_listens()
    ensures { (hosts : List Ip) (own : Ip) (draws : List ℕ) (acts : List (Time × SocketsAct)) (to : Addr) (i j : ℕ) (a b : TcpSocket)
        → slice_get (sockets_of hosts own draws acts).tcp i ≡ Some a → listens_to to a ≡ true
        → slice_get (sockets_of hosts own draws acts).tcp j ≡ Some b → listens_to to b ≡ true → i ≡ j }
{}

/// The rises that are kept of a socket are those of the definition: the number of acts, from the one on
/// that made it, by which a bit came to hold, and for `POLLIN` also of those that put something in.
pub fn rises_are_counted()
    ensures tcp { (hosts : List Ip) (own : Ip) (draws : List ℕ) (acts : List (Time × SocketsAct)) (k : ℕ)
        → AreCounted (tcp_rises k (sockets_of hosts own draws acts)) (λ bit. tcp_rises_counted bit k hosts own draws acts) }
    ensures udp { (hosts : List Ip) (own : Ip) (draws : List ℕ) (acts : List (Time × SocketsAct)) (k : ℕ)
        → AreCounted (udp_rises k (sockets_of hosts own draws acts)) (λ bit. udp_rises_counted bit k hosts own draws acts) }
{}

/// What a host tells of two ends: nothing where it never had a connection of them; what the only one
/// carried; of more that the ends were used again. It is told in the order of the ends, once of each.
pub fn streams_told()
    ensures told { (own peer : Addr) (t : SocketsRecord) → find (is_of own peer) (streams_of t) ≡ told_of (filter (is_between own peer) (records_of t)) }
    ensures order { (t : SocketsRecord) → IsStrictlySortedBy pair_order (streams_of t) }
{}
