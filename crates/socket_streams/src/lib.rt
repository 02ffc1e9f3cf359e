//! The sockets of a host as an exchange of connections: each act of them is a step. Definitions and laws, and
//! no code that runs.
#![tactic(auto)]

ghost use Rattle.std.specs.Prelude.{◌≡◌, ℕ, List, ◌++◌, Bool, Contains, Some};
ghost use Rattle.sim_base.specs.declared.address.Addr.{Addr};
ghost use Rattle.sim_base.specs.declared.address.Ip.{Ip};
ghost use Rattle.sim_base.specs.declared.packet.Packet.{Packet};
ghost use Rattle.sim_base.specs.declared.time.Time.{Time};
ghost use Rattle.sock_tcp.specs.connection.Tcb.{Tcb};
ghost use Rattle.host_sockets.specs.Records.{records_of};
ghost use Rattle.host_sockets.specs.Sockets.{SocketsRecord, no_sockets};
ghost use Rattle.host_wants.specs.Wanted.{Wanted};
ghost use Rattle.socket_laws.specs.Histories.{SocketsAct, sockets_acted, sockets_of};
ghost use Rattle.socket_streams.specs.Records.{packets_of, exchange_of};
ghost use Rattle.socket_streams.specs.Home.{AllComeHome, AreAtHome};
ghost use Rattle.socket_streams.specs.Leads.{Leads};
ghost use Rattle.socket_streams.specs.May.{MayDo, MovesFreely, ArePlain};

/// Each act of a host's sockets, and each list of them, leads from exchange to exchange, beside whatever other
/// records there are, and leaves the sockets plain.
pub fn sockets_lead()
    ensures one { (scope : Addr → Addr → Bool) (hosts : List Ip) (own : Ip) (now : Time) (act : SocketsAct) (t : SocketsRecord) (w : Wanted) (others : List Tcb) (flying : List Packet)
        → ArePlain own t → MayDo (flying ++ packets_of w) (flying ++ packets_of w) act
        → Leads scope own (exchange_of others flying (t, w)) (exchange_of others flying (sockets_acted hosts now act t w))
        × ArePlain own (sockets_acted hosts now act t w).0 }
    ensures all { (scope : Addr → Addr → Bool) (hosts : List Ip) (own : Ip) (x y : SocketsRecord × Wanted) (others : List Tcb) (flying : List Packet)
        → ArePlain own x.0 → MovesFreely hosts flying x y
        → Leads scope own (exchange_of others flying x) (exchange_of others flying y) × ArePlain own y.0 }
    ensures none { (own : Ip) → ArePlain own (no_sockets own) }
{}

/// Where packets come to a host for one of its addresses alone, 127.0.0.1 or its own, each of its
/// connections has one of them at its own end.
pub fn records_at_home()
    ensures { (hosts : List Ip) (own : Ip) (draws : List ℕ) (acts : List (Time × SocketsAct)) → AllComeHome own acts
        → AreAtHome own (records_of (sockets_of hosts own draws acts)) }
{}
