//! Streams of TCP in a run, and the sockets of its hosts. Definitions and laws, and no code that runs.
#![tactic(auto)]

ghost use Rattle.std.specs.Prelude.{◌≡◌, ℕ, ◌≤◌, ◌||◌, List, Contains, Bool, Ok, Some, true, false, slice_get};
ghost use Rattle.sim_base.specs.Addresses.{loopback, is_same_ip};
ghost use Rattle.sim_base.specs.declared.address.Addr.{Addr};
ghost use Rattle.sim_base.specs.declared.address.Ip.{Ip};
ghost use Rattle.sim_base.specs.declared.event.Event.{Event};
ghost use Rattle.sim_base.specs.declared.event.What.TheVariants as what;
ghost use Rattle.sim_base.specs.declared.packet.Packet.{Packet};
ghost use Rattle.sock_udp.specs.Socket.{UdpState, takes};
ghost use Rattle.sock_tcp.specs.connection.Tcb.{Tcb};
ghost use Rattle.sock_tcp.specs.listener.Listen.{Listen};
ghost use Rattle.tcp_streams.specs.Frame.{inside};
ghost use Rattle.tcp_streams.specs.Stream.{IsSimple, stream_of, IsFaithful};
ghost use Rattle.host_sockets.specs.Accepting.{accepts_at};
ghost use Rattle.host_sockets.specs.Connecting.{connect_asked};
ghost use Rattle.host_sockets.specs.TcpSocket.{TcpSocket, listens_to};
ghost use Rattle.host_link.specs.declared.line.Line.{Line};
ghost use Rattle.host_link.specs.Net.{Net};
ghost use Rattle.host_rows.specs.declared.row.Row.{Row};
ghost use Rattle.run_files.specs.Captures.{is_loopback};
ghost use Rattle.host_state.specs.Fire.{fire};
ghost use Rattle.host_link.specs.Home.{home};
ghost use Rattle.host_state.specs.HostRecord.{HostRecord};
ghost use Rattle.host_state.specs.World.{World, IsResult, opening_world};
ghost use Rattle.host_state.specs.WorldStreams.{streams_in};
ghost use Rattle.world_order.specs.World.{Logged};
ghost use Rattle.out_text.specs.declared.streams.Fate.TheVariants.{Counted};
ghost use Rattle.out_text.specs.declared.streams.Stream.{Stream};
ghost use Rattle.socket_laws.specs.Apart.{BoundApart, BoundHere};
ghost use Rattle.socket_laws.specs.Pairs.{live_records};
ghost use Rattle.socket_streams.specs.Home.{AreAtHome};
ghost use Rattle.run_streams.specs.Exchanges.{host_records, world_records};
ghost use Rattle.run_streams.specs.Past.{TellsStays, WasLogged};
ghost use Rattle.run_streams.specs.Run.{IsReached, HasHistory, AreOutside, ArePlaced, AreHosts};

/// In every world that a run reaches, its result among them, what was read at one end is a front of what
/// was written at the other, and all of it where the reader saw the end, for ends that had one record each
/// at most, with fewer than 2^30 bytes each way: between hosts, and within each host for ends of which one
/// is 127.0.0.1, which every host has for itself.
pub fn runs_faithful()
    ensures wide { (net : Net) (rows : List Row) (w : World) (from to : Addr) → IsReached net (opening_world rows) w
        → IsSimple from to (world_records w) → IsFaithful (stream_of from to (world_records w)) }
    ensures within { (net : Net) (rows : List Row) (w : World) (i : ℕ) (h : HostRecord) (from to : Addr) → AreOutside rows → ArePlaced rows
        → IsReached net (opening_world rows) w → slice_get w.hosts i ≡ Some h → inside from to ≡ true
        → IsSimple from to (host_records h) → IsFaithful (stream_of from to (host_records h)) }
    ensures result { (net : Net) (first result : World) → IsResult net result first → IsReached net first result }
{}

/// In every world that a run reaches, the sockets of each host have a history, so that what is said of
/// every history holds of them; what they are bound to is an address of the host, and so is the own end
/// of each of its connections, as packets come to the host that has their address.
pub fn hosts_sockets()
    ensures history { (net : Net) (rows : List Row) (w : World) (i : ℕ) (h : HostRecord)
        → IsReached net (opening_world rows) w → slice_get w.hosts i ≡ Some h → HasHistory net h }
    ensures pairs { (net : Net) (rows : List Row) (w : World) (i : ℕ) (h : HostRecord)
        → IsReached net (opening_world rows) w → slice_get w.hosts i ≡ Some h
        → (own other : Addr) → live_records own other h.parts.sockets ≤ 1 }
    ensures bound { (net : Net) (rows : List Row) (w : World) (i : ℕ) (h : HostRecord)
        → IsReached net (opening_world rows) w → slice_get w.hosts i ≡ Some h → BoundApart h.parts.sockets }
    ensures taker { (net : Net) (rows : List Row) (w : World) (i : ℕ) (h : HostRecord)
        → IsReached net (opening_world rows) w → slice_get w.hosts i ≡ Some h
        → (from to : Addr) (j k : ℕ) (u v : UdpState)
        → slice_get h.parts.sockets.udp j ≡ Some (Some u) → takes from to u ≡ true
        → slice_get h.parts.sockets.udp k ≡ Some (Some v) → takes from to v ≡ true → j ≡ k }
    ensures listener { (net : Net) (rows : List Row) (w : World) (i : ℕ) (h : HostRecord)
        → IsReached net (opening_world rows) w → slice_get w.hosts i ≡ Some h
        → (to : Addr) (j k : ℕ) (a b : TcpSocket)
        → slice_get h.parts.sockets.tcp j ≡ Some a → listens_to to a ≡ true
        → slice_get h.parts.sockets.tcp k ≡ Some b → listens_to to b ≡ true → j ≡ k }
    ensures accepted { (net : Net) (rows : List Row) (w : World) (i : ℕ) (h : HostRecord)
        → IsReached net (opening_world rows) w → slice_get w.hosts i ≡ Some h
        → (k : ℕ) (r : Tcb) (rest : Listen) → accepts_at k h.parts.sockets ≡ Some (r, rest) → r.control.timer ≡ false }
    ensures local { (net : Net) (rows : List Row) (w : World) (i : ℕ) (h : HostRecord)
        → IsReached net (opening_world rows) w → slice_get w.hosts i ≡ Some h → BoundHere h.row.address h.parts.sockets }
    ensures loopback { (net : Net) (rows : List Row) (w : World) (i : ℕ) (h : HostRecord)
        → IsReached net (opening_world rows) w → slice_get w.hosts i ≡ Some h
        → (k : ℕ) (to own : Addr) → connect_asked net.known.book k to h.parts.sockets ≡ Ok own → is_same_ip to.ip loopback ≡ true
        → (is_same_ip own.ip loopback || is_same_ip own.ip h.row.address) ≡ true }
    ensures home { (net : Net) (rows : List Row) (w : World) (i : ℕ) (h : HostRecord) → AreHosts net rows
        → IsReached net (opening_world rows) w → slice_get w.hosts i ≡ Some h → AreAtHome h.row.address (host_records h) }
{}

/// What is told of the connections of a world that a run reaches holds: of each direction that is counted no
/// more bytes were read than were written, and as many where the reader saw the end.
pub fn lines_hold()
    ensures most { (net : Net) (rows : List Row) (w : World) (s : Stream) (n m : ℕ) (ended : Bool) → AreHosts net rows
        → IsReached net (opening_world rows) w
        → Contains (streams_in w) s → s.fate ≡ Counted n m ended → m ≤ n }
    ensures whole { (net : Net) (rows : List Row) (w : World) (s : Stream) (n m : ℕ) → AreHosts net rows
        → IsReached net (opening_world rows) w
        → Contains (streams_in w) s → s.fate ≡ Counted n m true → m ≡ n }
{}

/// In every world that a run reaches, a packet that comes to its host past the network, by a Loop, has
/// addresses of that host at both ends, and one that is on its way through the network has not, whatever
/// the host; so the lines that are logged as an event fires tell by addresses which packets stay at their
/// host, and each line of the packet log was logged so.
pub fn packets_stay()
    ensures past { (net : Net) (rows : List Row) (w : World) (e : Event) (p : Packet) (h : HostRecord) → AreHosts net rows
        → IsReached net (opening_world rows) w → Contains w.events e → e.what ≡ what.Loop p → slice_get w.hosts (home net e) ≡ Some h
        → is_loopback h.row.address p ≡ true }
    ensures network { (net : Net) (rows : List Row) (w : World) (e : Event) (p : Packet) (own : Ip) → AreHosts net rows
        → IsReached net (opening_world rows) w → Contains w.events e → e.what ≡ what.Packet p → is_loopback own p ≡ false }
    ensures lines { (net : Net) (rows : List Row) (w : World) (e : Event) (h : HostRecord) (line : Line) → AreHosts net rows
        → IsReached net (opening_world rows) w → Contains w.events e → slice_get w.hosts (home net e) ≡ Some h
        → Contains (fire net h e).lines line → TellsStays h.row.address e.what line }
    ensures log { (net : Net) (rows : List Row) (w : World) (l : Logged Line) → AreHosts net rows
        → IsReached net (opening_world rows) w → Contains w.log l → WasLogged net rows l }
{}
