//! System calls as acts of a host's sockets. Definitions and laws, and no code that runs.
#![tactic(auto)]

ghost use Rattle.std.specs.Prelude.{ℕ, List, ◌++◌, Contains};
ghost use Rattle.sim_base.specs.declared.address.Ip.{Ip};
ghost use Rattle.sim_base.specs.declared.alarm.AlarmTarget.{AlarmTarget};
ghost use Rattle.sim_base.specs.declared.packet.Packet.{Packet};
ghost use Rattle.sim_base.specs.declared.time.Time.{Time};
ghost use Rattle.guest_mem.specs.Memory.{Memory};
ghost use Rattle.file_calls.specs.declared.known.Known.{Known};
ghost use Rattle.host_calls.specs.Calls.{call};
ghost use Rattle.host_calls.specs.Events.{arrives, alarmed, ended};
ghost use Rattle.host_calls.specs.Parts.{PartsRecord};
ghost use Rattle.host_calls.specs.Starting.{task_starts};
ghost use Rattle.socket_streams.specs.May.{Moves, MovesFreely};
ghost use Rattle.socket_streams.specs.Records.{packets_of};
ghost use Rattle.call_streams.specs.Parts.{sockets_in};

/// What a call, the start and the end of a process, an arrival and an alarm do to a host's sockets are
/// acts that may happen there; what arrives is on its way, and but for arrivals nothing does.
pub fn calls_move()
    ensures call { (known : Known) (now : Time) (process number : ℕ) (args : List ℕ) (flying : List Packet) (h : PartsRecord)
        → Moves known.book flying (sockets_in h) (sockets_in (call known now process number args h).1) }
    ensures start { (hosts : List Ip) (process : ℕ) (memory : Memory) (flying : List Packet) (h : PartsRecord)
        → Moves hosts flying (sockets_in h) (sockets_in (task_starts process memory h)) }
    ensures end { (hosts : List Ip) (now : Time) (process : ℕ) (flying : List Packet) (h : PartsRecord)
        → Moves hosts flying (sockets_in h) (sockets_in (ended now process h)) }
    ensures arrival { (hosts : List Ip) (now : Time) (packet : Packet) (flying : List Packet) (h : PartsRecord)
        → Contains (flying ++ packets_of h.shared.outlet) packet
        → MovesFreely hosts flying (sockets_in h) (sockets_in (arrives now packet h).1) }
    ensures comes { (hosts : List Ip) (now : Time) (packet : Packet) (flying : List Packet) (h : PartsRecord)
        → Contains flying packet
        → Moves hosts flying (sockets_in h) (sockets_in (arrives now packet h).1) }
    ensures alarm { (hosts : List Ip) (now : Time) (target : AlarmTarget) (serial : ℕ) (flying : List Packet) (h : PartsRecord)
        → Moves hosts flying (sockets_in h) (sockets_in (alarmed now target serial h)) }
{}
