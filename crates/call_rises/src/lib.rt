//! System calls as acts on what the files of a host are of: its pipes, eventfds, timers and sockets.
//! Definitions and laws, and no code that runs.
#![tactic(auto)]

ghost use Rattle.std.specs.Prelude.{◌≡◌, ◌++◌, ℕ, true, List, None};
ghost use Rattle.sim_base.specs.declared.address.Ip.{Ip};
ghost use Rattle.sim_base.specs.declared.alarm.AlarmTarget.{AlarmTarget};
ghost use Rattle.sim_base.specs.declared.packet.Packet.{Packet};
ghost use Rattle.sim_base.specs.declared.time.Time.{Time};
ghost use Rattle.guest_mem.specs.Memory.{Memory};
ghost use Rattle.host_files.specs.Slots.{at};
ghost use Rattle.file_calls.specs.declared.known.Known.{Known};
ghost use Rattle.host_calls.specs.Calls.{call};
ghost use Rattle.host_calls.specs.Events.{arrives, alarmed, ended};
ghost use Rattle.host_calls.specs.Parts.{PartsRecord};
ghost use Rattle.host_calls.specs.Starting.{task_starts};
ghost use Rattle.socket_laws.specs.Histories.{SocketsAct};
ghost use Rattle.socket_laws.specs.Rises.{sees_tcp, sees_udp, tcp_rises_counted, udp_rises_counted};
ghost use Rattle.call_rises.specs.Moves.{FilesMove, TasksRise};
ghost use Rattle.call_rises.specs.Sockets.{has_udp, has_tcp, SocketLasts, sockets_left, rises_since};
ghost use Rattle.call_rises.specs.Names.{NamesHold, NamesMove, MarksMove};

/// What a call, the start and the end of a process and an alarm do to a host's pipes, eventfds and timers
/// are acts on them at that moment; what arrives does nothing to them.
pub fn calls_move_files()
    ensures call { (known : Known) (now : Time) (process number : ℕ) (args : List ℕ) (h : PartsRecord)
        → FilesMove now.nanos h.shared.files (call known now process number args h).1.shared.files }
    ensures start { (now : Time) (process : ℕ) (memory : Memory) (h : PartsRecord)
        → FilesMove now.nanos h.shared.files (task_starts process memory h).shared.files }
    ensures end { (now : Time) (process : ℕ) (h : PartsRecord)
        → FilesMove now.nanos h.shared.files (ended now process h).shared.files }
    ensures alarm { (now : Time) (target : AlarmTarget) (serial : ℕ) (h : PartsRecord)
        → FilesMove now.nanos h.shared.files (alarmed now target serial h).shared.files }
    ensures arrival { (now : Time) (packet : Packet) (h : PartsRecord)
        → (arrives now packet h).1.shared.files ≡ h.shared.files }
{}

/// And wherever the entries of each epoll stand by rising descriptors, with one of each at most, they do so
/// after each of these.
pub fn entries_stay_in_order()
    ensures call { (known : Known) (now : Time) (process number : ℕ) (args : List ℕ) (h : PartsRecord)
        → TasksRise h → TasksRise (call known now process number args h).1 }
    ensures start { (now : Time) (process : ℕ) (memory : Memory) (h : PartsRecord)
        → TasksRise h → TasksRise (task_starts process memory h) }
    ensures end { (now : Time) (process : ℕ) (h : PartsRecord)
        → TasksRise h → TasksRise (ended now process h) }
    ensures alarm { (now : Time) (target : AlarmTarget) (serial : ℕ) (h : PartsRecord)
        → TasksRise h → TasksRise (alarmed now target serial h) }
    ensures arrival { (now : Time) (packet : Packet) (h : PartsRecord)
        → TasksRise h → TasksRise (arrives now packet h).1 }
{}

/// What a descriptor names stays as long as it is open. Where each descriptor of a host names an open file,
/// and each file an object, of its own, and each entry of an epoll is of an open descriptor, it is so after
/// each of these too; and a descriptor that is open before and after names one file, of one object, that
/// was there all along, be it an end of a pipe, a timer, an eventfd or a socket: so its number was given to
/// no other one.
pub fn descriptors_name_one_object()
    ensures call { (known : Known) (now : Time) (process number : ℕ) (args : List ℕ) (h : PartsRecord)
        → NamesHold h.tasks h.shared.files h.sockets → NamesMove known.book now.nanos h (call known now process number args h).1 }
    ensures start { (hosts : List Ip) (now : Time) (process : ℕ) (memory : Memory) (h : PartsRecord) → at process h.tasks ≡ None
        → NamesHold h.tasks h.shared.files h.sockets → NamesMove hosts now.nanos h (task_starts process memory h) }
    ensures end { (hosts : List Ip) (now : Time) (process : ℕ) (h : PartsRecord)
        → NamesHold h.tasks h.shared.files h.sockets → NamesMove hosts now.nanos h (ended now process h) }
    ensures alarm { (hosts : List Ip) (now : Time) (target : AlarmTarget) (serial : ℕ) (h : PartsRecord)
        → NamesHold h.tasks h.shared.files h.sockets → NamesMove hosts now.nanos h (alarmed now target serial h) }
    ensures arrival { (hosts : List Ip) (now : Time) (packet : Packet) (h : PartsRecord)
        → NamesHold h.tasks h.shared.files h.sockets → NamesMove hosts now.nanos h (arrives now packet h).1 }
{}

/// A socket that is there before and after each of some acts is one all along: none of them makes it, so
/// that its rises go on from those that were counted before them.
pub fn sockets_live_on()
    ensures udp { (hosts : List Ip) (own : Ip) (draws : List ℕ) (acts more : List (Time × SocketsAct)) (k bit : ℕ)
        → has_udp k (sockets_left hosts own draws acts).0 ≡ true
        → SocketLasts hosts (has_udp k) more (sockets_left hosts own draws acts).0 (sockets_left hosts own draws acts).1
        → udp_rises_counted bit k hosts own draws (acts ++ more) ≡ rises_since bit (sees_udp k) hosts more (sockets_left hosts own draws acts) (udp_rises_counted bit k hosts own draws acts) }
    ensures tcp { (hosts : List Ip) (own : Ip) (draws : List ℕ) (acts more : List (Time × SocketsAct)) (k bit : ℕ)
        → has_tcp k (sockets_left hosts own draws acts).0 ≡ true
        → SocketLasts hosts (has_tcp k) more (sockets_left hosts own draws acts).0 (sockets_left hosts own draws acts).1
        → tcp_rises_counted bit k hosts own draws (acts ++ more) ≡ rises_since bit (sees_tcp k) hosts more (sockets_left hosts own draws acts) (tcp_rises_counted bit k hosts own draws acts) }
{}

/// The mark of an entry is that of its last report: each entry that is there afterwards was there as it is,
/// or was told by the call, and then has the rises that were seen of its descriptor as the call began, or
/// was never told.
pub fn marks_are_of_reports()
    ensures call { (known : Known) (now : Time) (process number : ℕ) (args : List ℕ) (h : PartsRecord)
        → MarksMove now h (call known now process number args h).1 }
    ensures start { (now : Time) (process : ℕ) (memory : Memory) (h : PartsRecord)
        → MarksMove now h (task_starts process memory h) }
    ensures end { (now : Time) (process : ℕ) (h : PartsRecord)
        → MarksMove now h (ended now process h) }
    ensures alarm { (now : Time) (target : AlarmTarget) (serial : ℕ) (h : PartsRecord)
        → MarksMove now h (alarmed now target serial h) }
    ensures arrival { (now : Time) (packet : Packet) (h : PartsRecord)
        → MarksMove now h (arrives now packet h).1 }
{}
