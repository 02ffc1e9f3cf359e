//! What may become ready at the hosts of a run: its rises, and what a wait for an epoll tells of it, by
//! whole histories. Definitions and laws, and no code that runs.
#![tactic(auto)]

ghost use Rattle.std.specs.Prelude.{◌≡◌, ℕ, false, true, List, Ok, Some, slice_get, take, filter, map};
ghost use Rattle.sim_base.specs.declared.address.Ip.{Ip};
ghost use Rattle.sim_base.specs.declared.alarm.AlarmTarget.{AlarmTarget};
ghost use Rattle.sim_base.specs.declared.packet.Packet.{Packet};
ghost use Rattle.sim_base.specs.declared.time.Time.{Time};
ghost use Rattle.guest_mem.specs.Memory.{Memory};
ghost use Rattle.host_fds.specs.declared.epoll.Watch.{Watch};
ghost use Rattle.host_fds.specs.declared.rises.Rises.{Rises};
ghost use Rattle.host_fds.specs.Epoll.{entry_of, told, once, edge};
ghost use Rattle.host_fds.specs.Rises.{has_bit};
ghost use Rattle.host_files.specs.declared.file.Object.{Object};
ghost use Rattle.host_files.specs.Epolls.{epoll_at};
ghost use Rattle.call_parts.specs.declared.epoll.WaitPlan.{WaitPlan};
ghost use Rattle.file_calls.specs.declared.descriptors.Descriptor.{Descriptor};
ghost use Rattle.file_calls.specs.Descriptors.{descriptor};
ghost use Rattle.file_calls.specs.declared.known.Known.{Known};
ghost use Rattle.host_calls.specs.Calls.{call};
ghost use Rattle.host_calls.specs.Epoll.{all_seen, told_of, epoll_waits};
ghost use Rattle.host_calls.specs.Events.{arrives, alarmed, ended};
ghost use Rattle.host_calls.specs.Parts.{PartsRecord, Scene};
ghost use Rattle.host_calls.specs.Ready as ready;
ghost use Rattle.host_calls.specs.Ready.{object_rises};
ghost use Rattle.host_calls.specs.Starting.{task_starts};
ghost use Rattle.host_link.specs.Net.{Net};
ghost use Rattle.host_rows.specs.declared.row.Row.{Row};
ghost use Rattle.host_state.specs.HostRecord.{HostRecord};
ghost use Rattle.host_state.specs.World.{World, opening_world};
ghost use Rattle.run_streams.specs.Run.{IsReached};
ghost use Rattle.call_rises.specs.Moves.{TasksRise};
ghost use Rattle.call_rises.specs.Names.{object_alone};
ghost use Rattle.run_rises.specs.Histories.{HostHistory, Leaves, GoesOnTo};
ghost use Rattle.run_rises.specs.Marks.{IsMark, Holds, HoldsOn};
ghost use Rattle.run_rises.specs.Rises.{rises_counted, counts};
ghost use Rattle.run_rises.specs.Seeing as seeing;
ghost use Rattle.run_rises.specs.Seeing.{counted, all_counted};

/// In every world that a run reaches, what may become ready at each host is what a history of acts left of
/// nothing, and the rises that are kept of each object are those that are counted over it.
pub fn hosts_rises()
    ensures { (net : Net) (rows : List Row) (w : World) (i : ℕ) (h : HostRecord)
        → IsReached net (opening_world rows) w → slice_get w.hosts i ≡ Some h
        → (history : HostHistory) × (Leaves net.known.book h.row.address history h.parts.shared.files h.parts.sockets
        × ((now : Time) (object : Object) → object_rises now object h.parts.shared.files h.parts.sockets ≡ counts (rises_counted net.known.book h.row.address history now object))) }
{}

/// Where they have a history they have one after each call, start and end of a process, arrival and alarm,
/// which goes on from the one before. So it is also while an event fires.
pub fn histories_go_on()
    ensures call { (known : Known) (own : Ip) (history : HostHistory) (now : Time) (process number : ℕ) (args : List ℕ) (h : PartsRecord)
        → GoesOnTo known.book own history h (call known now process number args h).1 }
    ensures start { (hosts : List Ip) (own : Ip) (history : HostHistory) (process : ℕ) (memory : Memory) (h : PartsRecord)
        → GoesOnTo hosts own history h (task_starts process memory h) }
    ensures end { (hosts : List Ip) (own : Ip) (history : HostHistory) (now : Time) (process : ℕ) (h : PartsRecord)
        → GoesOnTo hosts own history h (ended now process h) }
    ensures arrival { (hosts : List Ip) (own : Ip) (history : HostHistory) (now : Time) (packet : Packet) (h : PartsRecord)
        → GoesOnTo hosts own history h (arrives now packet h).1 }
    ensures alarm { (hosts : List Ip) (own : Ip) (history : HostHistory) (now : Time) (target : AlarmTarget) (serial : ℕ) (h : PartsRecord)
        → GoesOnTo hosts own history h (alarmed now target serial h) }
{}

/// Wherever files and sockets have a history, an entry of an epoll is due exactly where it is due by the
/// counts over that history; a wait tells the first that are, as many as there is room for, and marks them
/// by these counts.
pub fn waits_tell_by_histories()
    ensures due { (hosts : List Ip) (own : Ip) (history : HostHistory) (now : Time) (s : Scene) (entry : Watch)
        → Leaves hosts own history s.shared.files s.sockets
        → ready.is_due now s entry ≡ seeing.is_due hosts own history now s entry }
    ensures first { (hosts : List Ip) (own : Ip) (history : HostHistory) (now : Time) (room : ℕ) (s : Scene) (entries : List Watch)
        → Leaves hosts own history s.shared.files s.sockets
        → told room (all_seen now s (Some entries)) entries
        ≡ take room (map (λ w. entry_of w (counted hosts own history now s w.fd)) (filter (seeing.is_due hosts own history now s) entries)) }
    ensures told { (hosts : List Ip) (own : Ip) (history : HostHistory) (now : Time) (p : WaitPlan) (s : Scene)
        → Leaves hosts own history s.shared.files s.sockets
        → epoll_waits now p s ≡ Ok (told_of p (all_counted hosts own history now s (epoll_at p.place s.task.epolls)) s) }
{}

/// In every world that a run reaches the entries of each epoll stand by rising descriptors, one of each at
/// most: so a wait, which tells the first that are due, tells those of the lowest descriptors.
pub fn entries_rise_in_runs()
    ensures { (net : Net) (rows : List Row) (w : World) (i : ℕ) (h : HostRecord)
        → IsReached net (opening_world rows) w → slice_get w.hosts i ≡ Some h → TasksRise h.parts }
{}

/// In every world that a run reaches the names of each host's descriptors hold, and the mark of each entry
/// of an epoll that was told is the counts of the object that its descriptor names: over a history with
/// which the host's begins, after which that object was there, and has been after each act since. So what a
/// wait tells by the counts of a mark and of now, it tells by one object's history.
pub fn marks_are_of_one_object()
    ensures { (net : Net) (rows : List Row) (w : World) (i : ℕ) (h : HostRecord)
        → IsReached net (opening_world rows) w → slice_get w.hosts i ≡ Some h
        → (history : HostHistory) × Holds net.known.book h.row.address history h.parts.tasks h.parts.shared.files h.parts.sockets }
{}

/// Where names and marks hold with a history, they do so after each call, start and end of a process,
/// arrival and alarm, with one that goes on from it. So they do also while an event fires.
pub fn marks_go_on()
    ensures call { (known : Known) (own : Ip) (history : HostHistory) (now : Time) (process number : ℕ) (args : List ℕ) (h : PartsRecord)
        → HoldsOn known.book own history h (call known now process number args h).1 }
    ensures start { (hosts : List Ip) (own : Ip) (history : HostHistory) (now : Time) (process : ℕ) (memory : Memory) (h : PartsRecord)
        → HoldsOn hosts own history h (task_starts process memory h) }
    ensures end { (hosts : List Ip) (own : Ip) (history : HostHistory) (now : Time) (process : ℕ) (h : PartsRecord)
        → HoldsOn hosts own history h (ended now process h) }
    ensures arrival { (hosts : List Ip) (own : Ip) (history : HostHistory) (now : Time) (packet : Packet) (h : PartsRecord)
        → HoldsOn hosts own history h (arrives now packet h).1 }
    ensures alarm { (hosts : List Ip) (own : Ip) (history : HostHistory) (now : Time) (target : AlarmTarget) (serial : ℕ) (h : PartsRecord)
        → HoldsOn hosts own history h (alarmed now target serial h) }
{}

/// So an entry of an epoll that is told by edges, and was told before, is due exactly where it asks for a bit
/// that holds and that rose more often over the history of its object than at the report that marked it.
pub fn edges_tell_by_one_object()
    ensures { (hosts : List Ip) (own : Ip) (history : HostHistory) (now : Time) (s : Scene) (entry : Watch) (d : Descriptor) (mark : Rises) (m : IsMark hosts own history (object_alone d.file.object) mark)
        → Leaves hosts own history s.shared.files s.sockets → descriptor entry.fd s.task s.shared.files ≡ Ok d
        → entry.reported ≡ Some mark → has_bit once entry.events ≡ false → has_bit edge entry.events ≡ true
        → ready.is_due now s entry ≡ seeing.is_due_since hosts own history now s entry m.before m.moment (object_alone d.file.object) }
{}

/// Where a world is reached from another one, the history of each host has gone on: whatever history left it
/// there, with the names of its descriptors and the marks, one that begins with it leaves it here.
pub fn worlds_go_on()
    ensures { (net : Net) (v w : World) (i : ℕ) (h : HostRecord)
        → IsReached net v w → slice_get v.hosts i ≡ Some h
        → (k : HostRecord) × ((slice_get w.hosts i ≡ Some k) × ((history : HostHistory) → HoldsOn net.known.book h.row.address history h.parts k.parts)) }
{}
