//! What the hosts of a run keep, send and log fits its types. Definitions and laws, and no code that runs.
#![tactic(auto)]

ghost use Rattle.std.specs.Prelude.{ℕ, List};
ghost use Rattle.sim_base.specs.declared.alarm.AlarmTarget.{AlarmTarget};
ghost use Rattle.sim_base.specs.declared.packet.Packet.{Packet};
ghost use Rattle.sim_base.specs.declared.time.Time.{Time};
ghost use Rattle.pcap_text.specs.Laws.{IsWhole};
ghost use Rattle.guest_mem.specs.Memory.{Memory};
ghost use Rattle.rv32_machine.specs.Table.{State};
ghost use Rattle.rv32_machine.specs.Turn.{turn};
ghost use Rattle.file_calls.specs.declared.known.Known.{Known};
ghost use Rattle.host_calls.specs.Calls.{call};
ghost use Rattle.host_calls.specs.Events.{arrives, alarmed, ended};
ghost use Rattle.host_calls.specs.Parts.{PartsRecord};
ghost use Rattle.host_calls.specs.Starting.{task_starts};
ghost use Rattle.host_link.specs.Net.{Net};
ghost use Rattle.host_rows.specs.declared.row.Row.{Row};
ghost use Rattle.run_files.specs.LinesFit.{AllFit};
ghost use Rattle.host_link.specs.Logs.{lines_of};
ghost use Rattle.host_state.specs.World.{World, opening_world};
ghost use Rattle.run_streams.specs.Run.{IsReached};
ghost use Rattle.run_fits.specs.Bytes.{AreBytes, HasBytes};
ghost use Rattle.run_fits.specs.Given.{AllWhole, NetHasBytes, RowsFit};
ghost use Rattle.run_fits.specs.Parts.{PartsFit};

/// A turn of the machine leaves a memory of bytes where it found one.
pub fn machine_keeps_bytes()
    ensures { (budget : ℕ) (s : State) → HasBytes s.memory → HasBytes (turn budget s).state.memory }
{}

/// Where the memories and pipes of a host are of bytes, and its sockets and what is wanted of it fit, they do
/// so after each call, start and end of a process, arrival and alarm.
pub fn parts_stay_fit()
    ensures call { (known : Known) (now : Time) (process number : ℕ) (args : List ℕ) (h : PartsRecord)
        → AreBytes known.hosts → PartsFit h → PartsFit (call known now process number args h).1 }
    ensures start { (process : ℕ) (memory : Memory) (h : PartsRecord)
        → HasBytes memory → PartsFit h → PartsFit (task_starts process memory h) }
    ensures end { (now : Time) (process : ℕ) (h : PartsRecord)
        → PartsFit h → PartsFit (ended now process h) }
    ensures arrival { (now : Time) (packet : Packet) (h : PartsRecord)
        → IsWhole packet → PartsFit h → PartsFit (arrives now packet h).1 }
    ensures alarm { (now : Time) (target : AlarmTarget) (serial : ℕ) (h : PartsRecord)
        → PartsFit h → PartsFit (alarmed now target serial h) }
{}

/// So in every world that a run reaches each line of the packet log is of a packet whose numbers and bytes
/// fit their types, where what the run is given are bytes, and addresses of 32 bits.
pub fn logs_fit()
    ensures whole { (net : Net) (rows : List Row) (w : World) → NetHasBytes net → RowsFit rows
        → IsReached net (opening_world rows) w → AllWhole (lines_of w.log) }
    ensures fit { (net : Net) (rows : List Row) (w : World) → NetHasBytes net → RowsFit rows
        → IsReached net (opening_world rows) w → AllFit (lines_of w.log) }
{}
