//! Captures of a run, read again. Definitions and laws, and no code that runs.
#![tactic(auto)]

ghost use Rattle.std.specs.Prelude.{◌≡◌, ℕ, ◌<◌, ◌≤◌, ◌^◌, List, Contains, Some, slice_get};
ghost use Rattle.sim_base.specs.Packet.{max_packet};
ghost use Rattle.sim_base.specs.Units.{latest_time};
ghost use Rattle.sim_base.specs.declared.address.Ip.{Ip};
ghost use Rattle.host_link.specs.declared.line.Line.{Line};
ghost use Rattle.host_link.specs.Net.{Net};
ghost use Rattle.host_rows.specs.declared.row.Row.{Row};
ghost use Rattle.run_files.specs.Captures.{eth0_of, lo_of};
ghost use Rattle.host_state.specs.HostRecord.{HostRecord};
ghost use Rattle.run_files.specs.LinesFit.{AllFit};
ghost use Rattle.host_link.specs.Logs.{lines_of};
ghost use Rattle.host_state.specs.World.{World, IsResult, opening_world};
ghost use Rattle.world_order.specs.World.{Logged};
ghost use Rattle.run_streams.specs.Run.{IsReached, AreHosts};
ghost use Rattle.run_plan.specs.declared.planned.Run.{Run};
ghost use Rattle.shadow_top.specs.Input.{Input, IsToRun};
ghost use Rattle.plan_rows.specs.Rows.{rows_of, net_of};
ghost use Rattle.shadow_top.specs.Shown.{IsRunTo};
ghost use Rattle.run_fits.specs.Given.{AllWhole, NetHasBytes, RowsFit};
ghost use Rattle.capture_laws.specs.Given.{HasBytes};
ghost use Rattle.capture_laws.specs.Loopback.{past_of, IsPlaced};
ghost use Rattle.capture_laws.specs.ReadAgain.{AllInRange, AreReadAgain};

/// Reading the two captures that lines of a packet log give a host gives the host's lines again, each
/// with its time and its packet, where the capture size is at least 1,500.
pub fn captures_are_read_again()
    ensures eth0 { (size number : ℕ) (own : Ip) (lines : List Line) → max_packet ≤ size → size < 2 ^ 32 → AllFit lines → AllInRange lines
        → AreReadAgain size (eth0_of number own lines) }
    ensures lo { (size number : ℕ) (own : Ip) (lines : List Line) → max_packet ≤ size → size < 2 ^ 32 → AllFit lines → AllInRange lines
        → AreReadAgain size (lo_of number own lines) }
{}

/// In a run each line of the packet log is of a packet of at most 1,500 bytes, at a time of at most
/// 2^61 ns: each line of a capture has its record.
pub fn lines_are_in_range()
    ensures { (net : Net) (rows : List Row) (result : World) → net.stop.nanos ≤ latest_time → IsResult net result (opening_world rows)
        → AllInRange (lines_of result.log) }
{}

/// Reading `eth0` of a run gives those lines again, where the numbers of the packets fit their types.
pub fn runs_are_read_again()
    ensures { (net : Net) (rows : List Row) (result : World) (i : ℕ) (h : HostRecord) (size : ℕ) → net.stop.nanos ≤ latest_time
        → IsResult net result (opening_world rows) → slice_get result.hosts i ≡ Some h → max_packet ≤ size → size < 2 ^ 32
        → AllFit (lines_of result.log) → AreReadAgain size (eth0_of i h.row.address (lines_of result.log)) }
{}

/// What an input whose files are of bytes gives a run are bytes: the images of programs, the text of
/// /etc/hosts, and the arguments and environments of processes; and the addresses of hosts are of 32 bits.
pub fn runs_are_given_bytes()
    ensures net { (i : Input) (run : Run) → HasBytes i → IsToRun i run → NetHasBytes (net_of run) }
    ensures rows { (i : Input) (run : Run) → HasBytes i → IsToRun i run → RowsFit (rows_of run) }
{}

/// So in every world that the run of such an input reaches, its result among them, each line of the packet
/// log is of a packet whose numbers and bytes fit their types.
pub fn input_logs_fit()
    ensures whole { (i : Input) (run : Run) (w : World) → HasBytes i → IsToRun i run
        → IsReached (net_of run) (opening_world (rows_of run)) w → AllWhole (lines_of w.log) }
    ensures fit { (i : Input) (run : Run) (w : World) → HasBytes i → IsToRun i run
        → IsReached (net_of run) (opening_world (rows_of run)) w → AllFit (lines_of w.log) }
    ensures result { (i : Input) (run : Run) (w : World) → HasBytes i → IsToRun i run → IsRunTo run w → AllFit (lines_of w.log) }
{}

/// And reading the two captures of a host gives their lines again, of each world that such a run reaches,
/// where the capture size is at least 1,500.
pub fn input_runs_are_read_again()
    ensures eth0 { (i : Input) (run : Run) (w : World) (k : ℕ) (h : HostRecord) (size : ℕ) → HasBytes i → IsToRun i run
        → IsReached (net_of run) (opening_world (rows_of run)) w → slice_get w.hosts k ≡ Some h → max_packet ≤ size → size < 2 ^ 32
        → AreReadAgain size (eth0_of k h.row.address (lines_of w.log)) }
    ensures lo { (i : Input) (run : Run) (w : World) (k : ℕ) (h : HostRecord) (size : ℕ) → HasBytes i → IsToRun i run
        → IsReached (net_of run) (opening_world (rows_of run)) w → slice_get w.hosts k ≡ Some h → max_packet ≤ size → size < 2 ^ 32
        → AreReadAgain size (lo_of k h.row.address (lines_of w.log)) }
{}

/// In every world that a run reaches, its result among them, `lo` of a host has the lines of just the
/// packets that the host sends to itself, past the network; and whether a line of the host is in `lo` or
/// in `eth0` goes by the event that logged it: none has a packet that a Loop brought, and none in `eth0`
/// one that stays at the host.
pub fn loopback_is_past_the_network()
    ensures lo { (net : Net) (rows : List Row) (w : World) (i : ℕ) (h : HostRecord) → AreHosts net rows
        → IsReached net (opening_world rows) w → slice_get w.hosts i ≡ Some h
        → lo_of i h.row.address (lines_of w.log) ≡ past_of i h.row.address (lines_of w.log) }
    ensures lines { (net : Net) (rows : List Row) (w : World) (i : ℕ) (h : HostRecord) (l : Logged Line) → AreHosts net rows
        → IsReached net (opening_world rows) w → slice_get w.hosts i ≡ Some h → Contains w.log l → l.line.host.index ≡ i
        → IsPlaced net rows h.row.address l }
{}

/// The same of each input that is run.
pub fn loopback_in_runs()
    ensures lo { (i : Input) (run : Run) (w : World) (k : ℕ) (h : HostRecord) → IsToRun i run
        → IsReached (net_of run) (opening_world (rows_of run)) w → slice_get w.hosts k ≡ Some h
        → lo_of k h.row.address (lines_of w.log) ≡ past_of k h.row.address (lines_of w.log) }
    ensures lines { (i : Input) (run : Run) (w : World) (k : ℕ) (h : HostRecord) (l : Logged Line) → IsToRun i run
        → IsReached (net_of run) (opening_world (rows_of run)) w → slice_get w.hosts k ≡ Some h → Contains w.log l → l.line.host.index ≡ k
        → IsPlaced (net_of run) (rows_of run) h.row.address l }
{}
