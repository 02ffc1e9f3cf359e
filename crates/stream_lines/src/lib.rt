//! The addresses of the hosts of a run, and what is told of its streams. Definitions and laws, and no code that runs.
#![tactic(auto)]

ghost use Rattle.std.specs.Prelude.{◌≡◌, ℕ, ◌≤◌, Bool, true, List, Contains, Ok, Some, slice_get};
ghost use Rattle.run_outside.specs.Files.{Held};
ghost use Rattle.sim_base.specs.declared.address.Addr.{Addr};
ghost use Rattle.tcp_streams.specs.Frame.{inside};
ghost use Rattle.tcp_streams.specs.Stream.{IsSimple, stream_of, IsFaithful};
ghost use Rattle.out_text.specs.declared.streams.Fate.TheVariants.{Counted};
ghost use Rattle.out_text.specs.declared.streams.Stream.{Stream};
ghost use Rattle.host_state.specs.HostRecord.{HostRecord};
ghost use Rattle.host_state.specs.World.{World, opening_world};
ghost use Rattle.host_state.specs.WorldStreams.{streams_in};
ghost use Rattle.run_plan.specs.Planned.{planned};
ghost use Rattle.run_plan.specs.declared.planned.Planned.TheVariants.{Runs};
ghost use Rattle.run_plan.specs.declared.planned.Run.{Run};
ghost use Rattle.socket_streams.specs.Home.{AreAtHome};
ghost use Rattle.run_streams.specs.Exchanges.{host_records};
ghost use Rattle.run_streams.specs.Run.{IsReached, AreHosts};
ghost use Rattle.shadow_top.specs.Input.{Input, IsToRun};
ghost use Rattle.plan_rows.specs.Rows.{rows_of, net_of};
ghost use Rattle.shadow_top.specs.Shown.{IsRunTo};
ghost use Rattle.stream_lines.specs.Addresses.{HaveOwnAddresses, HaveHostAddresses};

/// No two hosts of a plan that is to be run have one address, and each has one that a configuration may
/// give to a host, so none in 127.0.0.0/8.
pub fn plan_addresses()
    ensures own { (words : List (List ℕ)) (held : Held) (run : Run) → (planned words held).answers (Ok (Runs run)) → HaveOwnAddresses run.plan.rows }
    ensures may { (words : List (List ℕ)) (held : Held) (run : Run) → (planned words held).answers (Ok (Runs run)) → HaveHostAddresses run.plan.rows }
{}

/// The rows of each input that is run are those of its net's hosts. So in every world that its run reaches
/// the own end of each connection is at an address of its host, and streams within a host are faithful, of
/// ends of which one is 127.0.0.1.
pub fn hosts_of_runs()
    ensures hosts { (i : Input) (run : Run) → IsToRun i run → AreHosts (net_of run) (rows_of run) }
    ensures home { (i : Input) (run : Run) (w : World) (k : ℕ) (h : HostRecord) → IsToRun i run
        → IsReached (net_of run) (opening_world (rows_of run)) w → slice_get w.hosts k ≡ Some h → AreAtHome h.row.address (host_records h) }
    ensures within { (i : Input) (run : Run) (w : World) (k : ℕ) (h : HostRecord) (from to : Addr) → IsToRun i run
        → IsReached (net_of run) (opening_world (rows_of run)) w → slice_get w.hosts k ≡ Some h → inside from to ≡ true
        → IsSimple from to (host_records h) → IsFaithful (stream_of from to (host_records h)) }
{}

/// What is told of the connections of the result of each input that is run holds: of each direction that is
/// counted no more bytes were read than were written, and as many where the reader saw the end.
pub fn lines_hold_in_runs()
    ensures most { (i : Input) (run : Run) (w : World) (s : Stream) (n m : ℕ) (ended : Bool) → IsToRun i run → IsRunTo run w
        → Contains (streams_in w) s → s.fate ≡ Counted n m ended → m ≤ n }
    ensures whole { (i : Input) (run : Run) (w : World) (s : Stream) (n m : ℕ) → IsToRun i run → IsRunTo run w
        → Contains (streams_in w) s → s.fate ≡ Counted n m true → m ≡ n }
{}
