//! Laws of what stands while a run goes on, and when it is over.

ghost use Rattle.std.specs.Prelude.{◌≡◌, List, Option, Some, Bool, option_map};
ghost use Rattle.run_outside.specs.Sink.{Content};
ghost use Rattle.sim_base.specs.declared.state.State.{State};
ghost use Rattle.file_calls.specs.declared.task.Output.{Output};
ghost use Rattle.host_state.specs.Extends.{Extends};
ghost use Rattle.run_files.specs.Files.{Put};
ghost use Rattle.host_state.specs.Gains.{Gains, names_in};
ghost use Rattle.run_files.specs.Grown.{all_grown, with_bytes};
ghost use Rattle.run_files.specs.Listed.{HostNames};
ghost use Rattle.host_link.specs.declared.line.Line.{Line};
ghost use Rattle.host_rows.specs.declared.row.Row.{Row};
ghost use Rattle.net_run.specs.Grown.{HaveOwnFiles, IsUnderway};
ghost use Rattle.net_run.specs.Heads.{all_heads};
ghost use Rattle.net_run.specs.Parts.{Between};
ghost use Rattle.net_run.specs.Pieces.{PutsFront, with_pieces};
ghost use Rattle.net_run.specs.Rest.{AreTold, all_rest, summary_in, unmet_of_hosts};
ghost use Rattle.net_run.specs.Shown.{run_pieces, status_by, status_of};
ghost use Rattle.net_run.specs.World.{World, opening_world};

/// A run begins with the heads of captures. What a round gained, put behind what stands, is what
/// stands then. At each moment each target holds a front of what any later world shows; and with
/// the rest, put when the run is over, it is all that its world shows, and the status is that
/// world's.
pub fn runs_grow()
    ensures begins { (rows : List Row) (begun : Content) → HaveOwnFiles (names_in (opening_world rows))
        → IsUnderway (names_in (opening_world rows)) begun (Some (with_pieces (all_heads (names_in (opening_world rows))) begun)) (opening_world rows) }
    ensures goes_on { (names : List HostNames) (begun : Content) (now : Option Content) (w v : World) (outputs : List (List Output)) (lines : List Line)
        → IsUnderway names begun now w → Gains w v outputs lines → IsUnderway names begun (option_map (with_pieces (with_bytes (all_grown names outputs lines))) now) v }
    ensures front { (names : List HostNames) (begun : Content) (now : Option Content) (w later : World) (load : Bool)
        → IsUnderway names begun now w → Extends w later → Between begun now (with_pieces (run_pieces load later) begun) }
    ensures ends { (names : List HostNames) (begun : Content) (now : Option Content) (w : World) (states : List (List State)) (load : Bool)
        → IsUnderway names begun now w → AreTold w states → option_map (with_pieces (all_rest names states (summary_in load w))) now ≡ Some (with_pieces (run_pieces load w) begun) }
    ensures status { (w : World) (states : List (List State)) → AreTold w states → status_by (unmet_of_hosts (names_in w) states) ≡ status_of w }
{}

/// Where some of the pieces were put, each target holds what it held and a front of what all of them add there.
pub fn parts_are_between()
    ensures { (puts : List Put) (old : Content) (new : Option Content) → PutsFront puts (Some old) new → Between old new (with_pieces puts old) }
{}
