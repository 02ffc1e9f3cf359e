//! Laws of runs by rounds: a run has one result, and its rounds lead to it.

ghost use Rattle.std.specs.Prelude.{◌≡◌, ◌<◌, ◌≤◌, ℕ, List, Option, All, Any, flat_map};
ghost use Rattle.host_state.specs.Extends.{Extends};
ghost use Rattle.host_state.specs.World.{IsResult};
ghost use Rattle.host_link.specs.Net.{Net};
ghost use Rattle.host_rows.specs.declared.row.Row.{Row};
ghost use Rattle.round_lookahead.specs.Gains.{HasRound};
ghost use Rattle.round_lookahead.specs.OpeningWorld.{AreHostRows, opening_world};
ghost use Rattle.round_lookahead.specs.Reached.{HasReached, time_left};
ghost use Rattle.round_lookahead.specs.Tasks.{waiting};
ghost use Rattle.round_lookahead.specs.WorldStands.{HostWorld, HasRounds, IsBetweenRounds, WorldStands};
ghost use Rattle.round_lookahead.specs.declared.world.pieces.Pieces.{Pieces};
ghost use Rattle.round_lookahead.specs.declared.world.world_state.World.{World};

/// A run of a net's hosts has no two results, whatever world it is from. From a world between rounds,
/// as the one in which all hosts begin is, it has a result, which is again such a world.
pub fn one_result()
    ensures at_most { (net : Net) (w r s : HostWorld) → IsResult net r w → IsResult net s w → r ≡ s }
    ensures at_least { (net : Net) (lookahead : Option ℕ) (w : HostWorld) → HasRounds net lookahead → IsBetweenRounds net w
        → (r : HostWorld) × IsResult net r w × IsBetweenRounds net r }
    ensures opening { (net : Net) (rows : List Row) → AreHostRows net rows → IsBetweenRounds net (opening_world rows) }
{}

/// Rounds that have finished have reached the result of the one list of events. A run has reached the
/// world that it began with; a round leads it on, and leaves less time to the stop; and what it has
/// reached is extended by a result that it has.
pub fn rounds_reach_the_result()
    ensures begins { (net : Net) (start : HostWorld) → HasReached net start start }
    ensures goes_on { (start w v : HostWorld) (old new : World) (workers : ℕ) (pieces : Pieces) → HasReached old.net start w
        → HasRound old new workers w v pieces → HasReached old.net start v }
    ensures gets_on { (w v : HostWorld) (old new : World) (workers : ℕ) (pieces : Pieces) → WorldStands old w
        → HasRound old new workers w v pieces → new.net ≡ old.net
        → Any (λ event. event.key.due.nanos < old.net.stop.nanos) (flat_map waiting old.tasks.items) → time_left new < time_left old }
    ensures finishes { (start w : HostWorld) (world : World) → WorldStands world w → HasReached world.net start w
        → All (λ event. world.net.stop.nanos ≤ event.key.due.nanos) (flat_map waiting world.tasks.items) → IsResult world.net w start }
    ensures extended { (start w : HostWorld) (world : World) → WorldStands world w → HasReached world.net start w
        → (r : HostWorld) × IsResult world.net r start × Extends w r }
{}
