//! What rounds of a net's hosts leave, whatever steps were taken in them.

ghost use Rattle.std.specs.Prelude.{◌≡◌, ℕ, ◌<◌, List, [], ◌∷◌, ◌++◌, length, map, flat_map, Contains, Some};
ghost use Rattle.host_state.specs.Fits.{model};
ghost use Rattle.host_state.specs.HostRecord.{HostRecord};
ghost use Rattle.host_state.specs.World.{World, IsResult};
ghost use Rattle.host_link.specs.declared.line.Line.{Line};
ghost use Rattle.host_link.specs.Net.{Net};
ghost use Rattle.world_order.specs.Round.{Closed, opened, world_of};
ghost use Rattle.world_order.specs.Rounds.{IsSameWorld, after_round};
ghost use Rattle.world_order.specs.Schedule.{after_all};
ghost use Rattle.world_order.specs.Settled.{Leaves};
ghost use Rattle.world_order.specs.WholeTurns.{AreTurns, Job, Turn, WorksTo, job_steps, turn_of};
ghost use Rattle.world_order.specs.World as order;
ghost use Rattle.world_order.specs.declared.round_window.Window.{Window};
ghost use Rattle.world_order.specs.declared.step.Step.{Step};
ghost use Rattle.world_order.specs.declared.step.Step.TheVariants.{Close};
ghost use Rattle.round_schedule.specs.Opening.{IsBetween, MayOpenOn};
ghost use Rattle.round_schedule.specs.Reaching.{Going, round_on};
ghost use Rattle.round_schedule.specs.Rounds.{AreRounds};

/// A round that is closed leaves the world after all turns of the one list of events that are due
/// before the window's end; and the next round may be opened on what it leaves.
pub fn closed_round()
    ensures leaves { (net : Net) (window : Window) (w after closed : World) (workers : ℕ) (steps : List Step) → MayOpenOn net window w
        → order.IsResult (model net) window.end.nanos after w → after_all (model net) steps (round_on net window workers w) ≡ Some (Closed closed)
        → Leaves window.end.nanos w after closed }
    ensures between { (net : Net) (window : Window) (w closed : World) (workers : ℕ) (steps : List Step) → MayOpenOn net window w
        → after_all (model net) steps (round_on net window workers w) ≡ Some (Closed closed) → IsBetween net (after_round w closed) }
{}

/// Any two lists of steps that close a round end in the same world, for whatever numbers of workers.
pub fn same_end()
    ensures { (net : Net) (window : Window) (w v u : World) (workers others : ℕ) (steps more : List Step) → MayOpenOn net window w
        → after_all (model net) steps (round_on net window workers w) ≡ Some (Closed v)
        → after_all (model net) more (round_on net window others w) ≡ Some (Closed u) → IsSameWorld v u }
{}

/// A round in which the hosts are taken one after another, each is fired to the end in one go, and all
/// packets go to the spill: it is allowed, in whatever order the hosts are taken, by whichever workers,
/// and closes.
pub fn whole_turns()
    ensures allowed { (net : Net) (window : Window) (w : World) (workers : ℕ) (last : Going) (jobs : List (Job HostRecord Line))
        → WorksTo (model net) last jobs (opened (model net) window.end.nanos workers w)
        → ((number : ℕ) → number < length w.hosts → Contains (map (λ job. job.number) jobs) number)
        → after_all (model net) (flat_map job_steps jobs ++ Close ∷ []) (round_on net window workers w) ≡ Some (Closed (world_of last)) }
    ensures any_order { (net : Net) (window : Window) (w : World) (workers : ℕ) (turns : List Turn) → MayOpenOn net window w → AreTurns workers (length w.hosts) turns
        → (last : Going) × (jobs : List (Job HostRecord Line)) × WorksTo (model net) last jobs (opened (model net) window.end.nanos workers w) × (map turn_of jobs ≡ turns) }
{}

/// Rounds one after another, until no event is due before the stop, lead to the result of the run.
pub fn rounds()
    ensures { (net : Net) (w last result : World) → IsBetween net w → AreRounds net last w → IsResult net result w → IsSameWorld last result }
{}
