//! What every schedule of a round of hosts gives.

ghost use Rattle.std.specs.Prelude.{◌≡◌, ℕ, List, ◌++◌, Some};
ghost use Rattle.sim_base.specs.declared.event.Event.{Event};
ghost use Rattle.host_link.specs.declared.line.Line.{Line};
ghost use Rattle.host_link.specs.Net.{Net};
ghost use Rattle.host_state.specs.Fits.{model};
ghost use Rattle.host_state.specs.HostRecord.{HostRecord};
ghost use Rattle.world_order.specs.Round as order;
ghost use Rattle.world_order.specs.Schedule.{after_all, fired_in, made_in};
ghost use Rattle.world_order.specs.Settled.{AreLaid};
ghost use Rattle.world_order.specs.World.{World, IsResult, fired_by};
ghost use Rattle.world_order.specs.declared.round_window.Window.{Window};
ghost use Rattle.world_order.specs.declared.step.Step.{Step};
ghost use Rattle.round_schedule.specs.Leaving.{LeavesWorld};
ghost use Rattle.round_schedule.specs.Opening.{MayOpenOn};
ghost use Rattle.round_schedule.specs.Reaching.{State, Going, round_on};
ghost use Rattle.round_schedule.specs.Standing.{RoundStands};
ghost use Rattle.round_schedule.specs.declared.round.Round.{Round};

/// Whatever steps are taken in a round of hosts, each allowed in its turn, by however many workers:
/// each host has fired a front of what it fires before the window's end where the event of least key
/// of all fires at each turn. Each packet so made stands exactly once, in a place, a hand or a spill,
/// and is due at the window's end or later. A closed round stands for the world after all those
/// turns, with the log in its order.
pub fn every_schedule()
    ensures front { (net : Net) (window : Window) (w after : World HostRecord Line) (workers : ℕ) (steps : List Step) (s : State)
        (result : IsResult (model net) window.end.nanos after w) → MayOpenOn net window w → after_all (model net) steps (round_on net window workers w) ≡ Some s
        → (rest : List Event) × ((host : ℕ) → order.events_at (model net) host (fired_by (model net) window.end.nanos after w result)
        ≡ order.events_at (model net) host (fired_in (model net) steps (round_on net window workers w)) ++ order.events_at (model net) host rest) }
    ensures packets { (net : Net) (window : Window) (w : World HostRecord Line) (workers : ℕ) (steps : List Step) (r : Going)
        → MayOpenOn net window w → after_all (model net) steps (round_on net window workers w) ≡ Some (order.Going r)
        → AreLaid window.end.nanos r (made_in (model net) steps (round_on net window workers w)) }
    ensures closed { (net : Net) (w after v : World HostRecord Line) (workers : ℕ) (steps : List Step) (c : Round)
        → MayOpenOn net c.window w → IsResult (model net) c.window.end.nanos after w
        → after_all (model net) steps (round_on net c.window workers w) ≡ Some (order.Closed v) → RoundStands net w c (order.Closed v)
        → LeavesWorld net w c after }
{}
