//! Each run has a result, and each input shows something. Laws, and no code that runs.
#![tactic(auto)]

ghost use Rattle.std.specs.Prelude.{ℕ};
ghost use Rattle.run_outside.specs.Sink.{Content};
ghost use Rattle.host_state.specs.World.{World};
ghost use Rattle.run_plan.specs.declared.planned.Run.{Run};
ghost use Rattle.shadow_top.specs.Input.{Input, IsToRun};
ghost use Rattle.shadow_top.specs.Shown.{IsRunTo, IsShown};

/// Each run that is asked for has a result: no more than finitely many events are due before its stop.
pub fn some_result()
    ensures { (i : Input) (run : Run) → IsToRun i run → (world : World) × IsRunTo run world }
{}

/// Each input shows something, whatever stood before. (`shadow_top::laws` says that it is one thing at most.)
pub fn some_shown()
    ensures { (i : Input) (old : Content) → (new : Content) × (status : ℕ) × IsShown i old new status }
{}
