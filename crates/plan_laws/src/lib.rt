//! What is asked has an answer. Laws, and no code that runs.
#![tactic(auto)]

ghost use Rattle.std.specs.Prelude.{ℕ, List, Result};
ghost use Rattle.run_outside.specs.Files.{Held};
ghost use Rattle.run_plan.specs.Planned.{planned};
ghost use Rattle.run_plan.specs.declared.fault.Fault.{Fault};
ghost use Rattle.run_plan.specs.declared.planned.Planned.{Planned};

/// For all words and files there is a plan, or a first fault. (`run_plan::laws` says that there is one at most.)
pub fn some_plan()
    ensures { (words : List (List ℕ)) (held : Held) → (answer : Result Planned Fault) × (planned words held).answers answer }
{}
