//! Laws of the definitions: two answers for one input are equal, so that it has one plan or one first fault.

ghost use Rattle.std.specs.Prelude.{◌≡◌, ℕ, List, Result, Ok, Err};
ghost use Rattle.run_outside.specs.Files.{Held};
ghost use Rattle.run_plan.specs.Planned.{planned};
ghost use Rattle.run_plan.specs.declared.fault.Fault.{Fault};
ghost use Rattle.run_plan.specs.declared.planned.Planned.{Planned};

/// Two answers for one input are equal: its plan, or its first fault.
pub fn one_plan()
    ensures { (words : List (List ℕ)) (held : Held) (r s : Result Planned Fault) → (planned words held).answers r → (planned words held).answers s → r ≡ s }
{}

/// An input has one first fault, and a refused one has no plan.
pub fn one_fault()
    ensures same { (words : List (List ℕ)) (held : Held) (f g : Fault) → (planned words held).answers (Err f) → (planned words held).answers (Err g) → f ≡ g }
    ensures none { (words : List (List ℕ)) (held : Held) (p : Planned) (f : Fault) → (planned words held).answers (Ok p) → (planned words held).answers (Err f) → ⊥ }
{}
