//! Laws of the table of instructions, and of turns.

ghost use Rattle.std.specs.Prelude.{◌≡◌, ◌≢◌, ◌-◌, ℕ, None};
ghost use Rattle.sim_base.specs.declared.signal.Signal.{Signal};
ghost use Rattle.rv32_machine.specs.Table.{State, advanced, effect, insn, with_reservation};
ghost use Rattle.rv32_machine.specs.Turn.{IsTurn, Turn, state_after, turn};
ghost use Rattle.rv32_machine.specs.declared.instruction.Insn.{Insn};
ghost use Rattle.rv32_machine.specs.declared.instruction.Insn.TheVariants.{Ecall, LrW, ScW};
ghost use Rattle.rv32_machine.specs.declared.outcome.Outcome.TheVariants as outcome;
ghost use Rattle.rv32_machine.specs.declared.outcome.TurnEnd.TheVariants as end;

/// An instruction that traps leaves the state as it was. One that calls moves `pc` behind itself and
/// ends the reservation, and changes nothing else.
pub fn traps_and_calls()
    ensures trap { (s : State) (signal : Signal) → (insn s).outcome ≡ outcome.Trap signal → (insn s).state ≡ s }
    ensures call { (s : State) → (insn s).outcome ≡ outcome.Call → (insn s).state ≡ record s { cpu = advanced (with_reservation None s.cpu) } }
{}

/// No instruction but LR.W, SC.W and ECALL touches the reservation.
pub fn reservations()
    ensures { (insn : Insn) (word : ℕ) (s : State) → insn ≢ LrW → insn ≢ ScW → insn ≢ Ecall → (effect insn word s).state.cpu.reservation ≡ s.cpu.reservation }
{}

/// A budget and a state have exactly one turn. One that a trap ends leaves the state that the
/// instruction found that trapped.
pub fn one_turn()
    ensures at_least { (budget : ℕ) (s : State) → IsTurn budget s (turn budget s) }
    ensures at_most { (budget : ℕ) (s : State) (t u : Turn) → IsTurn budget s t → IsTurn budget s u → t ≡ u }
    ensures trap { (budget : ℕ) (s : State) (signal : Signal) → (turn budget s).end ≡ end.Trap signal
        → (turn budget s).state ≡ state_after ((turn budget s).ran - 1) s }
{}
