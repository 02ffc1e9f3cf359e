//! A turn: instructions up to a call, a trap or the budget's end.

ghost use Rattle.std.specs.Prelude.{◌≡◌, ◌+◌, ◌-◌, ◌≤◌};
ghost use Rattle.rv32_machine.specs.Table.{state};
ghost use Rattle.rv32_machine.specs.Turn.{turn, IsTurn};

use crate::ahead::run_ahead;
use crate::cpu::Cpu;
use crate::execution::step_fetched;
use crate::outcome::{Outcome, TurnEnd};
use crate::steps::Steps;
use guest_mem::{FetchHint, Mem};
use std::sync::ledger::Ledger;

/// Runs instructions up to the first one that calls or traps, and at most `budget` of them. A budget of 0 is
/// spent at once. Each instruction that runs is counted, also one that calls or traps.
pub fn turn<L: Ledger>(cpu: &mut Cpu, mem: &mut Mem, budget: u64, steps: &mut Steps<L>) -> TurnEnd
    ensures state { (turn budget (state cpu.old mem.old)).state ≡ state cpu.new mem.new }
    ensures end { (turn budget (state cpu.old mem.old)).end ≡ result }
    ensures ledger { steps.new ≡ steps.old + (turn budget (state cpu.old mem.old)).ran }
    // the same, in the words of the relation
    ensures least { IsTurn budget (state cpu.old mem.old)
        (record { state = state cpu.new mem.new; end = result; ran = steps.new - steps.old }) }
    ensures within { steps.new ≤ steps.old + budget }
{
    let mut hint = FetchHint::new();
    let mut ran = 0;
    while ran < budget {
        let ahead = run_ahead(cpu, mem, &mut hint, budget - ran, steps);
        steps.tell(ahead.ran);
        ran += ahead.ran;
        if ran == budget {
            return TurnEnd::Spent;
        }
        // the next instruction stands in another page
        if ahead.next.is_none() && ahead.ran > 0 {
            continue;
        }
        steps.tick();
        steps.tell(1);
        ran += 1;
        match step_fetched(ahead.next, cpu, mem) {
            Outcome::Next => {}
            Outcome::Call => return TurnEnd::Call,
            Outcome::Trap(signal) => return TurnEnd::Trap(signal),
        }
    }
    TurnEnd::Spent
}
