//! A turn of a process.

ghost use Rattle.std.specs.Prelude.{◌≡◌, ◌<◌};
ghost use Rattle.rv32_machine.specs.Table.{state};
ghost use Rattle.rv32_machine.specs.Turn.{turn};
ghost use Rattle.guest_process.specs.Turns.{TurnStands, SlotTurns};

use file_calls::Task;
use rv32_machine::{Cpu, Steps, TurnEnd};
use std::marker::Brand;
use std::sync::ledger::{Blank, Ledger};

/// What a call counts for, beside the instructions that ran before it, as a number of instructions.
const CALL_WORK: u64 = 30;

fn turn_counted<L: Ledger>(
    cpu: &mut Cpu,
    task: &mut Task,
    budget: u64,
    work: &mut u64,
    blank: Blank,
) -> TurnEnd
    requires name { blank.name ≡ L.name }
    requires parts { blank.parts ≡ L.parts }
    requires some { 0 < L.parts }
    ensures { TurnStands (turn budget (state cpu.old task.old.memory)) cpu.new task.old task.new result }
{
    let mut steps = Steps::<L>::new(blank);
    let end = rv32_machine::turn(cpu, &mut task.memory, budget, &mut steps);
    *work = work.saturating_add(steps.told()).saturating_add(CALL_WORK);
    end
}

/// Runs a process up to its next call, to a trap, or as long as its budget lasts, and adds that to the work.
fn turn_task(cpu: &mut Cpu, task: &mut Task, budget: u64, work: &mut u64) -> TurnEnd
    ensures { TurnStands (turn budget (state cpu.old task.old.memory)) cpu.new task.old task.new result }
{
    turn_counted::<Brand>(cpu, task, budget, work, Blank::new(1))
}

/// The same, where the process is there.
pub fn turn_slot(
    cpu: &mut Cpu,
    slot: &mut Option<Task>,
    budget: u64,
    work: &mut u64,
) -> Option<TurnEnd>
    ensures { SlotTurns budget cpu.old slot.old cpu.new slot.new result }
{
    match slot {
        Some(task) => Some(turn_task(cpu, task, budget, work)),
        None => None,
    }
}
