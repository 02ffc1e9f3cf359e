//! The processes of a host.

ghost use Rattle.std.specs.Prelude.{◌≡◌, replicate, IfOk};
ghost use Rattle.guest_process.specs.States.{state_of};
ghost use Rattle.guest_process.specs.declared.process.Process.TheVariants as process;

use rv32_machine::Cpu;
use sim_base::{NoMemory, State};
use std::alloc::Global;

/// A process that has started and not ended: it is blocked in a call, or has paused.
#[derive(Clone, Copy)]
pub struct Running {
    pub cpu: Cpu,
    /// Whether an event is to come that lets it go on.
    pub goes: bool,
}

/// A process.
#[derive(Drop)]
pub enum Process {
    NotStarted,
    Running(Running),
    Ended(State),
}

impl Process {
    /// Its state, as its last line tells it.
    pub fn state(&self) -> State
        ensures { result ≡ state_of self.now }
    {
        match self {
            Process::NotStarted => State::NotStarted,
            Process::Running(_) => State::Running,
            Process::Ended(state) => *state,
        }
    }
}

/// So many processes that have not started.
pub fn not_started(alloc: Global, count: usize) -> Result<Vec<Process>, NoMemory>
    ensures { IfOk result (λ processes. processes.items ≡ replicate count process.NotStarted) }
{
    let mut processes = Vec::new(alloc);
    for _process in 0..count {
        processes.push(Process::NotStarted)?;
    }
    Ok(processes)
}
