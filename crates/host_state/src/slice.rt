//! A slice of a process.

ghost use Rattle.std.specs.Prelude.{◌≡◌, ◌<◌, None, nat_lt, IfOk, OnOk, length};
ghost use Rattle.std.specs.Bool.{OnTrue};
ghost use Rattle.host_state.specs.StandsFor.{Does, DoesStep};
ghost use Rattle.host_state.specs.Host as acting;
ghost use Rattle.host_state.specs.Slice as spec;
ghost use Rattle.host_state.specs.Step.{step_with};

use crate::host::Body;
use file_calls::Why;
use guest_process::{Process, Running, turn_slot};
use host_calls::{Answer, close_all, do_call};
use host_link::{Net, later};
use rv32_machine::{Cpu, TurnEnd};
use sim_base::{NoMemory, Signal, State, What};

/// How many calls are answered in a slice.
pub(crate) const CALLS: u32 = 100;

/// How many nanoseconds a process pauses after them.
const PAUSE: u64 = 100_000;

/// How a process goes on after a call. Its registers stay where they stand.
#[derive(Clone, Copy)]
pub enum Next {
    GoesOn,
    Blocks,
    Ends(State),
}

/// How a process goes on after a call: the value of an answer goes to its registers.
fn next_of(answer: Answer, cpu: &mut Cpu) -> Next
    ensures { step_with result cpu.new ≡ spec.step_of answer cpu.old }
{
    match answer {
        Answer::Value(value) => {
            cpu.x[10] = value;
            Next::GoesOn
        }
        Answer::Block(_) => Next::Blocks,
        Answer::End(state) => Next::Ends(state),
    }
}

impl Body {
    /// Whether there is a place for what the process is in.
    pub(crate) fn has_task(&self, process: u32) -> bool
        ensures is { result ≡ nat_lt process (length self.now.parts.tasks.items) }
        ensures within { OnTrue result (process < length self.now.parts.tasks.items) }
    {
        (process as usize) < self.parts.tasks.len()
    }

    /// A process makes a call.
    pub(crate) fn call(
        &mut self,
        net: &Net,
        process: u32,
        number: u32,
        arguments: [u32; 6],
        cpu: &mut Cpu,
    ) -> Result<Next, NoMemory>
        ensures { IfOk result (λ next. DoesStep (spec.calls net.now process number arguments cpu.old) (step_with next cpu.new) self.old self.new) }
    {
        if !self.has_task(process) {
            return Ok(Next::Blocks);
        }
        let now = self.link.now();
        let answer = do_call(&mut self.parts, &net.known, now, process, number, arguments)?;
        self.do_wanted(net)?;
        Ok(next_of(answer, cpu))
    }

    /// The descriptors of a process are closed.
    fn close(&mut self, net: &Net, process: u32) -> Result<(), NoMemory>
        ensures { OnOk result (Does (spec.closes net.now process) self.old self.new) }
    {
        if !self.has_task(process) {
            return Ok(());
        }
        let now = self.link.now();
        close_all(&mut self.parts, now, process)?;
        self.do_wanted(net)
    }

    /// A process ends by a signal, whatever its registers are.
    pub(crate) fn kill(&mut self, net: &Net, process: u32, signal: Signal) -> Result<Next, NoMemory>
        ensures { IfOk result (λ next. (cpu : Cpu) → DoesStep (spec.is_killed net.now process signal) (step_with next cpu) self.old self.new) }
    {
        self.close(net, process)?;
        Ok(Next::Ends(State::Signaled(signal)))
    }

    /// A turn of the machine has ended.
    fn end_turn(
        &mut self,
        net: &Net,
        process: u32,
        end: TurnEnd,
        cpu: &mut Cpu,
    ) -> Result<Next, NoMemory>
        ensures { IfOk result (λ next. DoesStep (spec.by_turn_end net.now process end cpu.old) (step_with next cpu.new) self.old self.new) }
    {
        match end {
            TurnEnd::Call => {
                let x = &cpu.x;
                let number = x[17];
                let arguments = [x[10], x[11], x[12], x[13], x[14], x[15]];
                self.call(net, process, number, arguments, cpu)
            }
            TurnEnd::Trap(signal) => self.kill(net, process, signal),
            TurnEnd::Spent => self.kill(net, process, Signal::SigXcpu),
        }
    }

    /// A process runs up to its next call, and calls.
    fn run_to_call(&mut self, net: &Net, process: u32, cpu: &mut Cpu) -> Result<Next, NoMemory>
        ensures { IfOk result (λ next. DoesStep (spec.runs_to_call net.now process cpu.old) (step_with next cpu.new) self.old self.new) }
    {
        if !self.has_task(process) {
            return Ok(Next::Blocks);
        }
        let turned = turn_slot(
            cpu,
            &mut self.parts.tasks[process as usize],
            net.budget,
            &mut self.work,
        );
        match turned {
            Some(end) => self.end_turn(net, process, end, cpu),
            None => Ok(Next::Blocks),
        }
    }

    /// The process is now this one.
    fn set_process(&mut self, process: u32, new: Process)
        ensures { Does (acting.with_process process new) self.old self.new }
    {
        if let Some(place) = self.processes.get_mut(process as usize) {
            *place = new;
        }
    }

    /// A blocked process waits until its call would answer.
    #[tactic(auto, unfolding(crate::specs::Slice::rests))]
    fn rest(&mut self, process: u32, cpu: Cpu)
        ensures { Does (spec.rests process cpu) self.old self.new }
    {
        self.set_process(process, Process::Running(Running { cpu, goes: false }));
    }

    /// What a process was in is let go.
    fn let_go(&mut self, process: u32)
        ensures { Does (λ h. acting.with_parts (spec.with_task process None h.parts) h) self.old self.new }
    {
        if let Some(task) = self.parts.tasks.get_mut(process as usize) {
            *task = None;
        }
    }

    /// A process has ended.
    fn end(&mut self, process: u32, state: State)
        ensures { Does (spec.has_ended process state) self.old self.new }
    {
        self.let_go(process);
        self.set_process(process, Process::Ended(state));
    }

    /// A process goes on after so many nanoseconds.
    pub(crate) fn go_later(&mut self, process: u32, nanos: u64, cpu: Cpu) -> Result<(), NoMemory>
        ensures { OnOk result (Does (spec.goes_later nanos process cpu) self.old self.new) }
    {
        let due = later(self.link.now(), nanos);
        self.link.make(due, What::Go(process))?;
        self.set_process(process, Process::Running(Running { cpu, goes: true }));
        Ok(())
    }

    /// A process runs up to so many calls, and then pauses.
    pub(crate) fn run(
        &mut self,
        net: &Net,
        process: u32,
        calls: u32,
        cpu: Cpu,
    ) -> Result<(), NoMemory>
        ensures { OnOk result (Does (spec.slice net.now process calls cpu) self.old self.new) }
    {
        let mut running = cpu;
        for _call in 0..calls {
            match self.run_to_call(net, process, &mut running)? {
                Next::GoesOn => {}
                Next::Blocks => {
                    self.rest(process, running);
                    return Ok(());
                }
                Next::Ends(state) => {
                    self.end(process, state);
                    return Ok(());
                }
            }
        }
        self.go_later(process, PAUSE, running)
    }

    /// A process goes on after its first call of a slice, or rests, or has ended.
    pub(crate) fn follow(
        &mut self,
        net: &Net,
        process: u32,
        next: Next,
        cpu: Cpu,
    ) -> Result<(), NoMemory>
        ensures { OnOk result (Does (λ h. spec.follows net.now process (step_with next cpu, h)) self.old self.new) }
    {
        match next {
            Next::GoesOn => self.run(net, process, CALLS - 1, cpu),
            Next::Blocks => {
                self.rest(process, cpu);
                Ok(())
            }
            Next::Ends(state) => {
                self.end(process, state);
                Ok(())
            }
        }
    }

    /// A kept call is called again.
    pub(crate) fn call_again(
        &mut self,
        net: &Net,
        process: u32,
        why: Why,
        cpu: Cpu,
    ) -> Result<(), NoMemory>
        ensures { OnOk result (Does (spec.calls_again net.now process why.number why.args cpu) self.old self.new) }
    {
        let mut running = cpu;
        let next = self.call(net, process, why.number, why.args, &mut running)?;
        self.follow(net, process, next, running)
    }
}
