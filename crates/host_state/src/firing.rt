//! What one event does to one host.

ghost use Rattle.std.specs.Prelude.{◌≡◌, ◌≤◌, ◌&&◌, not, List, slice_get, IfOk, OnOk};
ghost use Rattle.sim_base.specs.Units.{latest_time};
ghost use Rattle.host_state.specs.HostRecord.{HostRecord};
ghost use Rattle.host_state.specs.StandsFor.{BodyStands, Does, HandsOut};
ghost use Rattle.file_calls.specs.declared.task.Output.{Output};
ghost use Rattle.host_state.specs.Fire as spec;

use crate::host::Body;
use crate::slice::CALLS;
use file_calls::Why;
use guest_process::{Process, Running, Started, start_guest, texts_fit};
use host_calls::{answers_now, start_task};
use host_link::{Made, Net};
use host_rows::Row;
use sim_base::{Event, MOST_PROCESSES, NoMemory, Signal, What};
use std::alloc::Global;

/// What an event counts for, beside the calls that it leads to, as a number of instructions.
const EVENT_WORK: u64 = 100;

/// The start of a process, where there is one and its texts fit a stack.
#[tactic(auto, unfolding(crate::specs::Fire::ready))]
fn ready(alloc: Global, net: &Net, row: &Row, process: u32) -> Result<Option<Started>, NoMemory>
    ensures { IfOk result (λ started. started ≡ spec.ready net.now row.now process) }
{
    let Some(process) = row.processes.as_slice().get(process as usize) else {
        return Ok(None);
    };
    let Some(image) = net.images.as_slice().get(process.image) else {
        return Ok(None);
    };
    let arguments = process.arguments.as_slice();
    let environment = process.environment.as_slice();
    if !texts_fit(arguments, environment) {
        return Ok(None);
    }
    let started = start_guest(alloc, image, arguments, environment)?;
    Ok(Some(started))
}

impl Body {
    /// Whether a process has not started.
    fn is_not_started(&self, process: u32) -> bool
        ensures { result ≡ spec.is_not_started (slice_get self.now.processes.items process) }
    {
        match self.processes.get(process as usize) {
            Some(Process::NotStarted) => true,
            _ => false,
        }
    }

    /// A process that has started and not ended.
    fn running(&self, process: u32) -> Option<Running>
        ensures { result ≡ spec.running_in (slice_get self.now.processes.items process) }
    {
        match self.processes.get(process as usize) {
            Some(Process::Running(running)) => Some(*running),
            _ => None,
        }
    }

    /// A process begins.
    fn begin(&mut self, net: &Net, process: u32, started: Started) -> Result<(), NoMemory>
        ensures { OnOk result (Does (spec.begins_so net.now process started) self.old self.new) }
    {
        if !self.has_task(process) {
            return Ok(());
        }
        start_task(&mut self.parts, process, started.memory)?;
        self.run(net, process, CALLS, started.cpu)
    }

    /// A process that has not started is made, and runs a slice.
    fn start(&mut self, net: &Net, process: u32) -> Result<(), NoMemory>
        ensures { OnOk result (Does (spec.starts net.now process) self.old self.new) }
    {
        if !self.is_not_started(process) {
            return Ok(());
        }
        let alloc = *self.processes.allocator();
        let found = ready(alloc, net, &self.row, process)?;
        match found {
            Some(started) => self.begin(net, process, started),
            None => Ok(()),
        }
    }

    /// The call that a process waits in, if it waits.
    fn kept(&self, process: u32) -> Option<Why>
        ensures { result ≡ spec.kept_in (slice_get self.now.parts.tasks.items process) }
    {
        match self.parts.tasks.get(process as usize) {
            Some(Some(task)) => task.kept,
            _ => None,
        }
    }

    /// A process that has started and not ended goes on: a blocked one calls its kept call again and
    /// runs on, a paused one runs on.
    fn go(&mut self, net: &Net, process: u32) -> Result<(), NoMemory>
        ensures { OnOk result (Does (spec.goes net.now process) self.old self.new) }
    {
        let running = match self.running(process) {
            Some(running) => running,
            None => return Ok(()),
        };
        match self.kept(process) {
            Some(why) => self.call_again(net, process, why, running.cpu),
            None => self.run(net, process, CALLS, running.cpu),
        }
    }

    /// The signal that shuts a process down.
    fn shutdown_signal(&self, process: u32) -> Option<Signal>
        ensures { result ≡ spec.shutdown_signal self.now.row process }
    {
        let row = self.row.processes.as_slice().get(process as usize)?;
        Some(row.shutdown_signal)
    }

    /// A process that runs or is blocked ends by its shutdown signal.
    fn shut_down(&mut self, net: &Net, process: u32) -> Result<(), NoMemory>
        ensures { OnOk result (Does (spec.shuts net.now process) self.old self.new) }
    {
        let running = match self.running(process) {
            Some(running) => running,
            None => return Ok(()),
        };
        let signal = match self.shutdown_signal(process) {
            Some(signal) => signal,
            None => return Ok(()),
        };
        let next = self.kill(net, process, signal)?;
        self.follow(net, process, next, running.cpu)
    }

    /// What an event does.
    fn act(&mut self, net: &Net, what: What) -> Result<(), NoMemory>
        ensures { OnOk result (Does (spec.acts net.now what) self.old self.new) }
    {
        match what {
            What::Start(process) => self.start(net, process),
            What::Go(process) => self.go(net, process),
            What::Shutdown(process) => self.shut_down(net, process),
            What::Alarm { target, serial } => self.ring(net, target, serial),
            What::Loop(packet) => self.hand_over(net, packet),
            What::Up => self.come_up(net),
            What::Down => self.come_down(net),
            What::Packet(packet) => self.come_in(net, packet),
        }
    }

    /// Whether the kept call of a process would answer.
    fn would_answer(&self, net: &Net, process: u32, why: Option<Why>) -> bool
        ensures { (h : HostRecord) → BodyStands self.now h → result ≡ spec.would_answer net.now process why h }
    {
        let why = match why {
            Some(why) => why,
            None => return false,
        };
        if !self.has_task(process) {
            return false;
        }
        let now = self.link.now();
        answers_now(&self.parts, &net.known, now, process, &why)
    }

    /// Whether a process has no event to come that lets it go on, and its kept call would answer.
    fn is_to_wake(&self, net: &Net, process: u32, running: Running) -> bool
        ensures { (h : HostRecord) → BodyStands self.now h → result ≡ (not running.goes && spec.would_answer net.now process (spec.kept_in (slice_get self.now.parts.tasks.items process)) h) }
    {
        if running.goes {
            return false;
        }
        let why = self.kept(process);
        self.would_answer(net, process, why)
    }

    /// A blocked process whose call would answer goes on 1 ns later, unless it does so anyway.
    fn wake(&mut self, net: &Net, process: u32) -> Result<(), NoMemory>
        ensures { OnOk result (Does (spec.wakes net.now process) self.old self.new) }
    {
        let running = match self.running(process) {
            Some(running) => running,
            None => return Ok(()),
        };
        if !self.is_to_wake(net, process, running) {
            return Ok(());
        }
        self.go_later(process, 1, running.cpu)
    }

    /// The same for all processes, in their order.
    fn wake_all(&mut self, net: &Net) -> Result<(), NoMemory>
        ensures { OnOk result (Does (spec.wakes_all net.now) self.old self.new) }
    {
        let count = self.processes.len().min(MOST_PROCESSES) as u32;
        for process in 0..count {
            self.wake(net, process)?;
        }
        Ok(())
    }

    /// Takes what was made, and what processes wrote.
    fn hand_out(&mut self) -> Made
        ensures { (before : List Output) (h : HostRecord) → BodyStands self.old h → HandsOut (spec.hands_out (spec.keeps_outputs before h)) h.parts.shared.outputs result self.new }
    {
        let outputs = self.parts.shared.outputs.take();
        let (events, lines) = self.link.hand_out();
        Made {
            events,
            lines,
            outputs,
        }
    }

    /// An event fires: it acts at its time, and processes wake.
    pub(crate) fn fire(&mut self, net: &Net, event: Event) -> Result<Made, NoMemory>
        requires { event.key.due.nanos ≤ latest_time }
        ensures { IfOk result (λ made. (h : HostRecord) → BodyStands self.old h → h.link.time.nanos ≤ event.key.due.nanos → HandsOut (spec.fire net.now h event) (spec.wrote net.now h event) made self.new) }
    {
        let Event { key, what } = event;
        self.link.come_to(key.due);
        self.act(net, what)?;
        self.wake_all(net)?;
        self.work = self.work.saturating_add(EVENT_WORK);
        Ok(self.hand_out())
    }
}
