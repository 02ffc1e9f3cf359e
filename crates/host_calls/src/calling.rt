//! The table of system calls.

ghost use Rattle.std.specs.Prelude.{◌≡◌, ◌<◌, ◌≤◌, vec_len, Result, IfOk, OnOk};
ghost use Rattle.sim_base.specs.Units.{latest_time};
ghost use Rattle.host_sockets.specs.Sockets.{SocketsRecord};
ghost use Rattle.host_sockets.specs.StandsFor.{Stand};
ghost use Rattle.host_calls.specs.Calls as spec;
ghost use Rattle.host_calls.specs.inside.Calls as inside;
ghost use Rattle.host_calls.specs.Parts.{Answers, PartsRecord, PartsStand, scene, Scene, local_of};
ghost use Rattle.host_calls.specs.Parts.{slot as slot_at, Leaves};
ghost use Rattle.host_calls.specs.inside.Stage.{Stays, Acts, Called, local_on, scene_on};

use crate::all::Parts;
use crate::closing::close_task;
use crate::parts::{Answer, Reaction};
use crate::stage::Stage;
use call_parts::{Call, NetworkCall, WaitingCall, plain_row};
use file_calls::{Known, Shared, Task, Why, negative};
use host_sockets::Sockets;
use host_wants::{CallError, Refusal};
use sim_base::{AlarmTarget, Errno, NoMemory, State, Time};

impl Stage<'_> {
    /// The row of a call on sockets.
    fn network_row(&mut self, call: NetworkCall, args: [u32; 6]) -> Result<Reaction, CallError>
        ensures { Acts (spec.network_row self.old.known.now self.old.time call args) self.old self.new result }
    {
        let [a, b, c, d, e, _f] = args;
        match call {
            NetworkCall::Socket => self.socket(a, b, c),
            NetworkCall::Bind => self.bind(a, b, c),
            NetworkCall::Listen => self.listen(a, b),
            NetworkCall::Getsockname => self.getsockname(a, b, c),
            NetworkCall::Getpeername => self.getpeername(a, b, c),
            NetworkCall::Getsockopt => self.getsockopt(a, b, c, d, e),
            NetworkCall::Shutdown => self.shutdown(a, b),
        }
    }

    /// The row of a call that is asked what it would do, and then does that.
    fn asked_row(&mut self, call: WaitingCall, args: [u32; 6]) -> Result<Reaction, CallError>
        requires { self.old.time.nanos ≤ latest_time }
        ensures { Acts (spec.waiting_row self.old.known.now self.old.time self.old.process call args) self.old self.new result }
    {
        let plan = self.view().asked(call, args)?;
        self.act(plan)
    }

    /// The row of a call that may wait. A wait for an epoll is asked and done at once, since either would look at each of
    /// its entries.
    fn waiting_row(&mut self, call: WaitingCall, args: [u32; 6]) -> Result<Reaction, CallError>
        requires { self.old.time.nanos ≤ latest_time }
        ensures { Acts (spec.waiting_row self.old.known.now self.old.time self.old.process call args) self.old self.new result }
    {
        if let WaitingCall::EpollWait = call {
            let [a, b, c, d, _e, _f] = args;
            return self.epoll_pwait(a, b, c, d);
        }
        self.asked_row(call, args)
    }

    /// The row of a call.
    fn row(&mut self, call: Call, args: [u32; 6]) -> Result<Reaction, CallError>
        requires { self.old.time.nanos ≤ latest_time }
        ensures { Acts (spec.row self.old.known.now self.old.time self.old.process call args) self.old self.new result }
    {
        match call {
            Call::Plain(call) => {
                let value = plain_row(self.time, self.process, call, args, self.task, self.shared)?;
                Ok(Reaction::Value(value))
            }
            Call::Network(call) => self.network_row(call, args),
            Call::Waiting(call) => self.waiting_row(call, args),
            Call::Close => self.close(args[0]),
            Call::Exit => Err(CallError::Refused(Refusal::End(exited(args[0])))),
        }
    }

    fn row_of(&mut self, call: Option<Call>, args: [u32; 6]) -> Result<Reaction, CallError>
        requires { self.old.time.nanos ≤ latest_time }
        ensures { Acts (spec.row_of self.old.known.now self.old.time self.old.process call args) self.old self.new result }
    {
        match call {
            Some(call) => self.row(call, args),
            None => Err(CallError::Refused(Refusal::Errno(Errno::Enosys))),
        }
    }

    /// What a guest sees of what its call's row says.
    fn answer_call(
        &mut self,
        number: u32,
        args: [u32; 6],
        reaction: Result<Reaction, CallError>,
    ) -> Result<Answer, NoMemory>
        ensures stays { Stays self.old self.new }
        ensures answered { IfOk result (λ a. (row : Result (Reaction × Scene) Refusal) (before : Scene)
            → Answers row (local_of before) before.sockets (local_on self.old) self.old.sockets.now reaction
            → Called (spec.answered self.old.time self.old.process number args row before) a self.new) }
    {
        match reaction {
            Ok(Reaction::Value(value)) => {
                self.task.kept = None;
                Ok(Answer::Value(value))
            }
            Ok(Reaction::Waits) => {
                block(
                    self.process,
                    why_of(number, args, None),
                    self.task,
                    self.shared,
                )
            }
            Err(CallError::Refused(Refusal::Errno(errno))) => {
                self.task.kept = None;
                Ok(Answer::Value(negative(errno)))
            }
            Err(CallError::Refused(Refusal::Kept(errno))) => {
                self.task.kept = None;
                Ok(Answer::Value(negative(errno)))
            }
            Err(CallError::Refused(Refusal::Wait(deadline))) => {
                block(
                    self.process,
                    why_of(number, args, deadline),
                    self.task,
                    self.shared,
                )
            }
            Err(CallError::Refused(Refusal::End(state))) => {
                end_task(self.time, self.task, self.shared, self.sockets)?;
                Ok(Answer::End(state))
            }
            Err(CallError::NoMemory) => Err(NoMemory),
        }
    }

    /// A call of the process.
    fn make_call(&mut self, number: u32, args: [u32; 6]) -> Result<Answer, NoMemory>
        requires { self.old.time.nanos ≤ latest_time }
        ensures stays { Stays self.old self.new }
        ensures called { IfOk result (λ a. (t : SocketsRecord) → Stand self.old.sockets.now t
            → Called (spec.call_scene self.old.known.now self.old.time self.old.process number args (scene_on self.old t)) a self.new) }
    {
        let reaction = self.row_of(Call::of(number), args);
        self.answer_call(number, args, reaction)
    }
}

fn exited(status: u32) -> State
    ensures { result ≡ spec.exited status }
{
    State::Exited((status % 256) as u8)
}

fn want_alarm(process: u32, deadline: Option<Time>, shared: &mut Shared) -> Result<(), NoMemory>
    ensures { OnOk result (shared.new ≡ spec.with_alarm process deadline shared.old) }
{
    if let Some(deadline) = deadline {
        let _serial = shared
            .outlet
            .alarm(AlarmTarget::Process(process), deadline)?;
    }
    Ok(())
}

/// A call that waits is kept.
fn block(process: u32, why: Why, task: &mut Task, shared: &mut Shared) -> Result<Answer, NoMemory>
    ensures { IfOk result (λ a. inside.IsCalled (spec.blocks process why (task.old, shared.old)) a task.new shared.new) }
{
    match task.kept {
        Some(first) => Ok(Answer::Block(first)),
        None => {
            want_alarm(process, why.deadline, shared)?;
            task.kept = Some(why);
            Ok(Answer::Block(why))
        }
    }
}

/// Ends a process: it waits in no call, and its descriptors are closed.
pub(crate) fn end_task(
    now: Time,
    task: &mut Task,
    shared: &mut Shared,
    sockets: &mut Sockets,
) -> Result<(), NoMemory>
    ensures { OnOk result ((t : SocketsRecord) → Stand sockets.old t → Leaves (spec.all_ended now (scene (task.old, shared.old) t)) (task.new, shared.new) sockets.new) }
{
    task.kept = None;
    close_task(now, task, shared, sockets)
}

fn why_of(number: u32, args: [u32; 6], deadline: Option<Time>) -> Why
    ensures { result ≡ spec.why_of number args deadline }
{
    Why {
        number,
        args,
        deadline,
    }
}

fn call_slot(
    known: &Known,
    now: Time,
    process: u32,
    number: u32,
    args: [u32; 6],
    slot: &mut Option<Task>,
    shared: &mut Shared,
    sockets: &mut Sockets,
) -> Result<Answer, NoMemory>
    requires { now.nanos ≤ latest_time }
    ensures { IfOk result (λ a. (t : SocketsRecord) → Stand sockets.old t → inside.SlotCalled (spec.call_slot known.now now process number args (slot_at slot.old shared.old t)) a slot.new shared.new sockets.new) }
{
    match slot {
        Some(task) => {
            let mut stage = Stage {
                known,
                time: now,
                process,
                task,
                shared,
                sockets,
            };
            stage.make_call(number, args)
        }
        None => Ok(Answer::Value(negative(Errno::Enosys))),
    }
}

/// A system call of a process: what it answers (Linux's manual pages, section 2).
///
/// At `Block` the call is kept, and the alarm of its deadline is wanted; every other answer clears
/// the kept call. At `End` the descriptors of the process are closed. A process that isn't there
/// has no calls: ENOSYS.
pub fn do_call(
    parts: &mut Parts,
    known: &Known,
    now: Time,
    process: u32,
    number: u32,
    args: [u32; 6],
) -> Result<Answer, NoMemory>
    requires now { now.nanos ≤ latest_time }
    requires process { process < vec_len parts.old.tasks }
    ensures { IfOk result (λ a. (h : PartsRecord) → PartsStand parts.old h → spec.PartsCalled (spec.call known.now now process number args h) a parts.new) }
{
    call_slot(
        known,
        now,
        process,
        number,
        args,
        &mut parts.tasks[process as usize],
        &mut parts.shared,
        &mut parts.sockets,
    )
}
