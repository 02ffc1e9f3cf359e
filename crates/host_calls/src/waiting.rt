//! Whether a call that waits would answer.

ghost use Rattle.std.specs.Prelude.{◌≡◌, ◌<◌, ◌≤◌, vec_len};
ghost use Rattle.sim_base.specs.Units.{latest_time};
ghost use Rattle.host_sockets.specs.Sockets.{SocketsRecord};
ghost use Rattle.host_sockets.specs.StandsFor.{Stand};
ghost use Rattle.host_calls.specs.Calls as spec;
ghost use Rattle.host_calls.specs.Parts.{PartsRecord, PartsStand};
ghost use Rattle.host_calls.specs.Parts.{slot as slot_at};
ghost use Rattle.host_calls.specs.inside.Stage.{Sees};

use crate::all::Parts;
use crate::plan::Plan;
use crate::stage::View;
use call_parts::Call;
use file_calls::{Known, Shared, Task, Why};
use host_sockets::Sockets;
use host_wants::Refusal;
use sim_base::Time;

fn is_wait(asked: Result<Plan, Refusal>) -> bool
    ensures { result ≡ spec.is_wait asked }
{
    match asked {
        Err(Refusal::Wait(_)) => true,
        Err(Refusal::Errno(_)) => false,
        Err(Refusal::Kept(_)) => false,
        Err(Refusal::End(_)) => false,
        Ok(_) => false,
    }
}

impl View<'_> {
    fn waits(&self, call: Option<Call>, args: [u32; 6]) -> bool
        requires { self.now.time.nanos ≤ latest_time }
        ensures { Sees (spec.waits self.now.known.now self.now.time call args) self.now result }
    {
        match call {
            Some(Call::Waiting(call)) => is_wait(self.asked(call, args)),
            Some(Call::Plain(_)) => false,
            Some(Call::Network(_)) => false,
            Some(Call::Close) => false,
            Some(Call::Exit) => false,
            None => false,
        }
    }
}

fn answers_slot(
    known: &Known,
    now: Time,
    why: &Why,
    slot: &Option<Task>,
    shared: &Shared,
    sockets: &Sockets,
) -> bool
    requires { now.nanos ≤ latest_time }
    ensures { (t : SocketsRecord) → Stand sockets.now t → result ≡ spec.answers_slot known.now now why.now (slot_at slot.now shared.now t) }
{
    match slot {
        Some(task) => {
            let view = View {
                known,
                time: now,
                task,
                shared,
                sockets,
            };
            !view.waits(Call::of(why.number), why.args)
        }
        None => true,
    }
}

/// Whether the kept call of a process would answer: making it again gives another answer than
/// `Block`. It takes no memory.
pub fn answers_now(parts: &Parts, known: &Known, now: Time, process: u32, why: &Why) -> bool
    requires now { now.nanos ≤ latest_time }
    requires process { process < vec_len parts.now.tasks }
    ensures { (h : PartsRecord) → PartsStand parts.now h → result ≡ spec.answers known.now now process why.now h }
{
    answers_slot(
        known,
        now,
        why,
        &parts.tasks[process as usize],
        &parts.shared,
        &parts.sockets,
    )
}
