//! getpid, brk and getrandom.

ghost use Rattle.std.specs.Prelude.{◌≡◌, ◌+◌, ◌<◌, ◌≤◌, IfOk, OnOk, vec_len};
ghost use Rattle.file_calls.specs.Guest as spec;
ghost use Rattle.file_calls.specs.Scene.{Does};

use crate::task::{Shared, Task};
use guest_args::fill;
use guest_mem::Right;
use host_wants::{CallError, Outlet, Refusal};
use sim_base::{Errno, NoMemory};
use std::alloc::Global;

/// The id of the first process of a host.
pub const FIRST_ID: u32 = 1000;

/// `getpid(2)`: the processes of a host have the ids 1000, 1001, .. in their order.
pub fn getpid(process: u32) -> u32
    ensures { result ≡ spec.getpid process }
{
    FIRST_ID.wrapping_add(process)
}

/// `brk(2)`.
pub fn brk(task: &mut Task, to: u32) -> Result<u32, NoMemory>
    ensures { IfOk result (λ standing. (standing, task.new) ≡ spec.brk to task.old) }
{
    task.memory.grow_break(to)
}

/// How many bytes `getrandom` gives at most.
const RANDOM_MAX: u32 = 256;

/// So many bytes, and those of the last word behind them.
#[tactic(auto, using(crate::proofs::Random::word_steps))]
fn random(alloc: Global, outlet: &mut Outlet, count: usize) -> Result<Vec<u8>, NoMemory>
    requires { count ≤ spec.max_random }
    ensures words { IfOk result (λ bytes. (bytes.items, outlet.new) ≡ spec.words (spec.words_in count) outlet.old) }
    ensures enough { IfOk result (λ bytes. count ≤ vec_len bytes) }
{
    let mut bytes = Vec::new(alloc);
    for _word in 0..(count + 7) / 8 {
        bytes.extend_from_slice(&outlet.word().to_le_bytes())?;
    }
    Ok(bytes)
}

/// `getrandom(2)`.
pub fn getrandom(
    task: &mut Task,
    shared: &mut Shared,
    at: u32,
    n: u32,
    flags: u32,
) -> Result<u32, CallError>
    ensures { Does (spec.getrandom at n flags (task.old, shared.old)) (task.old, shared.old) (task.new, shared.new) result }
{
    let count = n.min(RANDOM_MAX);
    if flags > 3 {
        return Err(CallError::Refused(Refusal::Errno(Errno::Einval)));
    }
    if !task.memory.is_open(Right::Write, at, count as usize) {
        return Err(CallError::Refused(Refusal::Errno(Errno::Efault)));
    }
    let bytes = random(shared.files.allocator(), &mut shared.outlet, count as usize)?;
    fill(&mut task.memory, at, &bytes.as_slice()[..count as usize]);
    Ok(count)
}
