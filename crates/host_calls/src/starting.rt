//! The start of a process.

ghost use Rattle.std.specs.Prelude.{◌≡◌, ◌<◌, None, replicate, vec_len, IfOk, OnOk};
ghost use Rattle.host_calls.specs.Parts.{PartsRecord, PartsStand};
ghost use Rattle.host_calls.specs.Starting as spec;

use crate::all::Parts;
use call_parts::start;
use file_calls::{Outputs, Shared, Task};
use guest_mem::Mem;
use host_draws::Draws;
use host_files::Files;
use host_sockets::Sockets;
use host_wants::Outlet;
use sim_base::{Ip, NoMemory};
use std::alloc::Global;

/// A process starts with a memory: its descriptors 0, 1 and 2 are its standard input, output and
/// error.
pub fn start_task(parts: &mut Parts, process: u32, memory: Mem) -> Result<(), NoMemory>
    requires { process < vec_len parts.old.tasks }
    ensures { OnOk result ((h : PartsRecord) → PartsStand parts.old h → PartsStand parts.new (spec.task_starts process memory h)) }
{
    let alloc = parts.shared.files.allocator();
    let task = start(alloc, memory, &mut parts.shared)?;
    parts.tasks[process as usize] = Some(task);
    Ok(())
}

fn no_tasks(alloc: Global, count: usize) -> Result<Vec<Option<Task>>, NoMemory>
    ensures { IfOk result (λ tasks. tasks.items ≡ replicate count None) }
{
    let mut tasks = Vec::new(alloc);
    for _task in 0..count {
        tasks.push(None)?;
    }
    Ok(tasks)
}

impl Parts {
    ghost use Rattle.host_calls.specs.Parts.{PartsRecord, PartsStand};
    ghost use Rattle.host_calls.specs.Starting as spec;

    /// Those of a host with this address and generator, before any of its processes starts.
    pub fn new(alloc: Global, own: Ip, draws: Draws, count: usize) -> Result<Parts, NoMemory>
        ensures { IfOk result (λ parts. PartsStand parts (spec.no_parts own draws count)) }
    {
        Ok(Parts {
            tasks: no_tasks(alloc, count)?,
            shared: Shared {
                files: Files::new(alloc),
                outlet: Outlet::new(alloc, draws),
                outputs: Outputs::new(alloc),
            },
            sockets: Sockets::new(alloc, own),
        })
    }
}
