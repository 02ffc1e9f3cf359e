//! The start of a process.

ghost use Rattle.std.specs.Prelude.{◌≡◌, IfOk};
ghost use Rattle.file_calls.specs.Scene.{Is};
ghost use Rattle.call_parts.specs.Starting as spec;

use file_calls::{Shared, Task, open};
use guest_mem::Mem;
use host_fds::Table;
use host_files::{Epolls, File, Object};
use sim_base::NoMemory;
use std::alloc::Global;

fn std_file(object: Object) -> File
    ensures { result ≡ spec.std_file object }
{
    File {
        nonblocking: false,
        object,
    }
}

/// A process with this memory, whose descriptors 0, 1 and 2 are its standard input, output and
/// error.
pub fn start(alloc: Global, memory: Mem, shared: &mut Shared) -> Result<Task, NoMemory>
    ensures { IfOk result (λ task. Is (spec.starts memory shared.old) task shared.new) }
{
    let mut task = Task {
        table: Table::new(alloc)?,
        epolls: Epolls::new(alloc),
        memory,
        kept: None,
    };
    open(0, std_file(Object::Input), &mut task, shared)?;
    open(1, std_file(Object::Output), &mut task, shared)?;
    open(2, std_file(Object::Errors), &mut task, shared)?;
    Ok(task)
}
