//! Descriptors.

ghost use Rattle.std.specs.Prelude.{◌≡◌, ◌<◌, ◌≤◌, None, IfSome, OnOk};
ghost use Rattle.std.specs.FinMap as map;
ghost use Rattle.host_fds.specs.Descriptors.{limit};
ghost use Rattle.file_calls.specs.Descriptors as spec;
ghost use Rattle.file_calls.specs.Scene.{Is};

use crate::task::{Shared, Task};
use host_fds::{FileId, Table};
use host_files::{File, Files};
use host_wants::Refusal;
use sim_base::{Errno, NoMemory};

/// What a descriptor names: an open file, with its number.
#[derive(Clone, Copy)]
pub struct Descriptor {
    pub id: FileId,
    pub file: File,
}

/// The least free descriptor from one on.
#[tactic(auto, using(crate::proofs::Free::steps))]
pub(crate) fn free_from(table: &Table, from: u32) -> Option<u32>
    requires { from ≤ limit }
    ensures least { result ≡ spec.free_from table.now from }
    ensures no_less { IfSome result (λ fd. from ≤ fd) }
    ensures in_range { IfSome result (λ fd. fd < limit) }
    ensures is_free { IfSome result (λ fd. map.get table.now fd ≡ None) }
{
    for fd in from..Table::LIMIT as u32 {
        if table.get(fd).is_none() {
            return Some(fd);
        }
    }
    None
}

/// The least free descriptor of all, which a new one gets.
pub fn lowest_free(table: &Table) -> Option<u32>
    ensures least { result ≡ spec.lowest_free table.now }
    ensures in_range { IfSome result (λ fd. fd < limit) }
    ensures is_free { IfSome result (λ fd. map.get table.now fd ≡ None) }
{
    free_from(table, 0)
}

/// The open file that a descriptor names.
pub fn look_up(fd: u32, task: &Task, files: &Files) -> Result<Descriptor, Refusal>
    ensures { result ≡ spec.descriptor fd task.now files.now }
{
    match task.table.get(fd) {
        Some(id) => match files.file(id) {
            Some(file) => Ok(Descriptor { id, file }),
            None => Err(Refusal::Errno(Errno::Ebadf)),
        },
        None => Err(Refusal::Errno(Errno::Ebadf)),
    }
}

/// Opens a file, which a free descriptor then names.
pub fn open(fd: u32, file: File, task: &mut Task, shared: &mut Shared) -> Result<(), NoMemory>
    requires in_range { fd < limit }
    requires is_free { map.get task.old.table fd ≡ None }
    ensures { OnOk result (Is (spec.opens fd file (task.old, shared.old)) task.new shared.new) }
{
    let id = shared.files.open(file)?;
    task.table.install(fd, id);
    Ok(())
}
