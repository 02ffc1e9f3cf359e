//! eventfd2, and read and write of eventfds.

ghost use Rattle.std.specs.Prelude.{◌≡◌, ◌<◌, None, IfOk};
ghost use Rattle.std.specs.FinMap as map;
ghost use Rattle.host_fds.specs.Descriptors.{limit};
ghost use Rattle.host_files.specs.Files.{eventfd_at};
ghost use Rattle.file_calls.specs.Eventfd as spec;
ghost use Rattle.file_calls.specs.Scene.{Does, Is};

use crate::descriptors::{lowest_free, open};
use crate::flags::{EFD_SEMAPHORE, O_NONBLOCK, beside_eventfd, has};
use crate::task::{Shared, Task};
use guest_args::{eight, fill};
use guest_mem::Mem;
use host_fds::Eventfd;
use host_files::{File, Files, Object};
use host_wants::{CallError, Refusal};
use sim_base::Errno;

fn eventfd_asked(task: &Task, flags: u32) -> Result<u32, Refusal>
    ensures asked { result ≡ spec.eventfd_asked flags task.now }
    ensures in_range { IfOk result (λ fd. fd < limit) }
    ensures is_free { IfOk result (λ fd. map.get task.now.table fd ≡ None) }
{
    if beside_eventfd(flags) != 0 {
        return Err(Refusal::Errno(Errno::Einval));
    }
    match lowest_free(&task.table) {
        Some(fd) => Ok(fd),
        None => Err(Refusal::Errno(Errno::Emfile)),
    }
}

/// `eventfd2(2)`.
pub fn eventfd2(
    task: &mut Task,
    shared: &mut Shared,
    count: u32,
    flags: u32,
) -> Result<u32, CallError>
    ensures { Does (spec.eventfd2 count flags (task.old, shared.old)) (task.old, shared.old) (task.new, shared.new) result }
{
    let fd = eventfd_asked(task, flags)?;
    let eventfd = Eventfd::new(u64::from(count), has(EFD_SEMAPHORE, flags));
    let place = shared.files.new_eventfd(eventfd)?;
    let file = File {
        nonblocking: has(O_NONBLOCK, flags),
        object: Object::Eventfd(place),
    };
    open(fd, file, task, shared)?;
    Ok(fd)
}

/// A read waits while there is no count.
pub(crate) fn eventfd_empty(place: usize, files: &Files) -> Result<(), Refusal>
    ensures { result ≡ spec.eventfd_empty place files.now }
{
    match files.eventfd(place) {
        Some(eventfd) => {
            if eventfd.count == 0 {
                Err(Refusal::Wait(None))
            } else {
                Ok(())
            }
        }
        None => Err(Refusal::Errno(Errno::Ebadf)),
    }
}

/// Moves what a read takes to the guest.
pub(crate) fn read_eventfd(place: usize, at: u32, task: &mut Task, shared: &mut Shared)
    ensures { Is (spec.eventfd_read_by place at (task.old, shared.old)) task.new shared.new }
{
    let taken = shared.files.read_eventfd(place);
    fill(&mut task.memory, at, &taken.to_le_bytes());
}

fn number_at(at: u32, memory: &Mem) -> Result<u64, Refusal>
    ensures { result ≡ spec.number_at at memory.now }
{
    match eight(memory, at) {
        Some(bytes) => Ok(u64::from_le_bytes(bytes)),
        None => Err(Refusal::Errno(Errno::Efault)),
    }
}

fn number_fits(number: u64, eventfd: Option<Eventfd>) -> Result<(), Refusal>
    ensures { result ≡ spec.number_fits number eventfd }
{
    if number == u64::MAX {
        return Err(Refusal::Errno(Errno::Einval));
    }
    match eventfd {
        Some(eventfd) => {
            if eventfd.has_room(number) {
                Ok(())
            } else {
                Err(Refusal::Wait(None))
            }
        }
        None => Err(Refusal::Errno(Errno::Ebadf)),
    }
}

/// A write waits while there is no room for its number.
pub(crate) fn eventfd_full(
    at: u32,
    place: usize,
    memory: &Mem,
    files: &Files,
) -> Result<(), Refusal>
    ensures { result ≡ spec.eventfd_full at place memory.now files.now }
{
    let number = number_at(at, memory)?;
    number_fits(number, files.eventfd(place))
}

/// The number in the first 8 bytes of some; fewer are 0.
fn number_of(bytes: &[u8]) -> u64
    ensures { result ≡ spec.number_of bytes.now }
{
    if bytes.len() < 8 {
        return 0;
    }
    let mut number = [0; 8];
    number.copy_from_slice(&bytes[..8]);
    u64::from_le_bytes(number)
}

/// Adds the number of a write.
pub(crate) fn write_eventfd(place: usize, bytes: &[u8], shared: &mut Shared)
    ensures { shared.new ≡ spec.eventfd_write_by bytes.now place shared.old }
{
    shared.files.write_eventfd(place, number_of(bytes));
}
