//! write, where no socket is meant.

ghost use Rattle.std.specs.Prelude.{◌≡◌, ◌≤◌, vec_len, OnOk, IfOk};
ghost use Rattle.guest_args.specs.Span.{most};
ghost use Rattle.file_calls.specs.Files as spec;
ghost use Rattle.file_calls.specs.Scene.{Does};

use crate::again::or_again;
use crate::descriptors::Descriptor;
use crate::eventfd::{eventfd_full, write_eventfd};
use crate::reading::may_hold;
use crate::task::{Output, Shared, Task};
use crate::transfer::Transfer;
use guest_args::{block, counted};
use guest_mem::{Mem, Right};
use host_files::{Files, Object};
use host_wants::{CallError, Refusal};
use sim_base::{Bytes, Errno, NoMemory, Signal, State};

/// What cannot be written, and what is too short for an eventfd.
fn may_write(object: Object, n: u32) -> Result<(), Refusal>
    ensures { result ≡ spec.may_write object n }
{
    match object {
        Object::Input => Err(Refusal::Errno(Errno::Ebadf)),
        Object::Hosts(_) => Err(Refusal::Errno(Errno::Ebadf)),
        Object::ReadEnd(_) => Err(Refusal::Errno(Errno::Ebadf)),
        Object::Timer(_) => Err(Refusal::Errno(Errno::Einval)),
        Object::Epoll(_) => Err(Refusal::Errno(Errno::Einval)),
        Object::Eventfd(_) => may_hold(n),
        Object::Output => Ok(()),
        Object::Errors => Ok(()),
        Object::WriteEnd(_) => Ok(()),
        Object::Udp(_) => Ok(()),
        Object::Tcp(_) => Ok(()),
    }
}

fn pipe_full(count: usize, place: usize, files: &Files) -> Result<(), Refusal>
    ensures { result ≡ spec.pipe_full count place files.now }
{
    match files.pipe(place) {
        Some(pipe) => {
            if !pipe.has_reader() {
                return Err(Refusal::End(State::Signaled(Signal::SigPipe)));
            }
            if count > 0 && pipe.room() == 0 {
                return Err(Refusal::Wait(None));
            }
            Ok(())
        }
        None => Err(Refusal::Errno(Errno::Ebadf)),
    }
}

fn wait_to_write(
    at: u32,
    count: usize,
    object: Object,
    memory: &Mem,
    files: &Files,
) -> Result<(), Refusal>
    ensures { result ≡ spec.wait_to_write at count object memory.now files.now }
{
    match object {
        Object::WriteEnd(place) => pipe_full(count, place, files),
        Object::Eventfd(place) => eventfd_full(at, place, memory, files),
        Object::Input => Ok(()),
        Object::Output => Ok(()),
        Object::Errors => Ok(()),
        Object::Hosts(_) => Ok(()),
        Object::ReadEnd(_) => Ok(()),
        Object::Timer(_) => Ok(()),
        Object::Epoll(_) => Ok(()),
        Object::Udp(_) => Ok(()),
        Object::Tcp(_) => Ok(()),
    }
}

/// What refuses a write, and whether it waits.
pub fn write_plan(
    d: Descriptor,
    at: u32,
    n: u32,
    task: &Task,
    shared: &Shared,
) -> Result<Transfer, Refusal>
    ensures { result ≡ spec.file_write_plan d at n (task.now, shared.now) }
{
    may_write(d.file.object, n)?;
    if !task.memory.is_open(Right::Read, at, counted(n)) {
        return Err(Refusal::Errno(Errno::Efault));
    }
    let object = d.file.object;
    let ready = wait_to_write(at, counted(n), object, &task.memory, &shared.files);
    or_again(d.file.nonblocking, ready)?;
    Ok(Transfer { d, at, n })
}

fn put_out(
    process: u32,
    descriptor: u32,
    bytes: Vec<u8>,
    shared: &mut Shared,
) -> Result<(), NoMemory>
    ensures { OnOk result (shared.new ≡ spec.with_output process descriptor bytes.items shared.old) }
{
    shared.outputs.push(Output {
        process,
        descriptor,
        bytes: Bytes::from(bytes),
    })
}

/// Moves the bytes of a write to where they go.
fn write_done(
    process: u32,
    d: Descriptor,
    bytes: Vec<u8>,
    shared: &mut Shared,
) -> Result<u32, NoMemory>
    requires { vec_len bytes ≤ most }
    ensures count { IfOk result (λ moved. moved ≡ spec.count_written bytes.items d.file.object shared.old.files) }
    ensures left { OnOk result (shared.new ≡ spec.after_write process bytes.items d.file.object shared.old) }
{
    let count = bytes.len() as u32;
    match d.file.object {
        Object::Output => {
            put_out(process, 1, bytes, shared)?;
            Ok(count)
        }
        Object::Errors => {
            put_out(process, 2, bytes, shared)?;
            Ok(count)
        }
        Object::WriteEnd(place) => Ok(shared.files.write_pipe(place, &bytes) as u32),
        Object::Eventfd(place) => {
            write_eventfd(place, &bytes, shared);
            Ok(8)
        }
        Object::Input => Ok(0),
        Object::Hosts(_) => Ok(0),
        Object::ReadEnd(_) => Ok(0),
        Object::Timer(_) => Ok(0),
        Object::Epoll(_) => Ok(0),
        Object::Udp(_) => Ok(0),
        Object::Tcp(_) => Ok(0),
    }
}

/// `write(2)`.
pub fn write(
    process: u32,
    transfer: Transfer,
    task: &Task,
    shared: &mut Shared,
) -> Result<u32, CallError>
    ensures { Does (spec.writes process transfer (task.now, shared.old)) (task.now, shared.old) (task.now, shared.new) result }
{
    let Transfer { d, at, n } = transfer;
    match block(shared.files.allocator(), &task.memory, at, counted(n))? {
        Some(bytes) => {
            let moved = write_done(process, d, bytes, shared)?;
            Ok(moved)
        }
        None => Err(CallError::Refused(Refusal::Errno(Errno::Efault))),
    }
}
