//! read, where no socket is meant.

ghost use Rattle.std.specs.Prelude.{nat_lt, ◌≡◌, ◌+◌, ◌≤◌, length, max, OnOk, IfOk};
ghost use Rattle.sim_base.specs.Units.{latest_time};
ghost use Rattle.sim_base.specs.declared.errno.Errno.TheVariants.{Einval};
ghost use Rattle.sim_base.specs.Refusals.{refuse_if};
ghost use Rattle.host_wants.specs.declared.error.Refusal.TheVariants as refusal;
ghost use Rattle.file_calls.specs.Numbers.{eventfd_size};
ghost use Rattle.host_files.specs.Files as files_spec;
ghost use Rattle.host_files.specs.Files.{pipe_gives};
ghost use Rattle.guest_args.specs.Span.{most};
ghost use Rattle.file_calls.specs.Files as spec;
ghost use Rattle.file_calls.specs.Scene.{Does, Is};

use crate::again::or_again;
use crate::descriptors::Descriptor;
use crate::eventfd::{eventfd_empty, read_eventfd};
use crate::task::{Shared, Task};
use crate::transfer::Transfer;
use guest_args::{counted, fill};
use guest_mem::Right;
use host_fds::Pipe;
use host_files::{File, Files, Object};
use host_wants::{CallError, Refusal};
use sim_base::{Errno, NoMemory, Time};

/// Whether there is room for a number of 8 bytes.
pub(crate) fn may_hold(n: u32) -> Result<(), Refusal>
    ensures { result ≡ refuse_if (nat_lt n eventfd_size) (refusal.Errno Einval) }
{
    if n < 8 {
        Err(Refusal::Errno(Errno::Einval))
    } else {
        Ok(())
    }
}

/// What cannot be read, an epoll among it, and what a timer or an eventfd has no room for.
fn may_read(object: Object, n: u32) -> Result<(), Refusal>
    ensures { result ≡ spec.may_read object n }
{
    match object {
        Object::Output => Err(Refusal::Errno(Errno::Ebadf)),
        Object::Errors => Err(Refusal::Errno(Errno::Ebadf)),
        Object::WriteEnd(_) => Err(Refusal::Errno(Errno::Ebadf)),
        Object::Epoll(_) => Err(Refusal::Errno(Errno::Einval)),
        Object::Timer(_) => may_hold(n),
        Object::Eventfd(_) => may_hold(n),
        Object::Input => Ok(()),
        Object::Hosts(_) => Ok(()),
        Object::ReadEnd(_) => Ok(()),
        Object::Udp(_) => Ok(()),
        Object::Tcp(_) => Ok(()),
    }
}

fn is_drained(pipe: &Pipe) -> bool
    ensures { result ≡ spec.is_drained pipe.now }
{
    pipe.len() == 0 && pipe.has_writer()
}

fn pipe_drained(place: usize, files: &Files) -> Result<(), Refusal>
    ensures { result ≡ spec.pipe_drained place files.now }
{
    match files.pipe(place) {
        Some(pipe) => {
            if is_drained(pipe) {
                Err(Refusal::Wait(None))
            } else {
                Ok(())
            }
        }
        None => Err(Refusal::Errno(Errno::Ebadf)),
    }
}

/// How many expiries of a timer no read has taken.
pub fn timer_count(now: Time, place: usize, files: &Files) -> u64
    requires { now.nanos ≤ latest_time }
    ensures { result ≡ files_spec.timer_count now.nanos place files.now }
{
    match files.timer(place) {
        Some(kept) => kept.timer.count(now),
        None => 0,
    }
}

fn wait_to_read(now: Time, object: Object, files: &Files) -> Result<(), Refusal>
    requires { now.nanos ≤ latest_time }
    ensures { result ≡ spec.wait_to_read now object files.now }
{
    match object {
        Object::ReadEnd(place) => pipe_drained(place, files),
        Object::Timer(place) => {
            if timer_count(now, place, files) == 0 {
                Err(Refusal::Wait(None))
            } else {
                Ok(())
            }
        }
        Object::Eventfd(place) => eventfd_empty(place, files),
        Object::Input => Ok(()),
        Object::Output => Ok(()),
        Object::Errors => Ok(()),
        Object::Hosts(_) => Ok(()),
        Object::WriteEnd(_) => Ok(()),
        Object::Epoll(_) => Ok(()),
        Object::Udp(_) => Ok(()),
        Object::Tcp(_) => Ok(()),
    }
}

/// What refuses a read, and whether it waits.
pub fn read_plan(
    now: Time,
    d: Descriptor,
    at: u32,
    n: u32,
    task: &Task,
    shared: &Shared,
) -> Result<Transfer, Refusal>
    requires { now.nanos ≤ latest_time }
    ensures { result ≡ spec.file_read_plan now d at n (task.now, shared.now) }
{
    may_read(d.file.object, n)?;
    if !task.memory.is_open(Right::Write, at, counted(n)) {
        return Err(Refusal::Errno(Errno::Efault));
    }
    let ready = wait_to_read(now, d.file.object, &shared.files);
    or_again(d.file.nonblocking, ready)?;
    Ok(Transfer { d, at, n })
}

/// The bytes of a text from one on, at most so many.
fn text_left(text: &[u8], read: u64, count: usize) -> &[u8]
    ensures left { result.now ≡ spec.text_left text.now read count }
    ensures within { read + length result.now ≤ max read (length text.now) }
    ensures at_most { length result.now ≤ count }
{
    if read >= text.len() as u64 {
        return &[];
    }
    let left = &text[read as usize..];
    &left[..count.min(left.len())]
}

fn read_hosts(
    text: &[u8],
    d: Descriptor,
    read: u64,
    at: u32,
    count: usize,
    task: &mut Task,
    shared: &mut Shared,
) -> u32
    requires { count ≤ most }
    ensures count { result ≡ length (spec.text_left text.now read count) }
    ensures told { Is (spec.hosts_read text.now d read at count (task.old, shared.old)) task.new shared.new }
{
    let bytes = text_left(text, read, count);
    fill(&mut task.memory, at, bytes);
    let file = File {
        nonblocking: d.file.nonblocking,
        object: Object::Hosts(read + bytes.len() as u64),
    };
    shared.files.replace(d.id, file);
    bytes.len() as u32
}

fn read_pipe(
    place: usize,
    at: u32,
    count: usize,
    task: &mut Task,
    shared: &mut Shared,
) -> Result<u32, NoMemory>
    requires { count ≤ most }
    ensures count { IfOk result (λ moved. moved ≡ length (pipe_gives count place shared.old.files)) }
    ensures told { OnOk result (Is (spec.pipe_read_by place at count (task.old, shared.old)) task.new shared.new) }
{
    let mut into = vec![in shared.files.allocator(); 0; count]?;
    let moved = shared.files.read_pipe(place, into.as_mut_slice());
    fill(&mut task.memory, at, &into.as_slice()[..moved]);
    Ok(moved as u32)
}

fn read_timer(now: Time, place: usize, at: u32, task: &mut Task, shared: &mut Shared)
    requires { now.nanos ≤ latest_time }
    ensures { Is (spec.timer_read_by now place at (task.old, shared.old)) task.new shared.new }
{
    let count = shared.files.read_timer(place, now);
    fill(&mut task.memory, at, &count.to_le_bytes());
}

/// Moves the bytes that a read gives to the guest.
fn read_done(
    text: &[u8],
    now: Time,
    d: Descriptor,
    at: u32,
    count: usize,
    task: &mut Task,
    shared: &mut Shared,
) -> Result<u32, NoMemory>
    requires now { now.nanos ≤ latest_time }
    requires count { count ≤ most }
    ensures count { IfOk result (λ moved. moved ≡ (spec.is_read text.now now d at count (task.old, shared.old)).0) }
    ensures told { OnOk result (Is (spec.is_read text.now now d at count (task.old, shared.old)).1 task.new shared.new) }
{
    match d.file.object {
        Object::Hosts(read) => Ok(read_hosts(text, d, read, at, count, task, shared)),
        Object::ReadEnd(place) => read_pipe(place, at, count, task, shared),
        Object::Timer(place) => {
            read_timer(now, place, at, task, shared);
            Ok(8)
        }
        Object::Eventfd(place) => {
            read_eventfd(place, at, task, shared);
            Ok(8)
        }
        Object::Input => Ok(0),
        Object::Output => Ok(0),
        Object::Errors => Ok(0),
        Object::WriteEnd(_) => Ok(0),
        Object::Epoll(_) => Ok(0),
        Object::Udp(_) => Ok(0),
        Object::Tcp(_) => Ok(0),
    }
}

/// `read(2)`.
pub fn read(
    text: &[u8],
    now: Time,
    transfer: Transfer,
    task: &mut Task,
    shared: &mut Shared,
) -> Result<u32, CallError>
    requires { now.nanos ≤ latest_time }
    ensures { Does (spec.reads text.now now transfer (task.old, shared.old)) (task.old, shared.old) (task.new, shared.new) result }
{
    let Transfer { d, at, n } = transfer;
    let moved = read_done(text, now, d, at, counted(n), task, shared)?;
    Ok(moved)
}
