//! epoll_create1 and epoll_ctl.

ghost use Rattle.std.specs.Prelude.{◌≡◌, ◌<◌, None, IfOk, OnOk};
ghost use Rattle.std.specs.FinMap as map;
ghost use Rattle.host_fds.specs.Descriptors.{limit};
ghost use Rattle.host_files.specs.Epolls.{epoll_at};
ghost use Rattle.file_calls.specs.EpollControl as spec;
ghost use Rattle.file_calls.specs.Scene.{Does};

use crate::descriptors::{look_up, lowest_free, open};
use crate::flags::{beside_cloexec, beside_epoll};
use crate::task::{Shared, Task};
use guest_args::sixteen;
use guest_mem::Mem;
use host_fds::Watch;
use host_files::{Epolls, File, Object};
use host_wants::{CallError, Refusal};
use sim_base::{Errno, NoMemory};

fn epoll_asked(task: &Task, flags: u32) -> Result<u32, Refusal>
    ensures asked { result ≡ spec.epoll_asked flags task.now }
    ensures in_range { IfOk result (λ fd. fd < limit) }
    ensures is_free { IfOk result (λ fd. map.get task.now.table fd ≡ None) }
{
    if beside_cloexec(flags) != 0 {
        return Err(Refusal::Errno(Errno::Einval));
    }
    match lowest_free(&task.table) {
        Some(fd) => Ok(fd),
        None => Err(Refusal::Errno(Errno::Emfile)),
    }
}

/// `epoll_create1(2)`.
pub fn epoll_create(task: &mut Task, shared: &mut Shared, flags: u32) -> Result<u32, CallError>
    ensures { Does (spec.epoll_create1 flags (task.old, shared.old)) (task.old, shared.old) (task.new, shared.new) result }
{
    let fd = epoll_asked(task, flags)?;
    let place = task.epolls.create(shared.files.allocator())?;
    let file = File {
        nonblocking: false,
        object: Object::Epoll(place),
    };
    open(fd, file, task, shared)?;
    Ok(fd)
}

/// The number of an epoll.
pub fn epoll_number(object: Object) -> Result<usize, Refusal>
    ensures { result ≡ spec.epoll_number object }
{
    match object {
        Object::Epoll(place) => Ok(place),
        Object::Input => Err(Refusal::Errno(Errno::Einval)),
        Object::Output => Err(Refusal::Errno(Errno::Einval)),
        Object::Errors => Err(Refusal::Errno(Errno::Einval)),
        Object::Hosts(_) => Err(Refusal::Errno(Errno::Einval)),
        Object::ReadEnd(_) => Err(Refusal::Errno(Errno::Einval)),
        Object::WriteEnd(_) => Err(Refusal::Errno(Errno::Einval)),
        Object::Timer(_) => Err(Refusal::Errno(Errno::Einval)),
        Object::Eventfd(_) => Err(Refusal::Errno(Errno::Einval)),
        Object::Udp(_) => Err(Refusal::Errno(Errno::Einval)),
        Object::Tcp(_) => Err(Refusal::Errno(Errno::Einval)),
    }
}

/// What `epoll_ctl(2)` does with an entry.
#[derive(Clone, Copy)]
pub enum Operation {
    Add,
    Delete,
    Modify,
}

fn operation_of(op: u32) -> Result<Operation, Refusal>
    ensures { result ≡ spec.operation_of op }
{
    match op {
        1 => Ok(Operation::Add),
        2 => Ok(Operation::Delete),
        3 => Ok(Operation::Modify),
        _ => Err(Refusal::Errno(Errno::Einval)),
    }
}

/// What can't be watched.
fn may_watch(object: Object) -> Result<(), Refusal>
    ensures { result ≡ spec.may_watch object }
{
    match object {
        Object::Input => Err(Refusal::Errno(Errno::Eperm)),
        Object::Output => Err(Refusal::Errno(Errno::Eperm)),
        Object::Errors => Err(Refusal::Errno(Errno::Eperm)),
        Object::Hosts(_) => Err(Refusal::Errno(Errno::Eperm)),
        Object::Epoll(_) => Err(Refusal::Errno(Errno::Eperm)),
        Object::ReadEnd(_) => Ok(()),
        Object::WriteEnd(_) => Ok(()),
        Object::Timer(_) => Ok(()),
        Object::Eventfd(_) => Ok(()),
        Object::Udp(_) => Ok(()),
        Object::Tcp(_) => Ok(()),
    }
}

/// The events of a `struct epoll_event`.
fn events_in(bytes: [u8; 16]) -> u32
    ensures { result ≡ spec.events_in bytes }
{
    let mut events = [0; 4];
    events.copy_from_slice(&bytes[..4]);
    u32::from_le_bytes(events)
}

fn watch_of(fd: u32, bytes: [u8; 16]) -> Watch
    ensures { result ≡ spec.watch_of fd bytes }
{
    let mut data = [0; 8];
    data.copy_from_slice(&bytes[8..16]);
    Watch {
        fd,
        events: events_in(bytes),
        data: u64::from_le_bytes(data),
        reported: None,
    }
}

/// The entry that a guest hands in.
fn watch_at(fd: u32, at: u32, memory: &Mem) -> Result<Watch, Refusal>
    ensures { result ≡ spec.watch_at fd at memory.now }
{
    let Some(bytes) = sixteen(memory, at) else {
        return Err(Refusal::Errno(Errno::Efault));
    };
    if beside_epoll(events_in(bytes)) != 0 {
        return Err(Refusal::Errno(Errno::Einval));
    }
    Ok(watch_of(fd, bytes))
}

fn has_entry(fd: u32, place: usize, epolls: &Epolls) -> bool
    ensures { result ≡ spec.has_entry fd (epoll_at place epolls.now) }
{
    match epolls.get(place) {
        Some(epoll) => epoll.watches(fd),
        None => false,
    }
}

/// What is done with the entry of a descriptor.
#[derive(Clone, Copy)]
pub enum Change {
    Put(Watch),
    Remove(u32),
}

fn change_of(
    operation: Operation,
    fd: u32,
    at: u32,
    there: bool,
    memory: &Mem,
) -> Result<Change, Refusal>
    ensures { result ≡ spec.change_of operation fd at there memory.now }
{
    match operation {
        Operation::Add => {
            let watch = watch_at(fd, at, memory)?;
            if there {
                return Err(Refusal::Errno(Errno::Eexist));
            }
            Ok(Change::Put(watch))
        }
        Operation::Modify => {
            let watch = watch_at(fd, at, memory)?;
            if !there {
                return Err(Refusal::Errno(Errno::Enoent));
            }
            Ok(Change::Put(watch))
        }
        Operation::Delete => {
            if !there {
                return Err(Refusal::Errno(Errno::Enoent));
            }
            Ok(Change::Remove(fd))
        }
    }
}

/// The number of an epoll, and what a descriptor names that it is to watch.
fn watched(epfd: u32, fd: u32, task: &Task, shared: &Shared) -> Result<(usize, Object), Refusal>
    ensures { result ≡ spec.watched epfd fd (task.now, shared.now) }
{
    let epoll = look_up(epfd, task, &shared.files)?;
    let d = look_up(fd, task, &shared.files)?;
    let place = epoll_number(epoll.file.object)?;
    if epfd == fd {
        return Err(Refusal::Errno(Errno::Einval));
    }
    Ok((place, d.file.object))
}

/// The epoll with a number, and what is done with an entry of it.
#[derive(Clone, Copy)]
pub struct Control {
    pub place: usize,
    pub change: Change,
}

fn ctl_asked(
    epfd: u32,
    op: u32,
    fd: u32,
    at: u32,
    task: &Task,
    shared: &Shared,
) -> Result<Control, Refusal>
    ensures { result ≡ spec.ctl_asked epfd op fd at (task.now, shared.now) }
{
    let (place, object) = watched(epfd, fd, task, shared)?;
    let operation = operation_of(op)?;
    may_watch(object)?;
    let there = has_entry(fd, place, &task.epolls);
    let change = change_of(operation, fd, at, there, &task.memory)?;
    Ok(Control { place, change })
}

fn make_change(control: Control, epolls: &mut Epolls) -> Result<(), NoMemory>
    ensures { OnOk result (epolls.new ≡ spec.changed control.change control.place epolls.old) }
{
    match control.change {
        Change::Put(watch) => epolls.put(control.place, watch),
        Change::Remove(fd) => {
            epolls.remove(control.place, fd);
            Ok(())
        }
    }
}

/// `epoll_ctl(2)`.
pub fn epoll_ctl(
    task: &mut Task,
    shared: &Shared,
    epfd: u32,
    op: u32,
    fd: u32,
    at: u32,
) -> Result<u32, CallError>
    ensures { Does (spec.epoll_ctl epfd op fd at (task.old, shared.now)) (task.old, shared.now) (task.new, shared.now) result }
{
    let control = ctl_asked(epfd, op, fd, at, task, shared)?;
    make_change(control, &mut task.epolls)?;
    Ok(0)
}
