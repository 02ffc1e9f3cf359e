//! fcntl, openat and pipe2.

ghost use Rattle.std.specs.Prelude.{◌≡◌, ◌+◌, ◌<◌, None, IfOk, OnOk};
ghost use Rattle.std.specs.FinMap as map;
ghost use Rattle.host_fds.specs.Descriptors.{limit};
ghost use Rattle.host_files.specs.Files.{next_pipe};
ghost use Rattle.file_calls.specs.Files as spec;
ghost use Rattle.file_calls.specs.Scene.{Does, Is};

use crate::descriptors::{free_from, look_up, lowest_free, open};
use crate::flags::{O_NONBLOCK, beside_open, has};
use crate::task::{Shared, Task};
use guest_args::fill;
use guest_mem::{Bad, Mem, Right};
use host_fds::Table;
use host_files::{File, Object};
use host_wants::{CallError, Refusal};
use sim_base::{Errno, NoMemory};

const F_GETFD: u32 = 1;

const F_SETFD: u32 = 2;

const F_GETFL: u32 = 3;

const F_SETFL: u32 = 4;

/// `fcntl(2)`.
pub fn fcntl(
    task: &Task,
    shared: &mut Shared,
    fd: u32,
    command: u32,
    flags: u32,
) -> Result<u32, CallError>
    ensures { Does (spec.fcntl fd command flags (task.now, shared.old)) (task.now, shared.old) (task.now, shared.new) result }
{
    let d = look_up(fd, task, &shared.files)?;
    match command {
        F_GETFD => Ok(0),
        F_SETFD => Ok(0),
        F_GETFL => Ok(status_flags(d.file)),
        F_SETFL => {
            shared.files.replace(
                d.id,
                File {
                    nonblocking: has(O_NONBLOCK, flags),
                    object: d.file.object,
                },
            );
            Ok(0)
        }
        _ => Err(CallError::Refused(Refusal::Errno(Errno::Einval))),
    }
}

fn status_flags(file: File) -> u32
    ensures { result ≡ spec.status_flags file }
{
    if file.nonblocking { O_NONBLOCK } else { 0 }
}

/// How many bytes a path may have, with its zero byte.
const PATH_MAX: u32 = 4096;

fn byte_at(memory: &Mem, at: u32, count: u32) -> Option<u8>
    ensures { result ≡ spec.byte_at (at + count) memory.now }
{
    match at.checked_add(count) {
        Some(at) => match memory.load8(at) {
            Ok(byte) => Some(byte),
            Err(Bad) => None,
        },
        None => None,
    }
}

/// How many bytes of a path stand before its zero byte.
#[tactic(auto, using(crate::proofs::Paths::path_steps))]
fn path_length(memory: &Mem, at: u32) -> Result<u32, Refusal>
    ensures { result ≡ spec.path_length at memory.now }
{
    for count in 0..PATH_MAX {
        match byte_at(memory, at, count) {
            Some(0) => return Ok(count),
            Some(_) => {}
            None => return Err(Refusal::Errno(Errno::Efault)),
        }
    }
    Err(Refusal::Errno(Errno::Einval))
}

/// Whether a path is that of the only file that there is.
fn is_hosts_path(memory: &Mem, at: u32, count: u32) -> bool
    ensures { result ≡ spec.is_hosts_path count at memory.now }
{
    if count != 10 {
        return false;
    }
    let mut path = [0; 10];
    match memory.copy_out(at, &mut path) {
        Ok(()) => path == *b"/etc/hosts",
        Err(Bad) => false,
    }
}

/// The descriptor that a file gets which is opened.
fn openat_asked(task: &Task, path: u32, flags: u32) -> Result<u32, Refusal>
    ensures asked { result ≡ spec.openat_asked path flags task.now }
    ensures in_range { IfOk result (λ fd. fd < limit) }
    ensures is_free { IfOk result (λ fd. map.get task.now.table fd ≡ None) }
{
    let count = path_length(&task.memory, path)?;
    if !is_hosts_path(&task.memory, path, count) {
        return Err(Refusal::Errno(Errno::Enoent));
    }
    if flags % 4 != 0 {
        return Err(Refusal::Errno(Errno::Eacces));
    }
    match lowest_free(&task.table) {
        Some(fd) => Ok(fd),
        None => Err(Refusal::Errno(Errno::Emfile)),
    }
}

/// `openat(2)`.
pub fn openat(task: &mut Task, shared: &mut Shared, path: u32, flags: u32) -> Result<u32, CallError>
    ensures { Does (spec.openat path flags (task.old, shared.old)) (task.old, shared.old) (task.new, shared.new) result }
{
    let fd = openat_asked(task, path, flags)?;
    let file = File {
        nonblocking: false,
        object: Object::Hosts(0),
    };
    open(fd, file, task, shared)?;
    Ok(fd)
}

/// The descriptors of a pipe's ends.
#[derive(Clone, Copy)]
pub struct Ends {
    pub reading: u32,
    pub writing: u32,
}

/// The descriptors that the ends of a pipe get which is made.
fn pipe2_asked(task: &Task, at: u32, flags: u32) -> Result<Ends, Refusal>
    ensures asked { result ≡ spec.pipe2_asked at flags task.now }
    ensures in_range { IfOk result (λ fds. (fds.reading < fds.writing) × (fds.writing < limit)) }
    ensures is_free { IfOk result (λ fds. (map.get task.now.table fds.reading ≡ None) × (map.get task.now.table fds.writing ≡ None)) }
{
    if beside_open(flags) != 0 {
        return Err(Refusal::Errno(Errno::Einval));
    }
    if !task.memory.is_open(Right::Write, at, 8) {
        return Err(Refusal::Errno(Errno::Efault));
    }
    match lowest_free(&task.table) {
        Some(reading) => second_end(&task.table, reading),
        None => Err(Refusal::Errno(Errno::Emfile)),
    }
}

fn second_end(table: &Table, reading: u32) -> Result<Ends, Refusal>
    requires in_range { reading < limit }
    ensures second { result ≡ spec.second_end reading table.now }
    ensures later { IfOk result (λ fds. (reading < fds.writing) × (fds.writing < limit)) }
    ensures first { IfOk result (λ fds. fds.reading ≡ reading) }
    ensures is_free { IfOk result (λ fds. map.get table.now fds.writing ≡ None) }
{
    match free_from(table, reading + 1) {
        Some(writing) => Ok(Ends { reading, writing }),
        None => Err(Refusal::Errno(Errno::Emfile)),
    }
}

/// `pipe2(2)`.
pub fn pipe2(task: &mut Task, shared: &mut Shared, at: u32, flags: u32) -> Result<u32, CallError>
    ensures { Does (spec.pipe2 at flags (task.old, shared.old)) (task.old, shared.old) (task.new, shared.new) result }
{
    let fds = pipe2_asked(task, at, flags)?;
    make_pipe(task, shared, fds, has(O_NONBLOCK, flags))?;
    fill(&mut task.memory, at, &ends_bytes(fds));
    Ok(0)
}

fn ends_bytes(fds: Ends) -> [u8; 8]
    ensures { result ≡ spec.ends_bytes fds }
{
    let [a, b, c, d] = fds.reading.to_le_bytes();
    let [e, f, g, h] = fds.writing.to_le_bytes();
    [a, b, c, d, e, f, g, h]
}

#[tactic(auto, using(crate::proofs::Free::still_free))]
fn make_pipe(
    task: &mut Task,
    shared: &mut Shared,
    fds: Ends,
    nonblocking: bool,
) -> Result<(), NoMemory>
    requires in_range { fds.reading < limit }
    requires also_in_range { fds.writing < limit }
    requires apart { fds.reading < fds.writing }
    requires is_free { map.get task.old.table fds.reading ≡ None }
    requires also_free { map.get task.old.table fds.writing ≡ None }
    ensures { OnOk result (Is (spec.with_ends fds nonblocking (next_pipe shared.old.files) (task.old, shared.old)) task.new shared.new) }
{
    let place = shared.files.new_pipe()?;
    let reading = File {
        nonblocking,
        object: Object::ReadEnd(place),
    };
    open(fds.reading, reading, task, shared)?;
    let writing = File {
        nonblocking,
        object: Object::WriteEnd(place),
    };
    open(fds.writing, writing, task, shared)
}
