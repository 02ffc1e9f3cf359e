//! What setsockopt and getsockopt are asked for, and where it is told.

ghost use Rattle.std.specs.Prelude.{◌≡◌};
ghost use Rattle.file_calls.specs.Scene.{Does};
ghost use Rattle.call_parts.specs.Sockets as spec;

use crate::sockets::{SocketNumber, open_socket, word_at};
use file_calls::{Shared, Task};
use guest_args::{counted, fill};
use guest_mem::{Mem, Right};
use host_wants::{CallError, Refusal};
use sim_base::Errno;

/// SO_REUSEADDR (1, 2), SO_KEEPALIVE (1, 9) and TCP_NODELAY (6, 1) may be set.
fn may_set(level: u32, option: u32) -> bool
    ensures { result ≡ spec.may_set level option }
{
    (level == 1 && (option == 2 || option == 9)) || (level == 6 && option == 1)
}

/// What refuses a `setsockopt(2)`.
fn setsockopt_asked(
    fd: u32,
    level: u32,
    option: u32,
    at: u32,
    n: u32,
    task: &Task,
    shared: &Shared,
) -> Result<(), Refusal>
    ensures { result ≡ spec.setsockopt_asked fd level option at n (task.now, shared.now) }
{
    let _socket = open_socket(fd, task, shared)?;
    if !may_set(level, option) {
        return Err(Refusal::Errno(Errno::Enoprotoopt));
    }
    if n < 4 {
        return Err(Refusal::Errno(Errno::Einval));
    }
    if !task.memory.is_open(Right::Read, at, counted(n)) {
        return Err(Refusal::Errno(Errno::Efault));
    }
    Ok(())
}

/// `setsockopt(2)`.
pub(crate) fn setsockopt(
    fd: u32,
    level: u32,
    option: u32,
    at: u32,
    n: u32,
    task: &Task,
    shared: &Shared,
) -> Result<u32, CallError>
    ensures { Does (spec.setsockopt fd level option at n (task.now, shared.now)) (task.now, shared.now) (task.now, shared.now) result }
{
    setsockopt_asked(fd, level, option, at, n, task, shared)?;
    Ok(0)
}

/// Whether SO_ERROR (1, 4) is asked for, or SO_TYPE (1, 3).
fn is_error(level: u32, option: u32) -> Result<bool, Refusal>
    ensures { result ≡ spec.is_error level option }
{
    if level == 1 && option == 4 {
        Ok(true)
    } else if level == 1 && option == 3 {
        Ok(false)
    } else {
        Err(Refusal::Errno(Errno::Enoprotoopt))
    }
}

fn option_place(at: u32, size_at: u32, memory: &Mem) -> Result<(), Refusal>
    ensures { result ≡ spec.option_place at size_at memory.now }
{
    let size = word_at(memory, size_at)?;
    if !memory.is_open(Right::Write, size_at, 4) {
        return Err(Refusal::Errno(Errno::Efault));
    }
    if !memory.is_open(Right::Write, at, size.min(4) as usize) {
        return Err(Refusal::Errno(Errno::Efault));
    }
    if size < 4 {
        return Err(Refusal::Errno(Errno::Einval));
    }
    Ok(())
}

/// What is asked for of which socket, once nothing refuses it.
#[derive(Clone, Copy)]
pub struct Asked {
    pub number: SocketNumber,
    pub error: bool,
}

/// What refuses a `getsockopt(2)`, or what is asked for.
pub fn getsockopt_asked(
    fd: u32,
    level: u32,
    option: u32,
    at: u32,
    size_at: u32,
    task: &Task,
    shared: &Shared,
) -> Result<Asked, Refusal>
    ensures { result ≡ spec.getsockopt_asked fd level option at size_at (task.now, shared.now) }
{
    let socket = open_socket(fd, task, shared)?;
    let error = is_error(level, option)?;
    option_place(at, size_at, &task.memory)?;
    Ok(Asked {
        number: socket.number,
        error,
    })
}

/// Tells the value of an option, and its size.
pub fn tell_option(at: u32, size_at: u32, value: u32, memory: &mut Mem)
    ensures { memory.new ≡ spec.with_option at size_at value memory.old }
{
    fill(memory, at, &value.to_le_bytes());
    fill(memory, size_at, &4u32.to_le_bytes());
}

/// The value of SO_TYPE.
pub fn type_of(number: SocketNumber) -> u32
    ensures { result ≡ spec.type_of number }
{
    match number {
        SocketNumber::Udp(_) => 2,
        SocketNumber::Tcp(_) => 1,
    }
}

/// The value of SO_ERROR.
pub fn number_of(error: Option<Errno>) -> u32
    ensures { result ≡ spec.number_of error }
{
    match error {
        Some(errno) => errno.number(),
        None => 0,
    }
}
