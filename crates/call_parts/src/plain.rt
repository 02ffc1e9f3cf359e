//! The rows of the calls that need no sockets.

ghost use Rattle.std.specs.Prelude.{◌≤◌};
ghost use Rattle.sim_base.specs.Units.{latest_time};
ghost use Rattle.file_calls.specs.Scene.{Does};
ghost use Rattle.call_parts.specs.Plain as spec;

use crate::call::PlainCall;
use crate::options::setsockopt;
use file_calls::{
    Shared, Task, brk, clock_gettime, epoll_create, epoll_ctl, eventfd2, fcntl, getpid, getrandom,
    openat, pipe2, timerfd_create, timerfd_settime,
};
use host_wants::CallError;
use sim_base::Time;

/// The row of a call that needs no sockets.
pub fn plain_row(
    now: Time,
    process: u32,
    call: PlainCall,
    args: [u32; 6],
    task: &mut Task,
    shared: &mut Shared,
) -> Result<u32, CallError>
    requires { now.nanos ≤ latest_time }
    ensures { Does (spec.plain_row now process call args (task.old, shared.old)) (task.old, shared.old) (task.new, shared.new) result }
{
    match call {
        PlainCall::Eventfd2 => eventfd2(task, shared, args[0], args[1]),
        PlainCall::EpollCreate => epoll_create(task, shared, args[0]),
        PlainCall::EpollCtl => epoll_ctl(task, shared, args[0], args[1], args[2], args[3]),
        PlainCall::Fcntl => fcntl(task, shared, args[0], args[1], args[2]),
        PlainCall::Openat => openat(task, shared, args[1], args[2]),
        PlainCall::Pipe2 => pipe2(task, shared, args[0], args[1]),
        PlainCall::TimerfdCreate => timerfd_create(task, shared, args[0], args[1]),
        PlainCall::Getpid => Ok(getpid(process)),
        PlainCall::Setsockopt => setsockopt(
            args[0], args[1], args[2], args[3], args[4], task, shared,
        ),
        PlainCall::Brk => {
            let standing = brk(task, args[0])?;
            Ok(standing)
        }
        PlainCall::Getrandom => getrandom(task, shared, args[0], args[1], args[2]),
        PlainCall::ClockGettime => clock_gettime(task, shared, now, args[0], args[1]),
        PlainCall::TimerfdSettime => {
            timerfd_settime(task, shared, now, args[0], args[1], args[2], args[3])
        }
    }
}
