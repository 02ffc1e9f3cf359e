//! Flags.

ghost use Rattle.std.specs.Prelude.{◌≡◌};
ghost use Rattle.file_calls.specs.Flags as spec;

use sim_base::{POLLERR, POLLHUP, POLLIN, POLLOUT, POLLRDHUP};

/// O_NONBLOCK, also as SOCK_NONBLOCK and TFD_NONBLOCK.
pub const O_NONBLOCK: u32 = 0x800;

/// O_CLOEXEC, which has no effect.
const O_CLOEXEC: u32 = 0x80000;

/// EFD_SEMAPHORE.
pub(crate) const EFD_SEMAPHORE: u32 = 1;

/// EPOLLONESHOT.
const EPOLLONESHOT: u32 = 0x40000000;

/// EPOLLET.
const EPOLLET: u32 = 0x80000000;

/// MSG_DONTWAIT.
pub const MSG_DONTWAIT: u32 = 0x40;

/// MSG_NOSIGNAL.
pub const MSG_NOSIGNAL: u32 = 0x4000;

/// The bits beside O_NONBLOCK and O_CLOEXEC.
const BESIDE_OPEN: u32 = !(O_NONBLOCK | O_CLOEXEC);

/// The bits beside EFD_SEMAPHORE, O_NONBLOCK and O_CLOEXEC.
const BESIDE_EVENTFD: u32 = !(EFD_SEMAPHORE | O_NONBLOCK | O_CLOEXEC);

/// The bits beside O_CLOEXEC.
const BESIDE_CLOEXEC: u32 = !O_CLOEXEC;

/// The bits beside those that an epoll may be asked for.
const BESIDE_EPOLL: u32 = !((POLLIN | POLLOUT | POLLERR | POLLHUP | POLLRDHUP) as u32
    | EPOLLONESHOT
    | EPOLLET);

/// The bits beside MSG_DONTWAIT and MSG_NOSIGNAL.
const BESIDE_MESSAGE: u32 = !(MSG_DONTWAIT | MSG_NOSIGNAL);

/// Whether a flag is among some.
pub fn has(flag: u32, flags: u32) -> bool
    ensures { result ≡ spec.has flag flags }
{
    flags & flag != 0
}

/// The flags beside O_NONBLOCK and O_CLOEXEC.
pub fn beside_open(flags: u32) -> u32
    ensures { result ≡ spec.beside_open flags }
{
    flags & BESIDE_OPEN
}

/// The flags beside EFD_SEMAPHORE, O_NONBLOCK and O_CLOEXEC.
pub(crate) fn beside_eventfd(flags: u32) -> u32
    ensures { result ≡ spec.beside_eventfd flags }
{
    flags & BESIDE_EVENTFD
}

/// The flags beside O_CLOEXEC.
pub(crate) fn beside_cloexec(flags: u32) -> u32
    ensures { result ≡ spec.beside_cloexec flags }
{
    flags & BESIDE_CLOEXEC
}

/// The events beside those that an epoll may be asked for.
pub(crate) fn beside_epoll(events: u32) -> u32
    ensures { result ≡ spec.beside_epoll events }
{
    events & BESIDE_EPOLL
}

/// The flags beside MSG_DONTWAIT and MSG_NOSIGNAL.
pub fn beside_message(flags: u32) -> u32
    ensures { result ≡ spec.beside_message flags }
{
    flags & BESIDE_MESSAGE
}
