//! Which socket is to be made.

ghost use Rattle.std.specs.Prelude.{◌≡◌, ◌<◌, None, IfOk};
ghost use Rattle.std.specs.FinMap as map;
ghost use Rattle.host_fds.specs.Descriptors.{limit};
ghost use Rattle.call_parts.specs.Sockets as spec;

use crate::sockets::AF_INET;
use file_calls::{Task, beside_open, lowest_free};
use host_wants::Refusal;
use sim_base::Errno;

const SOCK_STREAM: u32 = 1;

const SOCK_DGRAM: u32 = 2;

const IPPROTO_TCP: u32 = 6;

const IPPROTO_UDP: u32 = 17;

/// A socket that is to be made, and the descriptor that it gets.
#[derive(Clone, Copy)]
pub struct NewSocket {
    /// Whether it is one of TCP.
    pub stream: bool,
    pub fd: u32,
}

fn is_stream(kind: u32) -> Result<bool, Refusal>
    ensures { result ≡ spec.is_stream kind }
{
    match kind {
        SOCK_STREAM => Ok(true),
        SOCK_DGRAM => Ok(false),
        _ => Err(Refusal::Errno(Errno::Einval)),
    }
}

fn protocol_of(stream: bool) -> u32
    ensures { result ≡ spec.protocol_of stream }
{
    if stream { IPPROTO_TCP } else { IPPROTO_UDP }
}

/// What refuses a `socket(2)`, or which socket it makes.
pub fn socket_asked(
    family: u32,
    kind: u32,
    protocol: u32,
    task: &Task,
) -> Result<NewSocket, Refusal>
    ensures asked { result ≡ spec.socket_asked family kind protocol task.now }
    ensures in_range { IfOk result (λ new. new.fd < limit) }
    ensures is_free { IfOk result (λ new. map.get task.now.table new.fd ≡ None) }
{
    if family != AF_INET {
        return Err(Refusal::Errno(Errno::Eafnosupport));
    }
    let stream = is_stream(beside_open(kind))?;
    if protocol != 0 && protocol != protocol_of(stream) {
        return Err(Refusal::Errno(Errno::Eprotonosupport));
    }
    match lowest_free(&task.table) {
        Some(fd) => Ok(NewSocket { stream, fd }),
        None => Err(Refusal::Errno(Errno::Emfile)),
    }
}
