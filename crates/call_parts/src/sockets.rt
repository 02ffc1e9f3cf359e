//! Sockets by their descriptors, and addresses in a guest's memory.

ghost use Rattle.std.specs.Prelude.{◌≡◌};
ghost use Rattle.call_parts.specs.Sockets as spec;

use file_calls::{Shared, Task, look_up};
use guest_args::{AddressPlace, address_span, family_of, four, sixteen, sockaddr_of, wanted_place};
use guest_mem::{Mem, Right};
use host_files::Object;
use host_wants::Refusal;
use sim_base::{Addr, Errno};

/// A socket by its number.
#[derive(Clone, Copy)]
pub enum SocketNumber {
    Udp(usize),
    Tcp(usize),
}

/// The socket that a descriptor names.
#[derive(Clone, Copy)]
pub struct OpenSocket {
    /// Whether calls that would wait answer EAGAIN.
    pub nonblocking: bool,
    pub number: SocketNumber,
}

/// The socket that an object is.
pub fn socket_number(object: Object) -> Result<SocketNumber, Refusal>
    ensures { result ≡ spec.socket_number object }
{
    match object {
        Object::Udp(place) => Ok(SocketNumber::Udp(place)),
        Object::Tcp(place) => Ok(SocketNumber::Tcp(place)),
        Object::Input => Err(Refusal::Errno(Errno::Enotsock)),
        Object::Output => Err(Refusal::Errno(Errno::Enotsock)),
        Object::Errors => Err(Refusal::Errno(Errno::Enotsock)),
        Object::Hosts(_) => Err(Refusal::Errno(Errno::Enotsock)),
        Object::ReadEnd(_) => Err(Refusal::Errno(Errno::Enotsock)),
        Object::WriteEnd(_) => Err(Refusal::Errno(Errno::Enotsock)),
        Object::Timer(_) => Err(Refusal::Errno(Errno::Enotsock)),
        Object::Eventfd(_) => Err(Refusal::Errno(Errno::Enotsock)),
        Object::Epoll(_) => Err(Refusal::Errno(Errno::Enotsock)),
    }
}

/// The socket that a descriptor names.
pub fn open_socket(fd: u32, task: &Task, shared: &Shared) -> Result<OpenSocket, Refusal>
    ensures { result ≡ spec.open_socket fd (task.now, shared.now) }
{
    let d = look_up(fd, task, &shared.files)?;
    let number = socket_number(d.file.object)?;
    Ok(OpenSocket {
        nonblocking: d.file.nonblocking,
        number,
    })
}

/// The number of a TCP socket: another one will not do.
pub fn tcp_number(number: SocketNumber) -> Result<usize, Refusal>
    ensures { result ≡ spec.tcp_number number }
{
    match number {
        SocketNumber::Tcp(place) => Ok(place),
        SocketNumber::Udp(_) => Err(Refusal::Errno(Errno::Eopnotsupp)),
    }
}

/// How long an address is.
const ADDRESS_SIZE: u32 = 16;

/// AF_INET.
pub const AF_INET: u32 = 2;

/// The bytes of an address that is handed in.
pub fn address_bytes(memory: &Mem, at: u32, size: u32) -> Result<[u8; 16], Refusal>
    ensures { result ≡ spec.address_bytes at size memory.now }
{
    if !memory.is_open(Right::Read, at, address_span(size)) {
        return Err(Refusal::Errno(Errno::Efault));
    }
    if size < ADDRESS_SIZE {
        return Err(Refusal::Errno(Errno::Einval));
    }
    match sixteen(memory, at) {
        Some(bytes) => Ok(bytes),
        None => Err(Refusal::Errno(Errno::Efault)),
    }
}

/// The address in its bytes, whose family must be AF_INET.
pub fn inet_address(bytes: [u8; 16]) -> Result<Addr, Refusal>
    ensures { result ≡ spec.inet_address bytes }
{
    if u32::from(family_of(bytes)) != AF_INET {
        return Err(Refusal::Errno(Errno::Eafnosupport));
    }
    Ok(sockaddr_of(bytes))
}

/// The address that is handed in.
pub fn address(memory: &Mem, at: u32, size: u32) -> Result<Addr, Refusal>
    ensures { result ≡ spec.address at size memory.now }
{
    let bytes = address_bytes(memory, at, size)?;
    inet_address(bytes)
}

/// The address that is handed in where its pointer isn't null.
pub fn given_address(memory: &Mem, at: u32, size: u32) -> Result<Option<Addr>, Refusal>
    ensures { result ≡ spec.given_address at size memory.now }
{
    if at == 0 {
        return Ok(None);
    }
    let to = address(memory, at, size)?;
    Ok(Some(to))
}

/// Where an address goes that a call answers.
pub fn result_address(memory: &Mem, at: u32, size_at: u32) -> Result<Option<AddressPlace>, Refusal>
    ensures { result ≡ spec.result_address at size_at memory.now }
{
    match wanted_place(memory, at, size_at) {
        Some(place) => Ok(place),
        None => Err(Refusal::Errno(Errno::Efault)),
    }
}

/// The number in the 4 bytes from an address on.
pub fn word_at(memory: &Mem, at: u32) -> Result<u32, Refusal>
    ensures { result ≡ spec.word_at at memory.now }
{
    match four(memory, at) {
        Some(bytes) => Ok(u32::from_le_bytes(bytes)),
        None => Err(Refusal::Errno(Errno::Efault)),
    }
}
