//! socket, bind and listen.

ghost use Rattle.std.specs.Prelude.{◌≡◌, IfOk};
ghost use Rattle.host_sockets.specs.Sockets.{SocketsRecord};
ghost use Rattle.host_sockets.specs.StandsFor.{Stand, Becomes};
ghost use Rattle.host_calls.specs.Sockets as spec;
ghost use Rattle.host_calls.specs.inside.Sockets as inside;
ghost use Rattle.host_calls.specs.inside.Stage.{Reacts};

use crate::parts::Reaction;
use crate::stage::Stage;
use call_parts::{
    SocketNumber, address_bytes, inet_address, open_socket, socket_asked, tcp_number,
};
use file_calls::{O_NONBLOCK, has, open};
use guest_mem::Mem;
use host_files::{File, Object};
use host_sockets::Sockets;
use host_wants::{CallError, Refusal};
use sim_base::{Addr, Book, Errno, NoMemory};

fn is_bound(number: SocketNumber, sockets: &Sockets) -> bool
    ensures { (t : SocketsRecord) → Stand sockets.now t → result ≡ spec.is_bound number t }
{
    match number {
        SocketNumber::Udp(place) => sockets.bound_udp(place),
        SocketNumber::Tcp(place) => sockets.bound_tcp(place),
    }
}

fn bind_asked(
    number: SocketNumber,
    at: u32,
    size: u32,
    memory: &Mem,
    sockets: &Sockets,
) -> Result<Addr, Refusal>
    ensures { (t : SocketsRecord) → Stand sockets.now t → result ≡ spec.bind_asked number at size memory.now t }
{
    let bytes = address_bytes(memory, at, size)?;
    if is_bound(number, sockets) {
        return Err(Refusal::Errno(Errno::Einval));
    }
    inet_address(bytes)
}

fn bind_at(
    hosts: &Book,
    number: SocketNumber,
    at: Addr,
    sockets: &mut Sockets,
) -> Result<(), CallError>
    ensures { (t : SocketsRecord) → Stand sockets.old t → Becomes (spec.binds hosts.now number at t) t sockets.new result }
{
    match number {
        SocketNumber::Udp(place) => sockets.bind_udp(hosts, place, at),
        SocketNumber::Tcp(place) => sockets.bind_tcp(place, at),
    }
}

/// Makes a socket, of TCP or of UDP.
fn new_object(stream: bool, sockets: &mut Sockets) -> Result<Object, NoMemory>
    ensures { IfOk result (λ object. (t : SocketsRecord) → Stand sockets.old t → inside.Makes (inside.new_object stream t) object sockets.new) }
{
    if stream {
        let place = sockets.new_tcp()?;
        Ok(Object::Tcp(place))
    } else {
        let place = sockets.new_udp()?;
        Ok(Object::Udp(place))
    }
}

impl Stage<'_> {
    /// `socket(2)`.
    pub(crate) fn socket(
        &mut self,
        family: u32,
        kind: u32,
        protocol: u32,
    ) -> Result<Reaction, CallError>
        ensures { Reacts (spec.socket family kind protocol) self.old self.new result }
    {
        let new = socket_asked(family, kind, protocol, self.task)?;
        let object = new_object(new.stream, self.sockets)?;
        let file = File {
            nonblocking: has(O_NONBLOCK, kind),
            object,
        };
        open(new.fd, file, self.task, self.shared)?;
        Ok(Reaction::Value(new.fd))
    }

    /// `bind(2)`.
    pub(crate) fn bind(&mut self, fd: u32, at: u32, size: u32) -> Result<Reaction, CallError>
        ensures { Reacts (spec.bind self.old.known.now.book fd at size) self.old self.new result }
    {
        let socket = open_socket(fd, self.task, self.shared)?;
        let to = bind_asked(socket.number, at, size, &self.task.memory, self.sockets)?;
        bind_at(&self.known.book, socket.number, to, self.sockets)?;
        Ok(Reaction::Value(0))
    }

    /// `listen(2)`.
    pub(crate) fn listen(&mut self, fd: u32, backlog: u32) -> Result<Reaction, CallError>
        ensures { Reacts (spec.listen fd backlog) self.old self.new result }
    {
        let socket = open_socket(fd, self.task, self.shared)?;
        let place = tcp_number(socket.number)?;
        self.sockets.listen_tcp(place, backlog.cast_signed())?;
        Ok(Reaction::Value(0))
    }
}
