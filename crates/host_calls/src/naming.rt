//! getsockname, getpeername and shutdown.

ghost use Rattle.std.specs.Prelude.{◌≡◌};
ghost use Rattle.host_sockets.specs.Sockets.{SocketsRecord};
ghost use Rattle.host_sockets.specs.StandsFor.{Stand};
ghost use Rattle.host_calls.specs.Sockets as spec;
ghost use Rattle.host_calls.specs.inside.Stage.{Reacts};

use crate::parts::Reaction;
use crate::stage::Stage;
use call_parts::{SocketNumber, open_socket, result_address};
use guest_args::answer;
use host_sockets::Sockets;
use host_wants::{CallError, Refusal};
use sim_base::{Addr, Errno};
use sock_tcp::Shut;

fn name_of(number: SocketNumber, sockets: &Sockets) -> Result<Addr, Refusal>
    ensures { (t : SocketsRecord) → Stand sockets.now t → result ≡ spec.name_of number t }
{
    match number {
        SocketNumber::Udp(place) => sockets.udp_name(place),
        SocketNumber::Tcp(place) => sockets.tcp_name(place),
    }
}

fn peer_of(number: SocketNumber, sockets: &Sockets) -> Result<Addr, Refusal>
    ensures { (t : SocketsRecord) → Stand sockets.now t → result ≡ spec.peer_of number t }
{
    match number {
        SocketNumber::Udp(place) => sockets.udp_peer(place),
        SocketNumber::Tcp(place) => sockets.tcp_peer(place),
    }
}

const SHUT_RD: u32 = 0;

const SHUT_WR: u32 = 1;

const SHUT_RDWR: u32 = 2;

fn shut_of(how: u32) -> Result<Shut, Refusal>
    ensures { result ≡ spec.shut_of how }
{
    match how {
        SHUT_RD => Ok(Shut::Reading),
        SHUT_WR => Ok(Shut::Writing),
        SHUT_RDWR => Ok(Shut::Both),
        _ => Err(Refusal::Errno(Errno::Einval)),
    }
}

impl Stage<'_> {
    /// `getsockname(2)`.
    pub(crate) fn getsockname(
        &mut self,
        fd: u32,
        at: u32,
        size_at: u32,
    ) -> Result<Reaction, CallError>
        ensures { Reacts (spec.getsockname fd at size_at) self.old self.new result }
    {
        let socket = open_socket(fd, self.task, self.shared)?;
        let name = name_of(socket.number, self.sockets)?;
        let place = result_address(&self.task.memory, at, size_at)?;
        answer(&mut self.task.memory, place, name);
        Ok(Reaction::Value(0))
    }

    /// `getpeername(2)`.
    pub(crate) fn getpeername(
        &mut self,
        fd: u32,
        at: u32,
        size_at: u32,
    ) -> Result<Reaction, CallError>
        ensures { Reacts (spec.getpeername fd at size_at) self.old self.new result }
    {
        let socket = open_socket(fd, self.task, self.shared)?;
        let peer = peer_of(socket.number, self.sockets)?;
        let place = result_address(&self.task.memory, at, size_at)?;
        answer(&mut self.task.memory, place, peer);
        Ok(Reaction::Value(0))
    }

    fn shut(&mut self, how: Shut, number: SocketNumber) -> Result<Reaction, CallError>
        ensures { Reacts (spec.shuts self.old.time how number) self.old self.new result }
    {
        match number {
            SocketNumber::Udp(_) => Err(CallError::Refused(Refusal::Errno(Errno::Enotconn))),
            SocketNumber::Tcp(place) => {
                self.sockets
                    .shut_tcp(&mut self.shared.outlet, self.time, place, how)?;
                Ok(Reaction::Value(0))
            }
        }
    }

    /// `shutdown(2)`.
    pub(crate) fn shutdown(&mut self, fd: u32, how: u32) -> Result<Reaction, CallError>
        ensures { Reacts (spec.shutdown self.old.time fd how) self.old self.new result }
    {
        let socket = open_socket(fd, self.task, self.shared)?;
        let direction = shut_of(how)?;
        self.shut(direction, socket.number)
    }
}
