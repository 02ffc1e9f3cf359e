//! sendto, and write on a socket.

ghost use Rattle.std.specs.Prelude.{◌≡◌, ◌≤◌};
ghost use Rattle.host_sockets.specs.Moving.{count_of};
ghost use Rattle.guest_args.specs.Span.{most};
ghost use Rattle.host_calls.specs.declared.plan.Plan.TheVariants as plan;
ghost use Rattle.host_calls.specs.Sockets as spec;
ghost use Rattle.host_calls.specs.inside.Stage.{Reacts, SeesPlan, CanDo};

use crate::parts::Reaction;
use crate::plan::Plan;
use crate::stage::{Stage, View};
use call_parts::{
    Message, OpenSocket, SocketNumber, given_address, is_quick, open_socket, refuse_flags,
};
use file_calls::{MSG_NOSIGNAL, has, kept_answers, negative, or_again};
use guest_args::{block, counted};
use guest_mem::Right;
use host_sockets::Reply;
use host_wants::{CallError, Refusal};
use sim_base::{Addr, Errno};

/// What a UDP socket sends. What refuses it is tried as it is done.
#[derive(Clone, Copy)]
pub struct DatagramSend {
    pub place: usize,
    pub message: Message,
}

/// What a TCP socket sends: so many bytes from an address on.
#[derive(Clone, Copy)]
pub struct StreamSend {
    pub place: usize,
    pub quiet: bool,
    pub to: Option<Addr>,
    pub at: u32,
    pub n: u32,
}

/// What a socket sends.
#[derive(Clone, Copy)]
pub enum SendPlan {
    Datagram(DatagramSend),
    Stream(StreamSend),
}

fn value_of(reply: Reply<usize>) -> u32
    requires { count_of reply ≤ most }
    ensures { result ≡ spec.value_of reply }
{
    match reply {
        Reply::Done(count) => count as u32,
        Reply::Failed(errno) => negative(errno),
    }
}

impl Stage<'_> {
    fn send_udp(&mut self, datagram: DatagramSend) -> Result<Reaction, CallError>
        ensures { Reacts (spec.send_udp self.old.known.now.book datagram.place datagram.message) self.old self.new result }
    {
        let DatagramSend { place, message } = datagram;
        let given = message.to_at != 0;
        self.sockets.udp_fits(place, message.n as usize, given)?;
        let alloc = self.shared.files.allocator();
        let Some(bytes) = block(alloc, &self.task.memory, message.at, counted(message.n))? else {
            return Err(CallError::Refused(Refusal::Errno(Errno::Efault)));
        };
        let to = given_address(&self.task.memory, message.to_at, message.size)?;
        let packet = self
            .sockets
            .send_udp(&self.known.book, place, bytes.as_slice(), to)?;
        self.shared.outlet.send(packet)?;
        Ok(Reaction::Value(bytes.len() as u32))
    }

    fn send_tcp(&mut self, stream: StreamSend) -> Result<Reaction, CallError>
        ensures { Reacts (spec.send_tcp self.old.known.now.book self.old.time stream) self.old self.new result }
    {
        let StreamSend {
            place,
            quiet,
            to,
            at,
            n,
        } = stream;
        let hosts = &self.known.book;
        let now = self.time;
        let alloc = self.shared.files.allocator();
        let Some(bytes) = block(alloc, &self.task.memory, at, counted(n))? else {
            return Err(CallError::Refused(Refusal::Errno(Errno::Efault)));
        };
        let outlet = &mut self.shared.outlet;
        let sockets = &mut *self.sockets;
        let reply = sockets.send_tcp(hosts, outlet, now, place, bytes.as_slice(), to, quiet)?;
        Ok(Reaction::Value(value_of(reply)))
    }

    /// Sends on a socket (`send(2)`).
    pub(crate) fn send(&mut self, sending: SendPlan) -> Result<Reaction, CallError>
        ensures { Reacts (spec.sends_by self.old.known.now.book self.old.time sending) self.old self.new result }
    {
        match sending {
            SendPlan::Datagram(datagram) => self.send_udp(datagram),
            SendPlan::Stream(stream) => self.send_tcp(stream),
        }
    }
}

impl View<'_> {
    fn send_tcp_plan(
        &self,
        place: usize,
        nonblocking: bool,
        quiet: bool,
        message: Message,
    ) -> Result<Plan, Refusal>
        ensures asked { SeesPlan plan.Send (λ s. spec.send_tcp_plan self.now.known.now.book place nonblocking quiet message s.task.memory s.sockets) self.now result }
        ensures fits { CanDo result self.now }
    {
        let Message { at, n, to_at, size } = message;
        if !self.task.memory.is_open(Right::Read, at, counted(n)) {
            return Err(Refusal::Errno(Errno::Efault));
        }
        let to = given_address(&self.task.memory, to_at, size)?;
        let asked = self
            .sockets
            .send_asked(&self.known.book, place, counted(n), to, quiet);
        or_again(nonblocking, kept_answers(asked))?;
        let stream = StreamSend {
            place,
            quiet,
            to,
            at,
            n,
        };
        Ok(Plan::Send(SendPlan::Stream(stream)))
    }

    fn send_plan_of(
        &self,
        number: SocketNumber,
        nonblocking: bool,
        quiet: bool,
        message: Message,
    ) -> Result<Plan, Refusal>
        ensures asked { SeesPlan plan.Send (λ s. spec.send_plan_of self.now.known.now.book number nonblocking quiet message s.task.memory s.sockets) self.now result }
        ensures fits { CanDo result self.now }
    {
        match number {
            SocketNumber::Udp(place) => {
                let datagram = DatagramSend { place, message };
                Ok(Plan::Send(SendPlan::Datagram(datagram)))
            }
            SocketNumber::Tcp(place) => self.send_tcp_plan(place, nonblocking, quiet, message),
        }
    }

    /// What refuses a send, and whether it waits.
    pub(crate) fn send_plan(
        &self,
        socket: OpenSocket,
        flags: u32,
        message: Message,
    ) -> Result<Plan, Refusal>
        ensures asked { SeesPlan plan.Send (λ s. spec.send_plan self.now.known.now.book socket flags message s.task.memory s.sockets) self.now result }
        ensures fits { CanDo result self.now }
    {
        refuse_flags(flags)?;
        let quick = is_quick(socket.nonblocking, flags);
        let quiet = has(MSG_NOSIGNAL, flags);
        self.send_plan_of(socket.number, quick, quiet, message)
    }

    /// What refuses a `sendto(2)`, and whether it waits.
    pub(crate) fn sendto_plan(&self, fd: u32, flags: u32, message: Message) -> Result<Plan, Refusal>
        ensures asked { SeesPlan plan.Send (spec.sendto_plan self.now.known.now.book fd flags message) self.now result }
        ensures fits { CanDo result self.now }
    {
        let socket = open_socket(fd, self.task, self.shared)?;
        self.send_plan(socket, flags, message)
    }
}
