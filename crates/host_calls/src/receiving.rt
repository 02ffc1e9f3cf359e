//! recvfrom, and read on a socket.

ghost use Rattle.std.specs.Prelude.{◌≡◌, ◌≤◌};
ghost use Rattle.host_sockets.specs.Moving.{size_of};
ghost use Rattle.host_sockets.specs.Names.{tcp_peer};
ghost use Rattle.host_sockets.specs.Sockets.{SocketsRecord};
ghost use Rattle.host_sockets.specs.StandsFor.{Stand};
ghost use Rattle.guest_args.specs.Span.{most};
ghost use Rattle.host_calls.specs.declared.plan.Plan.TheVariants as plan;
ghost use Rattle.host_calls.specs.Sockets as spec;
ghost use Rattle.host_calls.specs.inside.Stage.{Reacts, SeesPlan, CanDo};

use crate::parts::Reaction;
use crate::plan::Plan;
use crate::stage::{Stage, View};
use call_parts::{OpenSocket, Room, SocketNumber, is_quick, open_socket, recv_place, refuse_flags};
use file_calls::{kept_answers, negative, or_again};
use guest_args::{AddressPlace, answer, counted, fill};
use guest_mem::Mem;
use host_sockets::{Reply, Sockets};
use host_wants::{CallError, Refusal};
use sim_base::Bytes;

/// What is received, and where it goes: at most so many bytes to an address, and the sender's
/// address to its own place.
#[derive(Clone, Copy)]
pub struct RecvPlan {
    pub number: SocketNumber,
    pub at: u32,
    pub n: u32,
    pub from: Option<AddressPlace>,
}

fn recv_ready(number: SocketNumber, sockets: &Sockets) -> Result<(), Refusal>
    ensures { (t : SocketsRecord) → Stand sockets.now t → result ≡ spec.recv_ready number t }
{
    match number {
        SocketNumber::Udp(place) => sockets.recv_udp_asked(place),
        SocketNumber::Tcp(place) => kept_answers(sockets.recv_asked(place)),
    }
}

impl View<'_> {
    /// What refuses a receive, and whether it waits.
    pub(crate) fn recv_plan(
        &self,
        socket: OpenSocket,
        flags: u32,
        room: Room,
    ) -> Result<Plan, Refusal>
        ensures asked { SeesPlan plan.Receive (λ s. spec.recv_plan socket flags room s.task.memory s.sockets) self.now result }
        ensures fits { CanDo result self.now }
    {
        refuse_flags(flags)?;
        let from = recv_place(room, &self.task.memory)?;
        let quick = is_quick(socket.nonblocking, flags);
        or_again(quick, recv_ready(socket.number, self.sockets))?;
        Ok(Plan::Receive(RecvPlan {
            number: socket.number,
            at: room.at,
            n: room.n,
            from,
        }))
    }

    /// What refuses a `recvfrom(2)`, and whether it waits.
    pub(crate) fn recvfrom_plan(&self, fd: u32, flags: u32, room: Room) -> Result<Plan, Refusal>
        ensures asked { SeesPlan plan.Receive (spec.recvfrom_plan fd flags room) self.now result }
        ensures fits { CanDo result self.now }
    {
        let socket = open_socket(fd, self.task, self.shared)?;
        self.recv_plan(socket, flags, room)
    }
}

/// Writes the address of a TCP socket's peer where it is wanted.
fn tell_peer(place: usize, to: Option<AddressPlace>, memory: &mut Mem, sockets: &Sockets)
    ensures { (t : SocketsRecord) → Stand sockets.now t → memory.new ≡ spec.with_peer to (tcp_peer place t) memory.old }
{
    match sockets.tcp_peer(place) {
        Ok(peer) => answer(memory, to, peer),
        Err(_) => {}
    }
}

fn received(
    place: usize,
    at: u32,
    to: Option<AddressPlace>,
    reply: Reply<Bytes>,
    memory: &mut Mem,
    sockets: &Sockets,
) -> u32
    requires { size_of reply ≤ most }
    ensures count { result ≡ spec.received_count reply }
    ensures told { (t : SocketsRecord) → Stand sockets.now t → memory.new ≡ spec.with_received place at to reply t memory.old }
{
    match reply {
        Reply::Done(bytes) => {
            fill(memory, at, bytes.as_slice());
            tell_peer(place, to, memory, sockets);
            bytes.len() as u32
        }
        Reply::Failed(errno) => negative(errno),
    }
}

impl Stage<'_> {
    fn recv_udp(&mut self, place: usize, plan: RecvPlan) -> Result<Reaction, CallError>
        ensures { Reacts (spec.recv_udp place plan.at plan.n plan.from) self.old self.new result }
    {
        let datagram = self.sockets.recv_udp(place, counted(plan.n))?;
        fill(&mut self.task.memory, plan.at, datagram.bytes.as_slice());
        answer(&mut self.task.memory, plan.from, datagram.from);
        Ok(Reaction::Value(datagram.bytes.len() as u32))
    }

    fn recv_tcp(&mut self, place: usize, plan: RecvPlan) -> Result<Reaction, CallError>
        ensures { Reacts (spec.recv_tcp self.old.time place plan.at plan.n plan.from) self.old self.new result }
    {
        let RecvPlan { at, n, from, .. } = plan;
        let reply = self
            .sockets
            .recv_tcp(&mut self.shared.outlet, self.time, place, counted(n))?;
        let count = received(place, at, from, reply, &mut self.task.memory, self.sockets);
        Ok(Reaction::Value(count))
    }

    /// Receives on a socket (`recv(2)`).
    pub(crate) fn recv(&mut self, plan: RecvPlan) -> Result<Reaction, CallError>
        ensures { Reacts (spec.receives self.old.time plan) self.old self.new result }
    {
        match plan.number {
            SocketNumber::Udp(place) => self.recv_udp(place, plan),
            SocketNumber::Tcp(place) => self.recv_tcp(place, plan),
        }
    }
}
