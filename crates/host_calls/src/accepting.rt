//! accept.

ghost use Rattle.std.specs.Prelude.{◌≡◌, ◌<◌, None, IfOk};
ghost use Rattle.std.specs.FinMap as map;
ghost use Rattle.host_fds.specs.Descriptors.{limit};
ghost use Rattle.file_calls.specs.Descriptors.{IsFree};
ghost use Rattle.host_calls.specs.declared.plan.Plan.TheVariants as plan;
ghost use Rattle.host_calls.specs.Sockets as spec;
ghost use Rattle.host_calls.specs.inside.Stage.{Reacts, Sees, SeesPlan, CanDo};

use crate::parts::Reaction;
use crate::plan::Plan;
use crate::stage::{Stage, View};
use call_parts::{OpenSocket, open_socket, result_address, tcp_number};
use file_calls::{lowest_free, open, or_again};
use guest_args::{AddressPlace, answer};
use host_files::{File, Object};
use host_wants::{CallError, Refusal};
use sim_base::Errno;

/// The descriptor that an accepted connection gets, and where its peer's address goes.
#[derive(Clone, Copy)]
pub struct NewPlace {
    pub fd: u32,
    pub place: Option<AddressPlace>,
}

/// Which listener gives a connection, and what is done with it.
#[derive(Clone, Copy)]
pub struct AcceptPlan {
    pub listener: usize,
    pub new: NewPlace,
}

impl View<'_> {
    fn accept_place(&self, place: usize, at: u32, size_at: u32) -> Result<NewPlace, Refusal>
        ensures asked { Sees (λ s. spec.accept_place place at size_at s.task s.sockets) self.now result }
        ensures in_range { IfOk result (λ new. new.fd < limit) }
        ensures is_free { IfOk result (λ new. map.get self.now.task.now.table new.fd ≡ None) }
    {
        self.sockets.accept_asked(place)?;
        let place = result_address(&self.task.memory, at, size_at)?;
        match lowest_free(&self.task.table) {
            Some(fd) => Ok(NewPlace { fd, place }),
            None => Err(Refusal::Errno(Errno::Emfile)),
        }
    }

    fn accept_plan_of(&self, socket: OpenSocket, at: u32, size_at: u32) -> Result<Plan, Refusal>
        ensures asked { SeesPlan plan.Accept (λ s. spec.accept_plan_of socket at size_at s.task s.sockets) self.now result }
        ensures fits { CanDo result self.now }
    {
        let listener = tcp_number(socket.number)?;
        let new = self.accept_place(listener, at, size_at)?;
        or_again(socket.nonblocking, self.sockets.accept_ready(listener))?;
        Ok(Plan::Accept(AcceptPlan { listener, new }))
    }

    /// What refuses an accept, and whether it waits.
    pub(crate) fn accept_plan(&self, fd: u32, at: u32, size_at: u32) -> Result<Plan, Refusal>
        ensures asked { SeesPlan plan.Accept (spec.accept_plan fd at size_at) self.now result }
        ensures fits { CanDo result self.now }
    {
        let socket = open_socket(fd, self.task, self.shared)?;
        self.accept_plan_of(socket, at, size_at)
    }
}

impl Stage<'_> {
    /// `accept(2)`.
    pub(crate) fn accept(&mut self, accepting: AcceptPlan) -> Result<Reaction, CallError>
        requires { IsFree accepting.new.fd self.old.task.now.table }
        ensures { Reacts (spec.accepts accepting) self.old self.new result }
    {
        let new = accepting.new;
        let accepted = self.sockets.accept_tcp(accepting.listener)?;
        let file = File {
            nonblocking: false,
            object: Object::Tcp(accepted.socket),
        };
        open(new.fd, file, self.task, self.shared)?;
        answer(&mut self.task.memory, new.place, accepted.peer);
        Ok(Reaction::Value(new.fd))
    }
}
