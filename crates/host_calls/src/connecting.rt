//! connect.

ghost use Rattle.std.specs.Prelude.{◌≡◌};
ghost use Rattle.host_calls.specs.declared.plan.Plan.TheVariants as plan;
ghost use Rattle.host_calls.specs.Sockets as spec;
ghost use Rattle.host_calls.specs.inside.Stage.{Acts, Sees, SeesPlan, CanDo};

use crate::parts::Reaction;
use crate::plan::Plan;
use crate::stage::{Stage, View};
use call_parts::{OpenSocket, SocketNumber, address, open_socket};
use file_calls::{kept_answers, negative};
use host_sockets::Reply;
use host_wants::{CallError, Refusal};
use sim_base::Errno;

/// What a connect answers that has sent its SYN, or met a kept error.
fn connecting(nonblocking: bool, reply: Reply<()>) -> Reaction
    ensures { result ≡ spec.connecting nonblocking reply }
{
    match reply {
        Reply::Done(()) => {
            if nonblocking {
                Reaction::Value(negative(Errno::Einprogress))
            } else {
                Reaction::Waits
            }
        }
        Reply::Failed(errno) => Reaction::Value(negative(errno)),
    }
}

fn connected(reply: Reply<()>) -> Reaction
    ensures { result ≡ spec.connected reply }
{
    match reply {
        Reply::Done(()) => Reaction::Value(0),
        Reply::Failed(errno) => Reaction::Value(negative(errno)),
    }
}

/// A socket, and the address that it is connected to.
#[derive(Clone, Copy)]
pub struct ConnectPlan {
    pub socket: OpenSocket,
    pub at: u32,
    pub size: u32,
}

impl Stage<'_> {
    fn connect_tcp(&mut self, place: usize, plan: ConnectPlan) -> Result<Reaction, CallError>
        ensures { Acts (spec.connect_tcp self.old.known.now.book self.old.time plan.socket.nonblocking place plan.at plan.size) self.old self.new result }
    {
        let hosts = &self.known.book;
        let to = address(&self.task.memory, plan.at, plan.size)?;
        let reply = self
            .sockets
            .connect_tcp(hosts, &mut self.shared.outlet, self.time, place, to)?;
        Ok(connecting(plan.socket.nonblocking, reply))
    }

    fn connect_udp(&mut self, place: usize, plan: ConnectPlan) -> Result<Reaction, CallError>
        ensures { Acts (spec.connect_udp self.old.known.now.book place plan.at plan.size) self.old self.new result }
    {
        let to = address(&self.task.memory, plan.at, plan.size)?;
        self.sockets.connect_udp(&self.known.book, place, to)?;
        Ok(Reaction::Value(0))
    }

    /// A connect that waited is called again.
    fn connect_again(&mut self, place: usize) -> Result<Reaction, CallError>
        ensures { Acts (spec.connect_again self.old.time place) self.old self.new result }
    {
        let reply = self
            .sockets
            .connect_answer(&mut self.shared.outlet, self.time, place)?;
        Ok(connected(reply))
    }

    /// `connect(2)`.
    pub(crate) fn connect(&mut self, plan: ConnectPlan) -> Result<Reaction, CallError>
        ensures { Acts (spec.connects self.old.known.now.book self.old.time plan) self.old self.new result }
    {
        match plan.socket.number {
            SocketNumber::Udp(place) => self.connect_udp(place, plan),
            SocketNumber::Tcp(place) => {
                if self.task.kept.is_some() {
                    self.connect_again(place)
                } else {
                    self.connect_tcp(place, plan)
                }
            }
        }
    }
}

impl View<'_> {
    /// One that has sent its SYN waits while its connection is sought.
    fn connect_ready(&self, number: SocketNumber) -> Result<(), Refusal>
        ensures { Sees (spec.connect_ready number) self.now result }
    {
        match number {
            SocketNumber::Udp(_) => Ok(()),
            SocketNumber::Tcp(place) => {
                if self.task.kept.is_some() {
                    kept_answers(self.sockets.connect_waited(place))
                } else {
                    Ok(())
                }
            }
        }
    }

    /// What a connect waits for that has sent its SYN.
    pub(crate) fn connect_plan(&self, fd: u32, at: u32, size: u32) -> Result<Plan, Refusal>
        ensures asked { SeesPlan plan.Connect (spec.connect_plan fd at size) self.now result }
        ensures fits { CanDo result self.now }
    {
        let socket = open_socket(fd, self.task, self.shared)?;
        self.connect_ready(socket.number)?;
        Ok(Plan::Connect(ConnectPlan { socket, at, size }))
    }
}
