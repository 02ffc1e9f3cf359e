//! What a call does that was asked what it would do.

ghost use Rattle.std.specs.Prelude.{◌≤◌};
ghost use Rattle.sim_base.specs.Units.{latest_time};
ghost use Rattle.host_calls.specs.Calls as spec;
ghost use Rattle.host_calls.specs.inside.Stage.{Acts};

use crate::parts::Reaction;
use crate::plan::Plan;
use crate::stage::Stage;
use file_calls::{reading, writing};
use host_wants::CallError;

impl Stage<'_> {
    /// Does what a call would do.
    pub(crate) fn act(&mut self, plan: Plan) -> Result<Reaction, CallError>
        requires time { self.old.time.nanos ≤ latest_time }
        requires fits { spec.Fits plan self.old.task.now }
        ensures { Acts (spec.done self.old.known.now self.old.time self.old.process plan) self.old self.new result }
    {
        match plan {
            Plan::Read(transfer) => {
                let hosts = self.known.hosts.as_slice();
                let value = reading::read(hosts, self.time, transfer, self.task, self.shared)?;
                Ok(Reaction::Value(value))
            }
            Plan::Write(transfer) => {
                let value = writing::write(self.process, transfer, self.task, self.shared)?;
                Ok(Reaction::Value(value))
            }
            Plan::Accept(accepting) => self.accept(accepting),
            Plan::Connect(connecting) => self.connect(connecting),
            Plan::Send(sending) => self.send(sending),
            Plan::Receive(receiving) => self.recv(receiving),
            Plan::Sleep => Ok(Reaction::Value(0)),
            Plan::Poll(polling) => self.ppoll(polling),
            Plan::EpollWait(waiting) => self.epoll_wait(waiting),
        }
    }
}
