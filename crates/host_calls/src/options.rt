//! getsockopt.

ghost use Rattle.host_calls.specs.Sockets as spec;
ghost use Rattle.host_calls.specs.inside.Stage.{Reacts};

use crate::parts::Reaction;
use crate::stage::Stage;
use call_parts::{SocketNumber, getsockopt_asked, number_of, tell_option, type_of};
use host_wants::CallError;

impl Stage<'_> {
    fn tell_error(
        &mut self,
        number: SocketNumber,
        at: u32,
        size_at: u32,
    ) -> Result<Reaction, CallError>
        ensures { Reacts (spec.told_error self.old.time number at size_at) self.old self.new result }
    {
        match number {
            SocketNumber::Udp(_) => {
                tell_option(at, size_at, 0, &mut self.task.memory);
                Ok(Reaction::Value(0))
            }
            SocketNumber::Tcp(place) => {
                let error = self
                    .sockets
                    .take_error(&mut self.shared.outlet, self.time, place)?;
                tell_option(at, size_at, number_of(error), &mut self.task.memory);
                Ok(Reaction::Value(0))
            }
        }
    }

    /// `getsockopt(2)`.
    pub(crate) fn getsockopt(
        &mut self,
        fd: u32,
        level: u32,
        option: u32,
        at: u32,
        size_at: u32,
    ) -> Result<Reaction, CallError>
        ensures { Reacts (spec.getsockopt self.old.time fd level option at size_at) self.old self.new result }
    {
        let asked = getsockopt_asked(fd, level, option, at, size_at, self.task, self.shared)?;
        if asked.error {
            self.tell_error(asked.number, at, size_at)
        } else {
            tell_option(at, size_at, type_of(asked.number), &mut self.task.memory);
            Ok(Reaction::Value(0))
        }
    }
}
