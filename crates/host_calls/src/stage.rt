//! What a call acts on, and what one sees that is asked what it would do.

ghost use Rattle.std.specs.Prelude.{◌≡◌};
ghost use Rattle.host_calls.specs.inside.Stage.{view_on};

use file_calls::{Known, Shared, Task};
use host_sockets::Sockets;
use sim_base::Time;

/// What a call acts on: what its host knows, the time, the process that makes it, by its number, what the processes of the host
/// share, and the host's sockets.
#[derive(Drop)]
pub struct Stage<'a> {
    pub known: &'a Known,
    pub time: Time,
    pub process: u32,
    pub task: &'a mut Task,
    pub shared: &'a mut Shared,
    pub sockets: &'a mut Sockets,
}

/// What a call sees that is asked what it would do: it changes nothing.
#[derive(Clone, Copy)]
pub struct View<'a> {
    pub known: &'a Known,
    pub time: Time,
    pub task: &'a Task,
    pub shared: &'a Shared,
    pub sockets: &'a Sockets,
}

impl Stage<'_> {
    /// What is seen on it.
    pub(crate) fn view(&self) -> View<'_>
        ensures { result ≡ view_on self.now }
    {
        View {
            known: self.known,
            time: self.time,
            task: self.task,
            shared: self.shared,
            sockets: self.sockets,
        }
    }
}
