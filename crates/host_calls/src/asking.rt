//! What a call that may wait would do.

ghost use Rattle.std.specs.Prelude.{◌≤◌};
ghost use Rattle.sim_base.specs.Units.{latest_time};
ghost use Rattle.host_calls.specs.Calls as spec;
ghost use Rattle.host_calls.specs.inside.Stage.{Sees, CanDo};
ghost use Rattle.call_parts.specs.Sockets.{socket_number};

use crate::plan::Plan;
use crate::stage::View;
use call_parts::{Message, OpenSocket, Room, WaitingCall, socket_number};
use file_calls::{Descriptor, look_up, reading, sleep_asked, writing};
use host_wants::Refusal;

impl View<'_> {
    fn read_plan_of(&self, d: Descriptor, at: u32, n: u32) -> Result<Plan, Refusal>
        requires { self.now.time.nanos ≤ latest_time }
        ensures asked { Sees (spec.read_plan_of self.now.time d (socket_number d.file.object) at n) self.now result }
        ensures fits { CanDo result self.now }
    {
        match socket_number(d.file.object) {
            Ok(number) => {
                let socket = OpenSocket {
                    nonblocking: d.file.nonblocking,
                    number,
                };
                let room = Room {
                    at,
                    n,
                    from_at: 0,
                    size_at: 0,
                };
                self.recv_plan(socket, 0, room)
            }
            Err(_) => {
                let transfer = reading::read_plan(self.time, d, at, n, self.task, self.shared)?;
                Ok(Plan::Read(transfer))
            }
        }
    }

    fn read_plan(&self, fd: u32, at: u32, n: u32) -> Result<Plan, Refusal>
        requires { self.now.time.nanos ≤ latest_time }
        ensures asked { Sees (spec.read_plan self.now.time fd at n) self.now result }
        ensures fits { CanDo result self.now }
    {
        let d = look_up(fd, self.task, &self.shared.files)?;
        self.read_plan_of(d, at, n)
    }

    fn write_plan_of(&self, d: Descriptor, at: u32, n: u32) -> Result<Plan, Refusal>
        ensures asked { Sees (spec.write_plan_of self.now.known.now d (socket_number d.file.object) at n) self.now result }
        ensures fits { CanDo result self.now }
    {
        match socket_number(d.file.object) {
            Ok(number) => {
                let socket = OpenSocket {
                    nonblocking: d.file.nonblocking,
                    number,
                };
                let message = Message {
                    at,
                    n,
                    to_at: 0,
                    size: 0,
                };
                self.send_plan(socket, 0, message)
            }
            Err(_) => {
                let transfer = writing::write_plan(d, at, n, self.task, self.shared)?;
                Ok(Plan::Write(transfer))
            }
        }
    }

    fn write_plan(&self, fd: u32, at: u32, n: u32) -> Result<Plan, Refusal>
        ensures asked { Sees (spec.write_plan self.now.known.now fd at n) self.now result }
        ensures fits { CanDo result self.now }
    {
        let d = look_up(fd, self.task, &self.shared.files)?;
        self.write_plan_of(d, at, n)
    }

    /// What a call that may wait would do, what refuses it, or that it waits. It takes no memory.
    pub(crate) fn asked(&self, call: WaitingCall, args: [u32; 6]) -> Result<Plan, Refusal>
        requires { self.now.time.nanos ≤ latest_time }
        ensures asked { Sees (spec.asked self.now.known.now self.now.time call args) self.now result }
        ensures fits { CanDo result self.now }
    {
        let [a, b, c, d, e, f] = args;
        match call {
            WaitingCall::Read => self.read_plan(a, b, c),
            WaitingCall::Write => self.write_plan(a, b, c),
            WaitingCall::Accept => self.accept_plan(a, b, c),
            WaitingCall::Connect => self.connect_plan(a, b, c),
            WaitingCall::Sendto => {
                let message = Message {
                    at: b,
                    n: c,
                    to_at: e,
                    size: f,
                };
                self.sendto_plan(a, d, message)
            }
            WaitingCall::Recvfrom => {
                let room = Room {
                    at: b,
                    n: c,
                    from_at: e,
                    size_at: f,
                };
                self.recvfrom_plan(a, d, room)
            }
            WaitingCall::ClockNanosleep => {
                sleep_asked(self.time, a, b, c, self.task)?;
                Ok(Plan::Sleep)
            }
            WaitingCall::Ppoll => self.poll_plan(a, b, c),
            WaitingCall::EpollWait => self.wait_plan(a, b, c, d),
        }
    }
}
