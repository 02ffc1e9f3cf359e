//! The host in a worker's hand fires an event.

ghost use Rattle.std.specs.Prelude.{OnOk, IfOk};
ghost use Rattle.host_link.specs.Net.{Net};
ghost use Rattle.round_schedule.specs.Reaching.{May, Does};
ghost use Rattle.round_schedule.specs.inside.Kinds.{fires};
ghost use Rattle.round_schedule.specs.inside.Turning.{MayTurn, Turns};

use crate::member::Member;
use crate::round::Round;
use host_link::{Logged, Net, Outbox};
use sim_base::{NoMemory, Parcel};

/// What the firing of an event hands out: packets for other hosts, and lines of the log.
#[derive(Drop)]
pub(crate) struct HandedOut {
    pub(crate) parcels: Vec<Parcel>,
    pub(crate) lines: Vec<Logged>,
}

impl Member {
    /// The least event of the host fires, and what its processes write is kept.
    fn fire(&mut self, net: &Net) -> Result<HandedOut, NoMemory>
        requires { MayTurn net.now self.old }
        ensures { IfOk result (λ out. Turns net.now self.old self.new out) }
    {
        let alloc = *net.nodes.allocator();
        let mut out = Outbox::new(alloc);
        let Some(event) = self.host.take_least() else {
            unreachable!()
        };
        self.host.fire(net, event, &mut out)?;
        let Outbox {
            parcels,
            lines,
            outputs,
        } = out;
        let mut outputs = outputs;
        self.outputs.append(&mut outputs)?;
        Ok(HandedOut { parcels, lines })
    }
}

impl Round {
    /// The least event of the host in a worker's hand fires.
    pub(crate) fn fire_host(&mut self, net: &Net, worker: u32) -> Result<(), NoMemory>
        requires { May net.now (fires net.now worker) self.old }
        ensures { OnOk result (Does net.now (fires net.now worker) self.old self.new) }
    {
        let Some(number) = self.held(worker) else {
            unreachable!()
        };
        let HandedOut { parcels, lines } = self.members[number].fire(net)?;
        let mut parcels = parcels;
        let mut lines = lines;
        self.workers[worker as usize].hand.append(&mut parcels)?;
        self.lines.append(&mut lines)?;
        Ok(())
    }
}
