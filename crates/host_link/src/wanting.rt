//! What a host's calls want of its link is done.

ghost use Rattle.std.specs.Prelude.{OnOk};
ghost use Rattle.host_link.specs.Sending.{IsWire};
ghost use Rattle.host_link.specs.Wants as spec;

use crate::link::Link;
use crate::net::Net;
use host_wants::{Outlet, Want};
use sim_base::{Ip, NoMemory, What};

impl Link {
    /// A packet that is wanted is sent, and an alarm is an event.
    #[tactic(auto, unfolding(crate::specs::Wants::does_want))]
    fn do_want(
        &mut self,
        outlet: &mut Outlet,
        net: &Net,
        own: Ip,
        want: Want,
    ) -> Result<(), NoMemory>
        ensures { OnOk result (IsWire self.new outlet.new (spec.does_want net.now own want (self.old, outlet.old))) }
    {
        match want {
            Want::Send(packet) => self.send(outlet, net, own, packet),
            Want::Alarm {
                target,
                serial,
                due,
            } => self.make(due, What::Alarm { target, serial }),
        }
    }

    /// What is wanted is done, in order.
    #[tactic(auto, unfolding(crate::specs::Wants::does_wants, crate::specs::Wants::does_all))]
    pub fn do_wants(&mut self, outlet: &mut Outlet, net: &Net, own: Ip) -> Result<(), NoMemory>
        ensures { OnOk result (IsWire self.new outlet.new (spec.does_wants net.now own (self.old, outlet.old))) }
    {
        let wants = outlet.take_wants();
        if wants.is_empty() {
            return Ok(());
        }
        for want in wants {
            self.do_want(outlet, net, own, want)?;
        }
        Ok(())
    }
}
