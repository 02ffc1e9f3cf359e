//! What a host's calls want is done at once, after each act.

ghost use Rattle.std.specs.Prelude.{◌≤◌, OnOk};
ghost use Rattle.sim_base.specs.Packet.{packet_size};
ghost use Rattle.host_link.specs.Sending.{up_comes};
ghost use Rattle.host_state.specs.StandsFor.{Does};
ghost use Rattle.host_state.specs.Host as spec;
ghost use Rattle.host_state.specs.Arriving as arriving;
ghost use Rattle.host_state.specs.Fire as fire;

use crate::host::Body;
use host_calls::{alarm, deliver};
use host_link::Net;
use net_iface::Pushed;
use sim_base::{Act, AlarmTarget, MAX_PACKET, NoMemory, Packet, What};

impl Body {
    /// The parts have acted: what they want is done.
    pub(crate) fn do_wanted(&mut self, net: &Net) -> Result<(), NoMemory>
        ensures { OnOk result (Does (spec.does_wanted net.now) self.old self.new) }
    {
        let own = self.row.address;
        self.link.do_wants(&mut self.parts.shared.outlet, net, own)
    }

    /// The lane to the network releases what it can.
    pub(crate) fn come_up(&mut self, net: &Net) -> Result<(), NoMemory>
        ensures { OnOk result (Does (spec.on_wire (up_comes net.now)) self.old self.new) }
    {
        self.link.come_up(&mut self.parts.shared.outlet, net)
    }

    /// The sockets get a packet.
    pub(crate) fn hand_over(&mut self, net: &Net, packet: Packet) -> Result<(), NoMemory>
        ensures { OnOk result (Does (arriving.is_handed_over net.now packet) self.old self.new) }
    {
        let now = self.link.now();
        let act = deliver(&mut self.parts, now, &packet)?;
        self.link.log(act, packet)?;
        self.do_wanted(net)
    }

    /// The sockets get packets, one after another.
    fn hand_over_all(&mut self, net: &Net, packets: Vec<Packet>) -> Result<(), NoMemory>
        ensures { OnOk result (Does (arriving.are_handed_over net.now packets.items) self.old self.new) }
    {
        for packet in packets {
            self.hand_over(net, packet)?;
        }
        Ok(())
    }

    /// A packet comes to the router's lane: it arrives, waits or is dropped.
    fn come_to_router(&mut self, net: &Net, packet: Packet) -> Result<(), NoMemory>
        requires { packet_size packet ≤ MAX_PACKET }
        ensures { OnOk result (Does (arriving.comes_to_router net.now packet) self.old self.new) }
    {
        match self.link.push_down(packet)? {
            Pushed::Leaves(packet) => self.hand_over(net, packet),
            Pushed::Waits(due) => self.link.make_if(due, What::Down),
            Pushed::Dropped(packet) => self.link.log(Act::FullDown, packet),
        }
    }

    /// A packet of another host comes to the router.
    pub(crate) fn come_in(&mut self, net: &Net, packet: Packet) -> Result<(), NoMemory>
        ensures { OnOk result (Does (arriving.comes_in net.now packet) self.old self.new) }
    {
        if packet.size() > MAX_PACKET as u64 {
            return Ok(());
        }
        let at_once = net.is_bootstrapping(self.link.now());
        if at_once {
            return self.hand_over(net, packet);
        }
        self.come_to_router(net, packet)
    }

    /// The router's lane releases what it can.
    pub(crate) fn come_down(&mut self, net: &Net) -> Result<(), NoMemory>
        ensures { OnOk result (Does (arriving.down_comes net.now) self.old self.new) }
    {
        let released = self.link.release_down()?;
        self.link.drop_all(released.dropped)?;
        self.hand_over_all(net, released.packets)?;
        self.link.make_if(released.next, What::Down)
    }

    /// The moment of an alarm has come.
    pub(crate) fn ring(
        &mut self,
        net: &Net,
        target: AlarmTarget,
        serial: u64,
    ) -> Result<(), NoMemory>
        ensures { OnOk result (Does (fire.rings net.now target serial) self.old self.new) }
    {
        let now = self.link.now();
        alarm(&mut self.parts, now, target, serial)?;
        self.do_wanted(net)
    }
}
