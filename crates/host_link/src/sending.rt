//! How a host sends packets.

ghost use Rattle.std.specs.Prelude.{◌≡◌, ◌≤◌, OnOk};
ghost use Rattle.sim_base.specs.Packet.{packet_size};
ghost use Rattle.host_wants.specs.Wanted.{draws_word};
ghost use Rattle.host_link.specs.Sending.{loses, stays_here, travels, takes_its_chance, takes_route, takes_route_if, leaves, leave_all, makes_if, goes_up, loops, sends, drop_all, up_comes, IsWire};

use crate::link::{Link, later};
use crate::net::Net;
use host_wants::Outlet;
use net_iface::Pushed;
use sim_base::{Act, Ip, MAX_PACKET, NoMemory, Packet, Time, What};

/// Of so many packets a reliable route loses none.
const WHOLE: u32 = 1_000_000_000;

/// Whether a word that is drawn loses a packet, where so many of 10^9 arrive.
fn loses(reliability: u32, word: u64) -> bool
    ensures { result ≡ loses reliability word }
{
    u128::from(reliability) <= u128::from(word) * u128::from(WHOLE) / 0x1_0000_0000_0000_0000
}

/// Whether a packet to this address stays on the host.
fn stays_here(own: Ip, packet: &Packet) -> bool
    ensures { result ≡ stays_here own packet.now }
{
    packet.to.ip == Ip::LOOPBACK || packet.to.ip == own
}

impl Link {
    /// A packet is on its way to another host.
    fn travel(&mut self, latency: Time, packet: Packet) -> Result<(), NoMemory>
        ensures { OnOk result (self.new ≡ travels latency packet self.old) }
    {
        let due = later(self.now(), latency.nanos);
        self.make(due, What::Packet(packet))
    }

    /// A packet that may be lost.
    fn take_chance(
        &mut self,
        outlet: &mut Outlet,
        route: (Time, u32),
        packet: Packet,
    ) -> Result<(), NoMemory>
        ensures { OnOk result (IsWire self.new outlet.new (takes_its_chance route packet self.old (draws_word outlet.old))) }
    {
        let (latency, reliability) = route;
        let word = outlet.word();
        if loses(reliability, word) {
            self.log(Act::Lost, packet)
        } else {
            self.travel(latency, packet)
        }
    }

    /// A packet takes its route.
    #[tactic(auto, unfolding(crate::specs::Sending::takes_route))]
    fn take_route(
        &mut self,
        outlet: &mut Outlet,
        sure: bool,
        route: (Time, u32),
        packet: Packet,
    ) -> Result<(), NoMemory>
        ensures { OnOk result (IsWire self.new outlet.new (takes_route sure route packet (self.old, outlet.old))) }
    {
        let (latency, reliability) = route;
        if sure || reliability >= WHOLE {
            self.travel(latency, packet)
        } else {
            self.take_chance(outlet, route, packet)
        }
    }

    fn take_route_if(
        &mut self,
        outlet: &mut Outlet,
        sure: bool,
        route: Option<(Time, u32)>,
        packet: Packet,
    ) -> Result<(), NoMemory>
        ensures { OnOk result (IsWire self.new outlet.new (takes_route_if sure route packet (self.old, outlet.old))) }
    {
        match route {
            Some(route) => self.take_route(outlet, sure, route, packet),
            None => Ok(()),
        }
    }

    /// A packet leaves the host.
    #[tactic(auto, unfolding(crate::specs::Sending::leaves))]
    fn leave(&mut self, outlet: &mut Outlet, net: &Net, packet: Packet) -> Result<(), NoMemory>
        ensures { OnOk result (IsWire self.new outlet.new (leaves net.now packet (self.old, outlet.old))) }
    {
        let sure = net.is_bootstrapping(self.now());
        let route = net.route_to(self.number(), packet.to.ip);
        self.log(Act::Send, packet.clone()?)?;
        self.take_route_if(outlet, sure, route, packet)
    }

    #[tactic(auto, unfolding(crate::specs::Sending::leave_all))]
    fn leave_all(
        &mut self,
        outlet: &mut Outlet,
        net: &Net,
        packets: Vec<Packet>,
    ) -> Result<(), NoMemory>
        ensures { OnOk result (IsWire self.new outlet.new (leave_all net.now packets.items (self.old, outlet.old))) }
    {
        for packet in packets {
            self.leave(outlet, net, packet)?;
        }
        Ok(())
    }

    /// Makes an event for a time, where there is one.
    pub fn make_if(&mut self, due: Option<Time>, what: What) -> Result<(), NoMemory>
        ensures { OnOk result (self.new ≡ makes_if due what self.old) }
    {
        match due {
            Some(due) => self.make(due, what),
            None => Ok(()),
        }
    }

    /// A packet comes to the lane to the network.
    #[tactic(auto, unfolding(crate::specs::Sending::goes_up))]
    fn go_up(&mut self, outlet: &mut Outlet, net: &Net, packet: Packet) -> Result<(), NoMemory>
        requires { packet_size packet ≤ MAX_PACKET }
        ensures { OnOk result (IsWire self.new outlet.new (goes_up net.now packet (self.old, outlet.old))) }
    {
        if net.is_bootstrapping(self.now()) {
            return self.leave(outlet, net, packet);
        }
        match self.push_up(packet)? {
            Pushed::Leaves(packet) => self.leave(outlet, net, packet),
            Pushed::Waits(due) => self.make_if(due, What::Up),
            Pushed::Dropped(packet) => self.log(Act::FullUp, packet),
        }
    }

    /// A packet to the host itself.
    fn loop_back(&mut self, packet: Packet) -> Result<(), NoMemory>
        ensures { OnOk result (self.new ≡ loops packet self.old) }
    {
        let due = later(self.now(), 1);
        self.log(Act::Send, packet.clone()?)?;
        self.make(due, What::Loop(packet))
    }

    /// The host, which has this address, sends a packet.
    #[tactic(auto, unfolding(crate::specs::Sending::sends))]
    pub(crate) fn send(
        &mut self,
        outlet: &mut Outlet,
        net: &Net,
        own: Ip,
        packet: Packet,
    ) -> Result<(), NoMemory>
        ensures { OnOk result (IsWire self.new outlet.new (sends net.now own packet (self.old, outlet.old))) }
    {
        if packet.size() > MAX_PACKET as u64 {
            return Ok(());
        }
        if stays_here(own, &packet) {
            return self.loop_back(packet);
        }
        self.go_up(outlet, net, packet)
    }

    /// Logs packets that the rule of a lane's queue dropped.
    #[tactic(auto, unfolding(crate::specs::Sending::drop_all))]
    pub fn drop_all(&mut self, packets: Vec<Packet>) -> Result<(), NoMemory>
        ensures { OnOk result (self.new ≡ drop_all packets.items self.old) }
    {
        for packet in packets {
            self.log(Act::Codel, packet)?;
        }
        Ok(())
    }

    /// The lane to the network releases what it can.
    #[tactic(auto, unfolding(crate::specs::Sending::up_comes))]
    pub fn come_up(&mut self, outlet: &mut Outlet, net: &Net) -> Result<(), NoMemory>
        ensures { OnOk result (IsWire self.new outlet.new (up_comes net.now (self.old, outlet.old))) }
    {
        let released = self.release_up()?;
        self.drop_all(released.dropped)?;
        self.leave_all(outlet, net, released.packets)?;
        self.make_if(released.next, What::Up)
    }
}
