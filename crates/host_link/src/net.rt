//! What all hosts know of the network.

ghost use Rattle.std.specs.Prelude.{◌≡◌, nat_le, option_map, unwrap_or};
ghost use Rattle.sim_base.specs.Addresses.{host_at};
ghost use Rattle.host_link.specs.Home.{home};
ghost use Rattle.host_link.specs.Sending.{route_from, route_to, is_bootstrapping};
ghost use Rattle.world_order.specs.Window.{window_end};

use elf_load::Image;
use file_calls::Known;
use net_routes::Routes;
use sim_base::{Event, Ip, Time, What};
use std::alloc::Global;
use std::marker::Model;
use world_order::Window;

/// The nodes of hosts, which contracts see as a list of numbers.
#[derive(Drop)]
pub struct Nodes {
    ids: Vec<u32>,
}

impl Model for Nodes {
    ghost use Rattle.std.specs.Prelude.{List, ℕ};

    ghost Value = { List ℕ };

    ghost view = { λ n. n.ids.items };
}

impl Nodes {
    pub fn as_slice(&self) -> &[u32]
        ensures { result.now ≡ self.now }
    {
        self.ids.as_slice()
    }

    pub fn allocator(&self) -> &Global {
        self.ids.allocator()
    }
}

impl From<Vec<u32>> for Nodes {
    ghost from_gives = { λ v n. n ≡ v.items };

    fn from(ids: Vec<u32>) -> Nodes {
        Nodes { ids }
    }
}

/// The images of programs, which contracts see as a list.
#[derive(Drop)]
pub struct Images {
    items: Vec<Image>,
}

impl Model for Images {
    ghost use Rattle.std.specs.Prelude.{List};
    ghost use Rattle.std.specs.Coded.{coded_list};
    ghost use Rattle.elf_load.specs.ProgramImage.{ProgramImage, program_image_code};

    ghost Value = { List ProgramImage };

    ghost coded = { coded_list program_image_code };

    ghost view = { λ i. i.items.items };
}

impl Images {
    pub fn as_slice(&self) -> &[Image]
        ensures { result.now ≡ self.now }
    {
        self.items.as_slice()
    }
}

impl From<Vec<Image>> for Images {
    ghost from_gives = { λ v i. i ≡ v.items };

    fn from(items: Vec<Image>) -> Images {
        Images { items }
    }
}

/// What is lent to all hosts: the routes between nodes, the hosts' addresses and nodes, the times of
/// the experiment, the budget of instructions between two calls, and the images of programs.
///
/// Contracts see these as a record of plain values.
pub struct Net {
    pub routes: Routes,
    pub known: Known,
    /// The node of each host.
    pub nodes: Nodes,
    /// Before this time packets pass all lanes at once, and none is lost.
    pub bootstrap_end: Time,
    /// No event that is due at this time or later fires.
    pub stop: Time,
    /// How many instructions a process may run from one call to the next.
    pub budget: u64,
    pub images: Images,
}

/// By hand: a derived one would be proved anew in each crate that drops such a value.
impl Drop for Net {
    fn drop(self) {
        let Net {
            routes,
            known,
            nodes,
            bootstrap_end: _,
            stop: _,
            budget: _,
            images,
        } = self;
        drop(routes);
        drop(known);
        drop(nodes);
        drop(images);
    }
}

impl Model for Net {
    ghost use Rattle.host_link.specs.Net.{Net as NetRecord, net_code};

    ghost Value = { NetRecord };

    ghost coded = { net_code };

    ghost view = { λ n. record { routes = n.routes; nodes = n.nodes; known = n.known; bootstrap_end = n.bootstrap_end; stop = n.stop; budget = n.budget; images = n.images } };
}

impl Net {
    /// The latency and the reliability, of 10^9, of the route from a host to another one.
    #[tactic(auto, unfolding(crate::specs::Sending::route_from))]
    fn route_from(&self, host: u32, other: u32) -> Option<(Time, u32)>
        ensures { result ≡ route_from self.now host other }
    {
        let nodes = self.nodes.as_slice();
        let from = *nodes.get(host as usize)?;
        let to = *nodes.get(other as usize)?;
        self.routes.find(from, to)
    }

    /// The route from a host to the one that has an address, if that is another host.
    #[tactic(auto, unfolding(crate::specs::Sending::route_to))]
    pub(crate) fn route_to(&self, host: u32, ip: Ip) -> Option<(Time, u32)>
        ensures { result ≡ route_to self.now host ip }
    {
        let other = self.known.book.host_at(ip)?;
        if other.index == host {
            return None;
        }
        self.route_from(host, other.index)
    }

    /// Whether the network is being set up.
    pub fn is_bootstrapping(&self, now: Time) -> bool
        ensures { result ≡ is_bootstrapping self.now now }
    {
        now.nanos < self.bootstrap_end.nanos
    }

    /// Whether the experiment is over at a time.
    pub fn is_over(&self, now: Time) -> bool
        ensures { result ≡ nat_le self.now.stop.nanos now.nanos }
    {
        now.nanos >= self.stop.nanos
    }

    /// The window of the round whose least event is due at `least`.
    pub fn window(&self, least: Time, lookahead: Option<Time>) -> Window
        ensures from { result.from ≡ least }
        ensures end { result.end.nanos ≡ window_end (option_map (λ t. t.nanos) lookahead) self.now.stop.nanos least.nanos }
    {
        Window::of(least, lookahead, self.stop)
    }

    /// The host that has an address, or else this one.
    fn host_or(&self, ip: Ip, other: u32) -> u32
        ensures { result ≡ unwrap_or (host_at self.now.known.book ip) other }
    {
        match self.known.book.host_at(ip) {
            Some(host) => host.index,
            None => other,
        }
    }

    /// The number of the host at which an event fires.
    pub fn home(&self, event: &Event) -> u32
        ensures { result ≡ home self.now event.now }
    {
        let source = event.key.source.index;
        match &event.what {
            What::Packet(packet) => self.host_or(packet.to.ip, source),
            _ => source,
        }
    }
}
