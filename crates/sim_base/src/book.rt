//! The addresses of all hosts.

ghost use Rattle.std.specs.Prelude.{◌≡◌, ◌<◌, ◌≤◌, ◌^◌, length, option_map, IfOk};
ghost use Rattle.sim_base.specs.Addresses as spec;

use crate::address::Ip;
use crate::host::HostId;
use crate::memory::NoMemory;
use std::alloc::Global;
use std::collections::BTreeMap;
use std::marker::Model;

/// The addresses of all hosts, shared by them. Whether an address is a host's, and whose, is found
/// by halving.
///
/// Contracts see the list of the addresses, in the order of the hosts.
#[derive(Drop)]
pub struct Book {
    hosts: Vec<Ip>,
    index: BTreeMap<u32, u32>,
}

impl Model for Book {
    ghost use Rattle.std.specs.Prelude.{◌≤◌, ◌^◌, List, vec_len};
    ghost use Rattle.sim_base.specs.declared.address.Ip.{Ip};
    ghost use Rattle.sim_base.specs.Addresses.{Tells};

    ghost Value = { List Ip };

    ghost view = { λ b. b.hosts.items };

    ghost invariant = { λ b. (vec_len b.hosts ≤ 2 ^ 32) × Tells b.index b.hosts.items };
}

impl Book {
    /// The book of these addresses, in the order of the hosts.
    pub fn new(alloc: Global, hosts: Vec<Ip>) -> Result<Book, NoMemory>
        requires { length hosts.items ≤ 2 ^ 32 }
        ensures { IfOk result (λ book. book ≡ hosts.items) }
    {
        let mut index = BTreeMap::new(alloc);
        let mut at = hosts.len();
        while at > 0 {
            at -= 1;
            let _ = index.insert(hosts[at].bits, at as u32)?;
        }
        Ok(Book { hosts, index })
    }

    /// The addresses, in the order of the hosts.
    pub fn as_slice(&self) -> &[Ip]
        ensures { result.now ≡ self.now }
    {
        self.hosts.as_slice()
    }

    /// Whether the address is that of a host.
    pub fn contains(&self, ip: Ip) -> bool
        ensures { result ≡ spec.has_host self.now ip }
    {
        self.index.contains_key(&ip.bits)
    }

    /// The host that has the address: the first where several have it.
    pub fn host_at(&self, ip: Ip) -> Option<HostId>
        ensures { option_map (λ host. host.index) result ≡ spec.host_at self.now ip }
    {
        let index = *self.index.get(&ip.bits)?;
        Some(HostId { index })
    }

    /// Whether there is a route to the address: it is 127.0.0.1 or that of a host.
    pub fn is_reachable(&self, ip: Ip) -> bool
        ensures { result ≡ spec.is_reachable self.now ip }
    {
        ip == Ip::LOOPBACK || self.contains(ip)
    }
}
