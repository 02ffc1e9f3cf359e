//! The addresses of hosts.

ghost use Rattle.std.specs.Prelude.{◌≡◌, ◌+◌, ◌*◌, ◌<◌, ◌≤◌, ◌^◌, length, IfOk};
ghost use Rattle.sim_base.specs.Limits.{most_hosts};
ghost use Rattle.run_plan.specs.Addresses.{first_address, is_open, given_addresses, IsLeastOpen, AreAddressesFrom, AreAddresses};
ghost use Rattle.run_plan.specs.inside.Room.{count_from, NextAddress};

use sim_base::{Book, Ip, NoMemory};
use std::alloc::Global;

/// 11.0.0.1.
const FIRST: u32 = 0x0b00_0001;

/// Whether a host without an address may have this one.
fn is_open(given: &Book, bits: u32) -> bool
    ensures { result ≡ is_open given.now bits }
{
    let last = bits % 256;
    last != 0 && last != 255 && !given.contains(Ip { bits })
}

/// The least open address from this one on.
fn least_open(given: &Book, from: u32) -> u32
    requires { from + 3 * count_from given.now from + 2 < 2 ^ 32 }
    ensures least { IsLeastOpen given.now from result }
    ensures room { result + 3 * count_from given.now result ≤ from + 3 * count_from given.now from + 2 }
{
    let mut at = from;
    while !is_open(given, at) {
        at += 1;
    }
    at
}

/// The addresses that are given.
fn given(alloc: Global, hosts: &[Option<Ip>]) -> Result<Vec<Ip>, NoMemory>
    ensures { IfOk result (λ v. v.items ≡ given_addresses hosts.now) }
{
    let mut given = Vec::new(alloc);
    for host in hosts {
        if let Some(ip) = host {
            given.push(*ip)?;
        }
    }
    Ok(given)
}

/// The address of a host, and where the next open one is looked for.
#[derive(Clone, Copy)]
struct Addressed {
    address: Ip,
    next: u32,
}

/// The address of a host that may have been given one, where the next open one is looked for from
/// an address on.
fn address_host(given: &Book, from: u32, host: Option<Ip>) -> Addressed
    requires { from + 3 * count_from given.now from + 3 < 2 ^ 32 }
    ensures address { NextAddress given.now from result.next host result.address }
    ensures room { result.next + 3 * count_from given.now result.next ≤ from + 3 * count_from given.now from + 3 }
{
    match host {
        Some(address) => Addressed {
            address,
            next: from,
        },
        None => {
            let bits = least_open(given, from);
            Addressed {
                address: Ip { bits },
                next: bits + 1,
            }
        }
    }
}

/// The addresses of hosts: those that are given, and for the others the next open ones.
fn with_open(alloc: Global, given: &Book, hosts: &[Option<Ip>]) -> Result<Vec<Ip>, NoMemory>
    requires { length given.now + length hosts.now ≤ 2 ^ 16 }
    ensures { IfOk result (λ v. AreAddressesFrom given.now first_address hosts.now v.items) }
{
    let mut addresses = Vec::new(alloc);
    let mut next = FIRST;
    for host in hosts {
        let addressed = address_host(given, next, *host);
        next = addressed.next;
        addresses.push(addressed.address)?;
    }
    Ok(addresses)
}

/// The addresses of hosts, of which some are given: the others get the next open ones.
pub fn addresses_of(alloc: Global, hosts: &[Option<Ip>]) -> Result<Vec<Ip>, NoMemory>
    requires { length hosts.now ≤ most_hosts }
    ensures { IfOk result (λ v. AreAddresses hosts.now v.items) }
{
    let given = given(alloc, hosts)?;
    let book = Book::new(alloc, given)?;
    with_open(alloc, &book, hosts)
}
