//! Which place has each end, and which addresses they have.

ghost use Rattle.std.specs.Prelude.{◌≡◌, ◌≢◌, ℕ, Option, Some, None, true};
ghost use Rattle.std.specs.List.{list_any};
ghost use Rattle.std.specs.HashMap.{get};
ghost use Rattle.sim_base.specs.declared.address.Addr.{Addr};
ghost use Rattle.sim_base.specs.declared.address.Ip.{Ip};
ghost use Rattle.sim_base.specs.Addresses.{is_same, is_same_ip};
ghost use Rattle.udp_table.specs.inside.Indexing.{meets_there, Finds};

use sim_base::{Addr, Ip};
use std::collections::HashMap;

/// The place that had an end has none.
fn leave(bound: &mut HashMap<Addr, usize>, was: Option<Addr>)
    ensures { (place : ℕ) (old new : ℕ → Option Addr) → old place ≡ was → new place ≡ None → ((k : ℕ) → k ≢ place → new k ≡ old k)
        → Finds (get is_same bound.old) old → Finds (get is_same bound.new) new }
{
    if let Some(at) = was {
        let _ = bound.remove(&at);
    }
}

/// A place that had no end has one, if there is one. Answers whether that is entered: it isn't where
/// memory is wanting, or another place has that end.
fn enter(bound: &mut HashMap<Addr, usize>, place: usize, is: Option<Addr>) -> bool
    ensures { result ≡ true → (old new : ℕ → Option Addr) → old place ≡ None → new place ≡ is → ((k : ℕ) → k ≢ place → new k ≡ old k)
        → Finds (get is_same bound.old) old → Finds (get is_same bound.new) new }
{
    match is {
        Some(at) => {
            if bound.contains_key(&at) {
                return false;
            }
            bound.insert(at, place).is_ok()
        }
        None => true,
    }
}

/// The end of a place changes. Answers whether that is entered, as `enter`.
pub(crate) fn move_end(
    bound: &mut HashMap<Addr, usize>,
    place: usize,
    was: Option<Addr>,
    is: Option<Addr>,
) -> bool
    ensures { result ≡ true → (old new : ℕ → Option Addr) → old place ≡ was → new place ≡ is → ((k : ℕ) → k ≢ place → new k ≡ old k)
        → Finds (get is_same bound.old) old → Finds (get is_same bound.new) new }
{
    if was == is {
        return true;
    }
    leave(bound, was);
    enter(bound, place, is)
}

/// Whether a place has the port of an end at an address, and its end meets this one.
fn is_met(bound: &HashMap<Addr, usize>, ip: Ip, at: Addr) -> bool
    ensures { result ≡ meets_there (get is_same bound.now) at ip }
{
    let other = Addr { ip, port: at.port };
    at.meets(other) && bound.contains_key(&other)
}

/// The same at one of some addresses.
pub(crate) fn is_met_at(bound: &HashMap<Addr, usize>, addresses: &[Ip], at: Addr) -> bool
    ensures { result ≡ list_any (meets_there (get is_same bound.now) at) addresses.now }
{
    addresses.iter().any(|ip| is_met(bound, *ip, at))
}

/// Whether an address is noted.
fn is_noted(addresses: &[Ip], ip: Ip) -> bool
    ensures { result ≡ list_any (is_same_ip ip) addresses.now }
{
    addresses.iter().any(|other| ip == *other)
}

/// Notes the address of an end, if there is one. Answers whether it did: it doesn't where memory is
/// wanting.
pub(crate) fn note(addresses: &mut Vec<Ip>, end: Option<Addr>) -> bool
    ensures here { result ≡ true → (at : Addr) → end ≡ Some at → list_any (is_same_ip at.ip) addresses.new.items ≡ true }
    ensures others { (ip : Ip) → list_any (is_same_ip ip) addresses.old.items ≡ true → list_any (is_same_ip ip) addresses.new.items ≡ true }
{
    match end {
        Some(at) => {
            if is_noted(addresses.as_slice(), at.ip) {
                return true;
            }
            addresses.push(at.ip).is_ok()
        }
        None => true,
    }
}
