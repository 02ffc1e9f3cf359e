//! Bags of the ports that sockets get by themselves: from 10000 up, counted from there on.

ghost use Rattle.std.specs.Prelude.{◌≡◌, ℕ, ◌+◌, ◌-◌, true, List};
ghost use Rattle.std.specs.List.{sum_by};
ghost use Rattle.sim_base.specs.declared.address.Addr.{Addr};
ghost use Rattle.sim_base.specs.Addresses.{least_free_port};
ghost use Rattle.number_sets.specs.Bags.{Holds};
ghost use Rattle.number_sets.specs.Ports.{given_end, once, had};

use crate::bag::NumberBag;
use sim_base::Addr;

/// The first port that is given.
pub const FIRST_GIVEN: u16 = 10_000;

/// How many ports are given.
pub const GIVEN: usize = 55_536;

/// The port of an end, counted from the first one that is given, if there is an end and its port is
/// given.
pub fn given_end(end: Option<Addr>) -> Option<u16>
    ensures { result ≡ given_end end }
{
    match end {
        Some(at) => {
            if at.port < FIRST_GIVEN {
                None
            } else {
                Some(at.port - FIRST_GIVEN)
            }
        }
        None => None,
    }
}

/// Counts a port once more, if there is one. Answers whether it did: it doesn't where memory is
/// wanting.
fn count(counts: &mut NumberBag, port: Option<u16>) -> bool
    ensures { result ≡ true → (f : ℕ → ℕ) → Holds counts.old f → Holds counts.new (λ n. f n + once port n) }
{
    match port {
        Some(port) => counts.add(port as usize).is_ok(),
        None => true,
    }
}

/// Counts a port once less, if there is one. Answers whether it did, as `count`.
fn discount(counts: &mut NumberBag, port: Option<u16>) -> bool
    ensures { result ≡ true → (f : ℕ → ℕ) → Holds counts.old f → Holds counts.new (λ n. f n - once port n) }
{
    match port {
        Some(port) => counts.remove(port as usize).is_ok(),
        None => true,
    }
}

/// An end has another port than it had. Answers whether that is counted: it isn't where memory is
/// wanting.
pub fn recount(counts: &mut NumberBag, was: Option<u16>, is: Option<u16>) -> bool
    ensures { result ≡ true → (f : ℕ → ℕ) → Holds counts.old f → Holds counts.new (λ n. f n + once is n - once was n) }
{
    if was == is {
        return true;
    }
    if count(counts, is) {
        discount(counts, was)
    } else {
        false
    }
}

/// The least given port that none of some ends has, if there is one, where the bag has those that they
/// have.
pub fn free_port(counts: &NumberBag) -> Option<u16>
    ensures { (bound : List Addr) → Holds counts.now (λ n. sum_by (had n) bound) → result ≡ least_free_port bound }
{
    let number = counts.least_absent();
    if number < GIVEN {
        Some(FIRST_GIVEN + number as u16)
    } else {
        None
    }
}
