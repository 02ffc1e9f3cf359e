//! Addresses.

ghost use Rattle.std.specs.Prelude.{◌≡◌, ◌≤◌, length};
ghost use Rattle.guest_args.specs.Address as spec;

use crate::span::{fill, four};
use guest_mem::{Mem, Right};
use sim_base::{Addr, Ip};

/// Where the address goes that a call answers: as many of its 16 bytes as `length` from `at` on, and
/// its length at `length_at`.
#[derive(Clone, Copy, PartialEq, Eq)]
pub struct AddressPlace {
    pub at: u32,
    pub length: u32,
    pub length_at: u32,
}

/// AF_INET.
const INET: u16 = 2;

/// How long an address is.
const SIZE: usize = 16;

/// The family in the bytes of an address.
pub fn family_of(bytes: [u8; 16]) -> u16
    ensures { result ≡ spec.family_of bytes }
{
    let mut family = [0; 2];
    family.copy_from_slice(&bytes[..2]);
    u16::from_le_bytes(family)
}

/// The address in its bytes.
pub fn sockaddr_of(bytes: [u8; 16]) -> Addr
    ensures { result ≡ spec.sockaddr_of bytes }
{
    let mut port = [0; 2];
    port.copy_from_slice(&bytes[2..4]);
    let mut ip = [0; 4];
    ip.copy_from_slice(&bytes[4..8]);
    Addr {
        ip: Ip {
            bits: u32::from_be_bytes(ip),
        },
        port: u16::from_be_bytes(port),
    }
}

/// The bytes of an address.
pub fn sockaddr(at: Addr) -> [u8; 16]
    ensures { result ≡ spec.sockaddr at }
{
    let [f, g] = INET.to_le_bytes();
    let [p, q] = at.port.to_be_bytes();
    let [a, b, c, d] = at.ip.bits.to_be_bytes();
    [f, g, p, q, a, b, c, d, 0, 0, 0, 0, 0, 0, 0, 0]
}

/// The number in the 4 bytes from an address on.
fn word(memory: &Mem, at: u32) -> Option<u32>
    ensures { result ≡ spec.word at memory.now }
{
    match four(memory, at) {
        Some(bytes) => Some(u32::from_le_bytes(bytes)),
        None => None,
    }
}

/// How many bytes of an address count, of which a length is given.
pub fn address_span(length: u32) -> usize
    ensures count { result ≡ spec.address_span length }
    ensures most { result ≤ spec.address_size }
{
    (length as usize).min(SIZE)
}

fn place_at(memory: &Mem, at: u32, length_at: u32, length: u32) -> Option<AddressPlace>
    ensures { result ≡ spec.place_at at length_at memory.now length }
{
    let is_open = memory.is_open(Right::Write, length_at, 4)
        && memory.is_open(Right::Write, at, address_span(length));
    if is_open {
        Some(AddressPlace {
            at,
            length,
            length_at,
        })
    } else {
        None
    }
}

/// Where the address goes that a call answers, if it is wanted: neither pointer is null. None: a
/// byte of the spans isn't mapped with the right that it needs.
pub fn wanted_place(memory: &Mem, at: u32, length_at: u32) -> Option<Option<AddressPlace>>
    ensures { result ≡ spec.wanted_place at length_at memory.now }
{
    if at == 0 || length_at == 0 {
        return Some(None);
    }
    match word(memory, length_at) {
        Some(length) => match place_at(memory, at, length_at, length) {
            Some(place) => Some(Some(place)),
            None => None,
        },
        None => None,
    }
}

/// Writes an address where it is wanted, cut at the given length, and then its whole length.
pub fn answer(memory: &mut Mem, place: Option<AddressPlace>, address: Addr)
    ensures { memory.new ≡ spec.answered place address memory.old }
{
    match place {
        Some(place) => {
            let bytes = sockaddr(address);
            fill(memory, place.at, &bytes[..address_span(place.length)]);
            fill(memory, place.length_at, &(SIZE as u32).to_le_bytes());
        }
        None => {}
    }
}
