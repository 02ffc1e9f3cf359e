//! Addresses of the internet protocol as texts: four numbers with points between them, as `11.0.0.1`.

ghost use Rattle.std.specs.Prelude.{◌≡◌, ◌<◌, ◌≤◌, length, IfSome};
ghost use Rattle.std.specs.List.{before_first, after_first, position_or_len};
ghost use Rattle.shd_values.specs.Address.{is_point, octet, address_of};

use crate::number::whole_number;
use sim_base::Ip;

/// A number of 0 to 255 without leading zeros.
fn read_octet(text: &[u8]) -> Option<u32>
    ensures value { result ≡ octet text.now }
    ensures small { IfSome result (λ n. n < 256) }
{
    if text.len() > 1 && text[0] == b'0' {
        return None;
    }
    match whole_number(text) {
        Some(number) if number < 256 => Some(number as u32),
        _ => None,
    }
}

/// How many bytes stand before the first point.
fn place_of_point(text: &[u8]) -> usize
    ensures len { result ≡ position_or_len is_point text.now }
    ensures within { result ≤ length text.now }
{
    text.iter().take_while(|b| **b != b'.').count()
}

/// What stands before the first point, and behind it.
fn split_at_point(text: &[u8]) -> (&[u8], &[u8])
    ensures front { result.0.now ≡ before_first is_point text.now }
    ensures back { result.1.now ≡ after_first is_point text.now }
{
    let place = place_of_point(text);
    let (front, rest) = text.split_at(place);
    if place < text.len() {
        (front, &rest[1..])
    } else {
        (front, rest)
    }
}

/// Reads an address: four numbers of 0 to 255 without leading zeros, with points between them.
pub fn read_address(text: &str) -> Option<Ip>
    ensures { result ≡ address_of text.now }
{
    let (first, rest) = split_at_point(text.as_bytes());
    let (second, rest) = split_at_point(rest);
    let (third, fourth) = split_at_point(rest);
    let first = read_octet(first)?;
    let second = read_octet(second)?;
    let third = read_octet(third)?;
    let fourth = read_octet(fourth)?;
    Some(Ip {
        bits: ((first * 256 + second) * 256 + third) * 256 + fourth,
    })
}
