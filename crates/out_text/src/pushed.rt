//! Numbers and addresses that are added to a text.

ghost use Rattle.std.specs.Prelude.{◌≡◌, ◌+◌, ◌∷◌, ◌++◌, ◌<◌, ◌≤◌, ◌^◌, OnOk, length, drop};
ghost use Rattle.std.specs.Fmt.{decimal};
ghost use Rattle.out_text.specs.Address.{addr_text};

use base_texts::Text;
use itoa::{Buffer, write_digits};
use sim_base::{Addr, NoMemory};
use std::str;

/// The longest text of an address is `255.255.255.255:65535`.
const ADDR_LEN: usize = 21;

/// Adds a number in decimal digits.
pub(crate) fn push_number(into: &mut Text, number: u64) -> Result<(), NoMemory>
    ensures { OnOk result (into.new ≡ into.old ++ decimal number) }
{
    into.push_str(Buffer::new().format(number))
}

/// Adds an address as `a.b.c.d:port`.
// By hand: a log has two in each line, and through a formatter they take most of its time.
pub(crate) fn push_addr(into: &mut Text, addr: Addr) -> Result<(), NoMemory>
    ensures { OnOk result (into.new ≡ into.old ++ addr_text addr) }
{
    let mut bytes = [0; ADDR_LEN];
    let start = write_addr(addr, &mut bytes);
    let Ok(text) = str::from_utf8(&bytes[start..]) else {
        unreachable!()
    };
    into.push_str(text)
}

/// Writes an address at the end of the bytes, and tells where it starts.
fn write_addr(addr: Addr, into: &mut [u8; ADDR_LEN]) -> usize
    ensures within { result ≤ 21 }
    ensures written { drop result into.new ≡ addr_text addr }
{
    let bits = u64::from(addr.ip.bits);
    let port = write_digits(u64::from(addr.port), into, ADDR_LEN);
    let fourth = write_octet(bits % 256, b':', into, port);
    let third = write_octet((bits >> 8) % 256, b'.', into, fourth);
    let second = write_octet((bits >> 16) % 256, b'.', into, third);
    write_octet(bits >> 24, b'.', into, second)
}

/// Writes a byte's number in decimal digits and a separator behind it, which ends at `end`, and tells where it starts.
fn write_octet(octet: u64, separator: u8, into: &mut [u8], end: usize) -> usize
    requires octet { octet < 2 ^ 8 }
    requires room { 4 ≤ end }
    requires within { end ≤ length into.old }
    ensures start { end ≤ result + 4 }
    ensures before { result ≤ end }
    ensures written { drop result into.new ≡ decimal octet ++ separator ∷ drop end into.old }
    ensures len { length into.new ≡ length into.old }
{
    into[end - 1] = separator;
    write_digits(octet, into, end - 1)
}
