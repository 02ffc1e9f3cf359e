//! Times, rates and addresses as texts.

ghost use Rattle.std.specs.Prelude.{◌≡◌, string_bytes, IfOk};
ghost use Rattle.config_lines.specs.Shown.{shown_time, shown_rate, shown_address};

use sim_base::{Ip, Time};
use std::alloc::{AllocError, Global};

pub fn time_string(alloc: Global, time: Time) -> Result<String, AllocError>
    ensures { IfOk result (λ s. string_bytes s ≡ shown_time time) }
{
    let nanos = time.nanos;
    format!(in alloc; "{nanos} ns")
}

/// A rate in bits a second.
pub fn rate_string(alloc: Global, rate: u64) -> Result<String, AllocError>
    ensures { IfOk result (λ s. string_bytes s ≡ shown_rate rate) }
{
    format!(in alloc; "{rate} bit")
}

pub fn address_string(alloc: Global, address: Ip) -> Result<String, AllocError>
    ensures { IfOk result (λ s. string_bytes s ≡ shown_address address) }
{
    let bits = address.bits;
    let (a, b) = (bits >> 24, (bits >> 16) % 256);
    let (c, d) = ((bits >> 8) % 256, bits % 256);
    format!(in alloc; "{a}.{b}.{c}.{d}")
}
