//! Values that have to be given.

ghost use Rattle.std.specs.Prelude.{◌≡◌, ◌≤◌, ◌<◌, IfOk};
ghost use Rattle.shd_config.specs.Steps.{Gives, GivesSeen};
ghost use Rattle.shd_config.specs.Values.{mapping_at, sequence_at, text_at, number_at, size_at, time_at, may_stop_at, stop_time_at, rate_at, truth_at, signal_at, may_be_host, address_at, is_within};

use crate::fault::{ConfigError, ConfigKind};
use crate::steps::{refused, valued};
use sim_base::{Ip, Signal, Time};
use std::alloc::Global;
use yaml_merge::{Pair, Plain};

pub fn read_mapping<'a>(alloc: Global, pair: &'a Pair) -> Result<&'a [Pair], ConfigError>
    ensures { GivesSeen (λ pairs. pairs.now) result (mapping_at pair.now) }
{
    match pair.value.as_mapping() {
        Some(pairs) => Ok(pairs),
        None => Err(refused(alloc, ConfigKind::WrongType, pair)),
    }
}

pub fn read_sequence<'a>(alloc: Global, pair: &'a Pair) -> Result<&'a [Plain], ConfigError>
    ensures { GivesSeen (λ items. items.now) result (sequence_at pair.now) }
{
    match pair.value.as_sequence() {
        Some(items) => Ok(items),
        None => Err(refused(alloc, ConfigKind::WrongType, pair)),
    }
}

/// The text of a scalar.
pub fn read_text<'a>(alloc: Global, pair: &'a Pair) -> Result<&'a str, ConfigError>
    ensures { GivesSeen (λ text. text.now) result (text_at pair.now) }
{
    match pair.value.as_text() {
        Some(text) => Ok(text),
        None => Err(refused(alloc, ConfigKind::WrongType, pair)),
    }
}

/// A whole number from the least to the most.
pub fn read_number(alloc: Global, pair: &Pair, least: u128, most: u128) -> Result<u128, ConfigError>
    ensures number { Gives result (number_at least most pair.now) }
    ensures bound { IfOk result (λ n. n ≤ most) }
{
    let text = read_text(alloc, pair)?;
    let number = valued(
        alloc,
        ConfigKind::BadValue,
        pair,
        shd_values::read_number(text),
    )?;
    if least <= number && number <= most {
        return Ok(number);
    }
    Err(refused(alloc, ConfigKind::OutOfRange, pair))
}

/// A whole number of 32 bits.
pub fn read_u32(alloc: Global, pair: &Pair) -> Result<u32, ConfigError>
    ensures { Gives result (number_at 0 u32.MAX pair.now) }
{
    Ok(read_number(alloc, pair, 0, 0xffff_ffff)? as u32)
}

/// A whole number of 8 bits.
pub fn read_u8(alloc: Global, pair: &Pair) -> Result<u8, ConfigError>
    ensures { Gives result (number_at 0 u8.MAX pair.now) }
{
    Ok(read_number(alloc, pair, 0, 255)? as u8)
}

/// A size of 1 to 65,535 bytes.
pub fn read_size(alloc: Global, pair: &Pair) -> Result<u32, ConfigError>
    ensures { Gives result (size_at pair.now) }
{
    let text = read_text(alloc, pair)?;
    let size = valued(
        alloc,
        ConfigKind::BadValue,
        pair,
        shd_values::read_size(text),
    )?;
    if 1 <= size && size <= 65_535 {
        return Ok(size as u32);
    }
    Err(refused(alloc, ConfigKind::OutOfRange, pair))
}

pub fn read_time(alloc: Global, pair: &Pair) -> Result<Time, ConfigError>
    ensures { Gives result (time_at pair.now) }
{
    let text = read_text(alloc, pair)?;
    valued(
        alloc,
        ConfigKind::BadValue,
        pair,
        base_texts::read_time(text),
    )
}

/// The greatest stop time, in nanoseconds.
const GREATEST_STOP: u64 = 1 << 61;

/// A stop time of 1 ns to 2^61 ns.
pub fn read_stop_time(alloc: Global, pair: &Pair) -> Result<Time, ConfigError>
    ensures { Gives result (stop_time_at pair.now) }
{
    let time = read_time(alloc, pair)?;
    if 1 <= time.nanos && time.nanos <= GREATEST_STOP {
        return Ok(time);
    }
    Err(refused(alloc, ConfigKind::OutOfRange, pair))
}

/// A rate of 1 bit a second at least.
pub fn read_rate(alloc: Global, pair: &Pair) -> Result<u64, ConfigError>
    ensures { Gives result (rate_at pair.now) }
{
    let text = read_text(alloc, pair)?;
    let rate = valued(
        alloc,
        ConfigKind::BadValue,
        pair,
        base_texts::read_rate(text),
    )?;
    if 0 < rate {
        return Ok(rate);
    }
    Err(refused(alloc, ConfigKind::OutOfRange, pair))
}

pub fn read_truth(alloc: Global, pair: &Pair) -> Result<bool, ConfigError>
    ensures { Gives result (truth_at pair.now) }
{
    let text = read_text(alloc, pair)?;
    valued(
        alloc,
        ConfigKind::BadValue,
        pair,
        shd_values::read_truth(text),
    )
}

pub fn read_signal(alloc: Global, pair: &Pair) -> Result<Signal, ConfigError>
    ensures { Gives result (signal_at pair.now) }
{
    let text = read_text(alloc, pair)?;
    valued(
        alloc,
        ConfigKind::BadValue,
        pair,
        shd_values::read_signal(text),
    )
}

/// Whether a host may have an address: not in 0.0.0.0/8 nor 127.0.0.0/8, and below 224.0.0.0.
fn may_be_host(ip: Ip) -> bool
    ensures { result ≡ may_be_host ip }
{
    0x0100_0000 <= ip.bits
        && ip.bits <= 0xdfff_ffff
        && !(0x7f00_0000 <= ip.bits && ip.bits <= 0x7fff_ffff)
}

/// An address that a host may have.
pub fn read_address(alloc: Global, pair: &Pair) -> Result<Ip, ConfigError>
    ensures { Gives result (address_at pair.now) }
{
    let text = read_text(alloc, pair)?;
    let ip = valued(
        alloc,
        ConfigKind::BadValue,
        pair,
        shd_values::read_address(text),
    )?;
    if may_be_host(ip) {
        return Ok(ip);
    }
    Err(refused(alloc, ConfigKind::OutOfRange, pair))
}
