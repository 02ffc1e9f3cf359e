//! Values of keys that may be absent. A null counts as absent.

ghost use Rattle.std.specs.Prelude.{◌≡◌};
ghost use Rattle.shd_config.specs.Steps.{Gives, Passes, optional};
ghost use Rattle.shd_config.specs.Values.{text_at, number_at, size_at, time_at, rate_at, truth_at, signal_at, address_at};

use crate::fault::ConfigError;
use crate::value::{
    read_address, read_rate, read_signal, read_size, read_text, read_time, read_truth, read_u8,
    read_u32,
};
use base_texts::Text;
use sim_base::{Ip, Signal, Time};
use std::alloc::Global;
use yaml_merge::Pair;

/// Any text.
pub fn optional_text(alloc: Global, pair: &Pair) -> Result<Option<Text>, ConfigError>
    ensures { Gives result (optional pair.now (text_at pair.now)) }
{
    if pair.value.is_null() {
        return Ok(None);
    }
    let text = read_text(alloc, pair)?;
    Ok(Some(Text::from_str(alloc, text)?))
}

/// Any scalar, which is only looked at.
pub fn check_scalar(alloc: Global, pair: &Pair) -> Result<(), ConfigError>
    ensures { Passes result (optional pair.now (text_at pair.now)) }
{
    if pair.value.is_null() {
        return Ok(());
    }
    read_text(alloc, pair)?;
    Ok(())
}

pub fn optional_u32(alloc: Global, pair: &Pair) -> Result<Option<u32>, ConfigError>
    ensures { Gives result (optional pair.now (number_at 0 u32.MAX pair.now)) }
{
    if pair.value.is_null() {
        return Ok(None);
    }
    Ok(Some(read_u32(alloc, pair)?))
}

pub fn optional_u8(alloc: Global, pair: &Pair) -> Result<Option<u8>, ConfigError>
    ensures { Gives result (optional pair.now (number_at 0 u8.MAX pair.now)) }
{
    if pair.value.is_null() {
        return Ok(None);
    }
    Ok(Some(read_u8(alloc, pair)?))
}

pub fn optional_size(alloc: Global, pair: &Pair) -> Result<Option<u32>, ConfigError>
    ensures { Gives result (optional pair.now (size_at pair.now)) }
{
    if pair.value.is_null() {
        return Ok(None);
    }
    Ok(Some(read_size(alloc, pair)?))
}

pub fn optional_time(alloc: Global, pair: &Pair) -> Result<Option<Time>, ConfigError>
    ensures { Gives result (optional pair.now (time_at pair.now)) }
{
    if pair.value.is_null() {
        return Ok(None);
    }
    Ok(Some(read_time(alloc, pair)?))
}

pub fn optional_rate(alloc: Global, pair: &Pair) -> Result<Option<u64>, ConfigError>
    ensures { Gives result (optional pair.now (rate_at pair.now)) }
{
    if pair.value.is_null() {
        return Ok(None);
    }
    Ok(Some(read_rate(alloc, pair)?))
}

pub fn optional_truth(alloc: Global, pair: &Pair) -> Result<Option<bool>, ConfigError>
    ensures { Gives result (optional pair.now (truth_at pair.now)) }
{
    if pair.value.is_null() {
        return Ok(None);
    }
    Ok(Some(read_truth(alloc, pair)?))
}

pub fn optional_signal(alloc: Global, pair: &Pair) -> Result<Option<Signal>, ConfigError>
    ensures { Gives result (optional pair.now (signal_at pair.now)) }
{
    if pair.value.is_null() {
        return Ok(None);
    }
    Ok(Some(read_signal(alloc, pair)?))
}

pub fn optional_address(alloc: Global, pair: &Pair) -> Result<Option<Ip>, ConfigError>
    ensures { Gives result (optional pair.now (address_at pair.now)) }
{
    if pair.value.is_null() {
        return Ok(None);
    }
    Ok(Some(read_address(alloc, pair)?))
}
