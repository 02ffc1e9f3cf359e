//! The keys `host_option_defaults` and `host_options`.

ghost use Rattle.std.specs.Prelude.{◌≡◌, unwrap_or};
ghost use Rattle.shd_config.specs.Steps.{Gives, Sets, optional, through};
ghost use Rattle.shd_config.specs.Host.{no_options, options_key, options_row, options_at};

use crate::fault::{ConfigError, ConfigKind};
use crate::key::{Key, key_of};
use crate::optional::{check_scalar, optional_size, optional_truth};
use crate::setting::set;
use crate::steps::{below, refused};
use crate::value::read_mapping;
use std::alloc::Global;
use yaml_merge::Pair;

/// The options of a host, or those of all hosts, that are given.
#[derive(Clone, Copy)]
pub struct HostOptions {
    pub pcap_enabled: Option<bool>,
    pub pcap_capture_size: Option<u32>,
}

pub fn no_options() -> HostOptions
    ensures { result ≡ no_options }
{
    HostOptions {
        pcap_enabled: None,
        pcap_capture_size: None,
    }
}

fn read_key(
    alloc: Global,
    key: Option<Key>,
    draft: &mut HostOptions,
    pair: &Pair,
) -> Result<(), ConfigError>
    ensures { Sets result draft.new (options_key key draft.old pair.now) }
{
    match key {
        Some(Key::LogLevel) => check_scalar(alloc, pair),
        Some(Key::PcapEnabled) => set(&mut draft.pcap_enabled, optional_truth(alloc, pair)),
        Some(Key::PcapCaptureSize) => set(&mut draft.pcap_capture_size, optional_size(alloc, pair)),
        _ => Err(refused(alloc, ConfigKind::UnknownKey, pair)),
    }
}

fn read_pairs(alloc: Global, pairs: &[Pair]) -> Result<HostOptions, ConfigError>
    ensures { Gives result (through options_row no_options pairs.now) }
{
    let mut draft = no_options();
    for pair in pairs {
        read_key(alloc, key_of(pair.key.as_str()), &mut draft, pair)?;
    }
    Ok(draft)
}

#[tactic(auto, unfolding(crate::specs::Host::options_at))]
fn read_options(alloc: Global, pair: &Pair) -> Result<HostOptions, ConfigError>
    ensures { Gives result (options_at pair.now) }
{
    let pairs = read_mapping(alloc, pair)?;
    match read_pairs(alloc, pairs) {
        Ok(options) => Ok(options),
        Err(error) => Err(below(alloc, pair.key.as_str(), error)),
    }
}

/// Reads options that may be absent.
pub fn optional_options(alloc: Global, pair: &Pair) -> Result<Option<HostOptions>, ConfigError>
    ensures { Gives result (optional pair.now (options_at pair.now)) }
{
    if pair.value.is_null() {
        return Ok(None);
    }
    Ok(Some(read_options(alloc, pair)?))
}
