//! The key `general`.

ghost use Rattle.std.specs.Prelude.{◌≡◌, is_some, unwrap_or, codes, IfOk};
ghost use Rattle.shd_config.specs.Steps.{Gives, Sets, optional, given, mapping_line, through};
ghost use Rattle.shd_config.specs.Values.{stop_time_at, text_with, is_some_text};
ghost use Rattle.shd_config.specs.General.{new_general, general_key, general_row, overridden, finished_general, general_of, general_at};

use crate::fault::{ConfigError, ConfigKind};
use crate::key::{Key, key_of};
use crate::optional::{check_scalar, optional_time, optional_u32};
use crate::overrides::Overrides;
use crate::setting::set;
use crate::steps::{below, checked, mapping_line, needed, refused};
use crate::value::{read_mapping, read_stop_time, read_text};
use base_texts::Name;
use sim_base::{NoMemory, Time};
use std::alloc::Global;
use yaml_merge::Pair;

/// What `general` sets.
#[derive(Drop)]
pub struct General {
    pub stop_time: Time,
    pub seed: u32,
    pub parallelism: u32,
    pub bootstrap_end_time: Time,
    pub data_directory: Name,
}

/// What was read of `general`.
#[derive(Drop)]
pub struct GeneralDraft {
    pub stop_time: Option<Time>,
    pub seed: Option<u32>,
    pub parallelism: Option<u32>,
    pub bootstrap_end_time: Option<Time>,
    pub data_directory: Option<Name>,
}

/// The data directory where none is given.
const DATA_DIRECTORY: &str = "shadow.data";

pub fn new_general() -> GeneralDraft
    ensures { result ≡ new_general }
{
    GeneralDraft {
        stop_time: None,
        seed: None,
        parallelism: None,
        bootstrap_end_time: None,
        data_directory: None,
    }
}

/// The stop time, which may be absent where it is overridden.
fn given_stop_time(
    alloc: Global,
    may_be_absent: bool,
    pair: &Pair,
) -> Result<Option<Time>, ConfigError>
    ensures { Gives result (given may_be_absent pair.now (stop_time_at pair.now)) }
{
    if may_be_absent && pair.value.is_null() {
        return Ok(None);
    }
    Ok(Some(read_stop_time(alloc, pair)?))
}

/// A text that isn't empty.
fn optional_directory(alloc: Global, pair: &Pair) -> Result<Option<Name>, ConfigError>
    ensures { Gives result (optional pair.now (text_with is_some_text pair.now)) }
{
    if pair.value.is_null() {
        return Ok(None);
    }
    let text = read_text(alloc, pair)?;
    checked(alloc, ConfigKind::BadValue, pair, !text.is_empty())?;
    Ok(Some(Name::from_str(alloc, text)?))
}

fn read_key(
    alloc: Global,
    overrides: &Overrides,
    key: Option<Key>,
    draft: &mut GeneralDraft,
    pair: &Pair,
) -> Result<(), ConfigError>
    ensures { Sets result draft.new (general_key overrides.now key draft.old pair.now) }
{
    match key {
        Some(Key::StopTime) => {
            let may_be_absent = overrides.stop_time.is_some();
            let stop_time = given_stop_time(alloc, may_be_absent, pair);
            set(&mut draft.stop_time, stop_time)
        }
        Some(Key::Seed) => set(&mut draft.seed, optional_u32(alloc, pair)),
        Some(Key::Parallelism) => set(&mut draft.parallelism, optional_u32(alloc, pair)),
        Some(Key::BootstrapEndTime) => {
            set(&mut draft.bootstrap_end_time, optional_time(alloc, pair))
        }
        Some(Key::DataDirectory) => {
            set(&mut draft.data_directory, optional_directory(alloc, pair))
        }
        Some(
            Key::LogLevel
            | Key::HeartbeatInterval
            | Key::Progress
            | Key::ModelUnblockedSyscallLatency,
        ) => check_scalar(alloc, pair),
        _ => Err(refused(alloc, ConfigKind::UnknownKey, pair)),
    }
}

fn read_pairs(
    alloc: Global,
    overrides: &Overrides,
    pairs: &[Pair],
) -> Result<GeneralDraft, ConfigError>
    ensures { Gives result (through (general_row overrides.now) new_general pairs.now) }
{
    let mut draft = new_general();
    for pair in pairs {
        read_key(
            alloc,
            overrides,
            key_of(pair.key.as_str()),
            &mut draft,
            pair,
        )?;
    }
    Ok(draft)
}

/// The name of an option of the command line, else the one that is given, else the default.
fn directory(alloc: Global, option: &Option<Name>, given: Option<Name>) -> Result<Name, NoMemory>
    ensures { IfOk result (λ name. name ≡ unwrap_or (overridden option.now given) (codes "shadow.data")) }
{
    if let Some(name) = option {
        return Ok(name.clone()?);
    }
    match given {
        Some(name) => Ok(name),
        None => Name::from_str(alloc, DATA_DIRECTORY),
    }
}

/// What `general` sets, with the defaults.
pub fn finish_general(
    alloc: Global,
    overrides: &Overrides,
    line: usize,
    draft: GeneralDraft,
) -> Result<General, ConfigError>
    ensures { Gives result (finished_general overrides.now line draft) }
{
    let stop_time = needed(
        alloc,
        "stop_time",
        line,
        overrides.stop_time.or(draft.stop_time),
    )?;
    Ok(General {
        stop_time,
        seed: overrides.seed.or(draft.seed).unwrap_or(1),
        parallelism: overrides.parallelism.or(draft.parallelism).unwrap_or(0),
        bootstrap_end_time: draft.bootstrap_end_time.unwrap_or(Time { nanos: 0 }),
        data_directory: directory(alloc, &overrides.data_directory, draft.data_directory)?,
    })
}

#[tactic(auto, unfolding(crate::specs::General::general_of))]
fn general_of(
    alloc: Global,
    overrides: &Overrides,
    line: usize,
    pairs: &[Pair],
) -> Result<General, ConfigError>
    ensures { Gives result (general_of overrides.now line pairs.now) }
{
    let draft = read_pairs(alloc, overrides, pairs)?;
    finish_general(alloc, overrides, mapping_line(line, pairs), draft)
}

/// Reads `general`.
#[tactic(auto, unfolding(crate::specs::General::general_at))]
pub fn read_general(
    alloc: Global,
    overrides: &Overrides,
    pair: &Pair,
) -> Result<General, ConfigError>
    ensures { Gives result (general_at overrides.now pair.now) }
{
    let pairs = read_mapping(alloc, pair)?;
    match general_of(alloc, overrides, pair.line, pairs) {
        Ok(general) => Ok(general),
        Err(error) => Err(below(alloc, pair.key.as_str(), error)),
    }
}
