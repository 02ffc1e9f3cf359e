//! The key `expected_final_state`.

ghost use Rattle.std.specs.Prelude.{◌≡◌, is_some};
ghost use Rattle.shd_config.specs.Steps.{Gives, Sets, optional, through};
ghost use Rattle.shd_config.specs.Process.{new_state, state_alone, state_key, state_row, ended_state, state_of, running_state, state_at};

use crate::fault::{ConfigError, ConfigKind};
use crate::key::{Key, key_of};
use crate::optional::{optional_signal, optional_u8};
use crate::setting::set;
use crate::steps::{below, checked, mapping_line, needed, refused, valued};
use crate::value::read_text;
use host_rows::FinalState;
use sim_base::Signal;
use std::alloc::Global;
use yaml_merge::Pair;

/// What was read of a state.
#[derive(Clone, Copy)]
pub struct StateDraft {
    pub exited: Option<u8>,
    pub signaled: Option<Signal>,
}

/// Whether a key may be given beside the other.
fn check_alone(alloc: Global, other: bool, pair: &Pair) -> Result<(), ConfigError>
    ensures { Gives result (state_alone other pair.now) }
{
    let alone = pair.value.is_null() || !other;
    checked(alloc, ConfigKind::BadValue, pair, alone)
}

fn read_key(
    alloc: Global,
    key: Option<Key>,
    draft: &mut StateDraft,
    pair: &Pair,
) -> Result<(), ConfigError>
    ensures { Sets result draft.new (state_key key draft.old pair.now) }
{
    match key {
        Some(Key::Exited) => {
            check_alone(alloc, draft.signaled.is_some(), pair)?;
            set(&mut draft.exited, optional_u8(alloc, pair))
        }
        Some(Key::Signaled) => {
            check_alone(alloc, draft.exited.is_some(), pair)?;
            set(&mut draft.signaled, optional_signal(alloc, pair))
        }
        _ => Err(refused(alloc, ConfigKind::UnknownKey, pair)),
    }
}

fn read_pairs(alloc: Global, pairs: &[Pair]) -> Result<StateDraft, ConfigError>
    ensures { Gives result (through state_row new_state pairs.now) }
{
    let mut draft = StateDraft {
        exited: None,
        signaled: None,
    };
    for pair in pairs {
        read_key(alloc, key_of(pair.key.as_str()), &mut draft, pair)?;
    }
    Ok(draft)
}

fn ended_state(
    alloc: Global,
    line: usize,
    exited: Option<u8>,
    signaled: Option<Signal>,
) -> Result<FinalState, ConfigError>
    ensures { Gives result (ended_state line exited signaled) }
{
    match exited {
        Some(status) => Ok(FinalState::Exited(status)),
        None => Ok(FinalState::Signaled(needed(alloc, "exited", line, signaled)?)),
    }
}

#[tactic(auto, unfolding(crate::specs::Process::state_of))]
fn state_of(alloc: Global, line: usize, pairs: &[Pair]) -> Result<FinalState, ConfigError>
    ensures { Gives result (state_of line pairs.now) }
{
    let draft = read_pairs(alloc, pairs)?;
    ended_state(
        alloc,
        mapping_line(line, pairs),
        draft.exited,
        draft.signaled,
    )
}

fn running_state(text: &str) -> Option<FinalState>
    ensures { result ≡ running_state text.now }
{
    if text == "running" {
        Some(FinalState::Running)
    } else {
        None
    }
}

/// Reads a final state: `{exited: STATUS}`, `{signaled: SIGNAL}` or `running`.
#[tactic(auto, unfolding(crate::specs::Process::state_at))]
fn read_state(alloc: Global, pair: &Pair) -> Result<FinalState, ConfigError>
    ensures { Gives result (state_at pair.now) }
{
    match pair.value.as_mapping() {
        Some(pairs) => match state_of(alloc, pair.line, pairs) {
            Ok(state) => Ok(state),
            Err(error) => Err(below(alloc, pair.key.as_str(), error)),
        },
        None => {
            let text = read_text(alloc, pair)?;
            valued(alloc, ConfigKind::BadValue, pair, running_state(text))
        }
    }
}

/// Reads a final state that may be absent.
pub fn optional_state(alloc: Global, pair: &Pair) -> Result<Option<FinalState>, ConfigError>
    ensures { Gives result (optional pair.now (state_at pair.now)) }
{
    if pair.value.is_null() {
        return Ok(None);
    }
    Ok(Some(read_state(alloc, pair)?))
}
