//! The notes of a configuration.

ghost use Rattle.std.specs.Prelude.{◌≡◌, ◌++◌, IfOk};
ghost use Rattle.std.specs.List.{flat_map};
ghost use Rattle.shd_config.specs.Notes.{general_has_no_effect, option_has_no_effect, path_behind, held, general_note, option_note, experimental_note, host_notes, hosts_notes, pair_notes, notes};

use crate::key::{Key, key_of};
use base_texts::Text;
use shd_values::Texts;
use sim_base::NoMemory;
use std::alloc::Global;
use yaml_merge::Pair;

fn general_has_no_effect(key: Option<Key>) -> bool
    ensures { result ≡ general_has_no_effect key }
{
    matches!(
        key,
        Some(
            Key::LogLevel
                | Key::HeartbeatInterval
                | Key::Progress
                | Key::ModelUnblockedSyscallLatency
        )
    )
}

fn option_has_no_effect(key: Option<Key>) -> bool
    ensures { result ≡ option_has_no_effect key }
{
    matches!(key, Some(Key::LogLevel))
}

/// The pairs of the value of a pair, if it is a mapping.
fn pairs_of(pair: &Pair) -> &[Pair]
    ensures { result.now ≡ held pair.now }
{
    match pair.value.as_mapping() {
        Some(pairs) => pairs,
        None => &[],
    }
}

/// The path of a key below another.
fn path_behind(alloc: Global, front: &str, pair: &Pair) -> Result<Text, NoMemory>
    ensures { IfOk result (λ text. text ≡ path_behind front.now pair.now) }
{
    let key = pair.key.as_str();
    Ok(Text::from(format!(in alloc; "{front}.{key}")?))
}

fn general_notes(
    alloc: Global,
    notes: Texts,
    front: &str,
    pairs: &[Pair],
) -> Result<Texts, NoMemory>
    ensures { IfOk result (λ all. all ≡ notes ++ flat_map (general_note front.now) pairs.now) }
{
    let mut notes = notes;
    for pair in pairs {
        if general_has_no_effect(key_of(pair.key.as_str())) && !pair.value.is_null() {
            notes.push(path_behind(alloc, front, pair)?)?;
        }
    }
    Ok(notes)
}

fn option_notes(alloc: Global, notes: Texts, front: &str, pairs: &[Pair]) -> Result<Texts, NoMemory>
    ensures { IfOk result (λ all. all ≡ notes ++ flat_map (option_note front.now) pairs.now) }
{
    let mut notes = notes;
    for pair in pairs {
        if option_has_no_effect(key_of(pair.key.as_str())) && !pair.value.is_null() {
            notes.push(path_behind(alloc, front, pair)?)?;
        }
    }
    Ok(notes)
}

fn experimental_notes(
    alloc: Global,
    notes: Texts,
    front: &str,
    pairs: &[Pair],
) -> Result<Texts, NoMemory>
    ensures { IfOk result (λ all. all ≡ notes ++ flat_map (experimental_note front.now) pairs.now) }
{
    let mut notes = notes;
    for pair in pairs {
        notes.push(path_behind(alloc, front, pair)?)?;
    }
    Ok(notes)
}

/// The notes of a host, whose path is given.
fn host_notes(alloc: Global, notes: Texts, front: &str, pairs: &[Pair]) -> Result<Texts, NoMemory>
    ensures { IfOk result (λ all. all ≡ notes ++ flat_map (host_notes front.now) pairs.now) }
{
    let mut notes = notes;
    for pair in pairs {
        if let Some(Key::HostOptions) = key_of(pair.key.as_str()) {
            let path = path_behind(alloc, front, pair)?;
            notes = option_notes(alloc, notes, path.as_str(), pairs_of(pair))?;
        }
    }
    Ok(notes)
}

fn hosts_notes(alloc: Global, notes: Texts, front: &str, pairs: &[Pair]) -> Result<Texts, NoMemory>
    ensures { IfOk result (λ all. all ≡ notes ++ flat_map (hosts_notes front.now) pairs.now) }
{
    let mut notes = notes;
    for pair in pairs {
        let path = path_behind(alloc, front, pair)?;
        notes = host_notes(alloc, notes, path.as_str(), pairs_of(pair))?;
    }
    Ok(notes)
}

/// The notes of a pair of the root.
fn pair_notes(alloc: Global, notes: Texts, pair: &Pair) -> Result<Texts, NoMemory>
    ensures { IfOk result (λ all. all ≡ notes ++ pair_notes pair.now) }
{
    let front = pair.key.as_str();
    let pairs = pairs_of(pair);
    match key_of(front) {
        Some(Key::General) => general_notes(alloc, notes, front, pairs),
        Some(Key::Experimental) => experimental_notes(alloc, notes, front, pairs),
        Some(Key::HostOptionDefaults) => option_notes(alloc, notes, front, pairs),
        Some(Key::Hosts) => hosts_notes(alloc, notes, front, pairs),
        _ => Ok(notes),
    }
}

/// The notes of the pairs of the root.
#[tactic(auto, unfolding(crate::specs::Notes::notes))]
pub fn notes_of(alloc: Global, pairs: &[Pair]) -> Result<Texts, NoMemory>
    ensures { IfOk result (λ all. all ≡ notes pairs.now) }
{
    let mut notes = Texts::new(alloc);
    for pair in pairs {
        notes = pair_notes(alloc, notes, pair)?;
    }
    Ok(notes)
}
