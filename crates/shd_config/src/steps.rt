//! Faults, and where they stand.

ghost use Rattle.std.specs.Prelude.{◌≡◌, ◌++◌, IfOk, codes};
ghost use Rattle.std.specs.Fmt.{decimal};
ghost use Rattle.shd_config.specs.Steps.{IsFault, IsBelow, Gives, fault_at, valued, needed, checked, mapping_line};

use crate::fault::{ConfigError, ConfigFault, ConfigKind};
use base_texts::Text;
use sim_base::NoMemory;
use std::alloc::{AllocError, Global};
use yaml_merge::Pair;

/// A fault at a line and a path.
pub fn fault(alloc: Global, kind: ConfigKind, line: usize, path: &str) -> ConfigError
    ensures { IsFault result (record { line = line; path = path.now; kind = kind }) }
{
    match Text::from_str(alloc, path) {
        Ok(path) => ConfigError::Fault(ConfigFault { line, path, kind }),
        Err(NoMemory) => ConfigError::NoMemory,
    }
}

/// The fault of a pair.
pub fn refused(alloc: Global, kind: ConfigKind, pair: &Pair) -> ConfigError
    ensures { IsFault result (fault_at kind pair.now) }
{
    fault(alloc, kind, pair.line, pair.key.as_str())
}

fn join(alloc: Global, front: &str, path: &str) -> Result<Text, NoMemory>
    ensures { IfOk result (λ text. text ≡ front.now ++ (codes "." ++ path.now)) }
{
    Ok(Text::from(format!(in alloc; "{front}.{path}")?))
}

/// A fault below a path goes on behind it.
pub fn below(alloc: Global, front: &str, error: ConfigError) -> ConfigError
    ensures { IsBelow front.now error result }
{
    match error {
        ConfigError::Fault(fault) => match join(alloc, front, fault.path.as_str()) {
            Ok(path) => ConfigError::Fault(ConfigFault {
                line: fault.line,
                path,
                kind: fault.kind,
            }),
            Err(NoMemory) => ConfigError::NoMemory,
        },
        ConfigError::NoMemory => ConfigError::NoMemory,
    }
}

/// A value, or a fault of this kind where there is none.
pub fn valued<T>(
    alloc: Global,
    kind: ConfigKind,
    pair: &Pair,
    value: Option<T>,
) -> Result<T, ConfigError>
    ensures { Gives result (valued kind pair.now value) }
{
    match value {
        Some(value) => Ok(value),
        None => Err(refused(alloc, kind, pair)),
    }
}

/// The value of a key that a mapping on this line has to have.
pub fn needed<T>(alloc: Global, key: &str, line: usize, value: Option<T>) -> Result<T, ConfigError>
    ensures { Gives result (needed key.now line value) }
{
    match value {
        Some(value) => Ok(value),
        None => Err(fault(alloc, ConfigKind::Missing, line, key)),
    }
}

/// A fault where a test fails.
pub fn checked(
    alloc: Global,
    kind: ConfigKind,
    pair: &Pair,
    passes: bool,
) -> Result<(), ConfigError>
    ensures { Gives result (checked kind pair.now passes) }
{
    if passes {
        return Ok(());
    }
    Err(refused(alloc, kind, pair))
}

/// The line of a mapping: that of its first key, if it has one.
pub fn mapping_line(line: usize, pairs: &[Pair]) -> usize
    ensures { result ≡ mapping_line line pairs.now }
{
    match pairs {
        [] => line,
        [first, ..] => first.line,
    }
}

/// The path of an item, as `processes[0]`.
pub fn item_path(alloc: Global, key: &str, index: usize) -> Result<Text, AllocError>
    ensures { IfOk result (λ text. text ≡ key.now ++ (codes "[" ++ (decimal index ++ codes "]"))) }
{
    Ok(Text::from(format!(in alloc; "{key}[{index}]")?))
}
