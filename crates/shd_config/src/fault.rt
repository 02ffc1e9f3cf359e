//! Why a tree has no configuration.

ghost use Rattle.std.specs.Prelude.{◌≡◌};
ghost use Rattle.shd_config.specs.Fault.{word_of};

use base_texts::Text;
use sim_base::NoMemory;
use std::alloc::{AllocError, AllocFailed};

/// The kinds of fault.
#[derive(Clone, Copy)]
pub enum ConfigKind {
    /// A key that is needed is absent.
    Missing,
    /// The mapping has no such key.
    UnknownKey,
    /// A mapping, a sequence, a scalar or a null stands in another's place.
    WrongType,
    /// A value is of its grammar, but not in its range.
    OutOfRange,
    /// A scalar or a host's name isn't of its grammar, or a key excludes another.
    BadValue,
    /// A value that the profile leaves out.
    Unsupported,
}

/// A fault: the line (from 1) and the path of what is wrong, as `hosts.a.processes[0].path`. At the
/// root the path is empty.
#[derive(Drop)]
pub struct ConfigFault {
    pub line: usize,
    pub path: Text,
    pub kind: ConfigKind,
}

/// Why no configuration was made.
#[derive(Drop)]
pub enum ConfigError {
    Fault(ConfigFault),
    NoMemory,
}

impl ConfigKind {
    /// The words for messages.
    pub fn word(self) -> &'static str
        ensures { result.now ≡ word_of self }
    {
        match self {
            ConfigKind::Missing => "missing",
            ConfigKind::UnknownKey => "unknown key",
            ConfigKind::WrongType => "wrong type",
            ConfigKind::OutOfRange => "out of range",
            ConfigKind::BadValue => "bad value",
            ConfigKind::Unsupported => "unsupported",
        }
    }
}

impl From<NoMemory> for ConfigError {
    ghost use Rattle.std.specs.Prelude.{◌≡◌};
    ghost use Rattle.shd_config.specs.declared.fault.ConfigError.TheVariants as errors;

    ghost from_gives = { λ _ e. e ≡ errors.NoMemory };

    fn from(_e: NoMemory) -> ConfigError {
        ConfigError::NoMemory
    }
}

impl From<AllocError> for ConfigError {
    ghost use Rattle.std.specs.Prelude.{◌≡◌};
    ghost use Rattle.shd_config.specs.declared.fault.ConfigError.TheVariants as errors;

    ghost from_gives = { λ _ e. e ≡ errors.NoMemory };

    fn from(_e: AllocError) -> ConfigError {
        ConfigError::NoMemory
    }
}

impl<T: Drop> From<AllocFailed<T>> for ConfigError {
    ghost use Rattle.std.specs.Prelude.{◌≡◌};
    ghost use Rattle.shd_config.specs.declared.fault.ConfigError.TheVariants as errors;

    ghost from_gives = { λ _ e. e ≡ errors.NoMemory };

    fn from(_e: AllocFailed<T>) -> ConfigError {
        ConfigError::NoMemory
    }
}
