//! Why a command line is refused.

ghost use Rattle.std.specs.Prelude.{◌≡◌};

use crate::name::OptionName;
use sim_base::NoMemory;
use std::alloc::AllocError;

/// The first fault of a command line.
#[derive(Clone, Copy)]
pub enum WordsFault {
    /// The words are not of the command's form, or ask for help or a version; or not exactly one of
    /// CONFIG, `--self-load` and `--read-capture` is given.
    Usage,
    /// The value of this option is not of its form, or out of its range.
    BadOption(OptionName),
}

/// Why a command line was not read.
#[derive(Clone, Copy)]
pub enum WordsError {
    Refused(WordsFault),
    NoMemory,
}

impl From<WordsFault> for WordsError {
    ghost use Rattle.command_line.specs.declared.fault.WordsError.TheVariants as error;

    ghost from_gives = { λ fault e. e ≡ error.Refused fault };

    fn from(fault: WordsFault) -> WordsError {
        WordsError::Refused(fault)
    }
}

impl From<NoMemory> for WordsError {
    ghost use Rattle.command_line.specs.declared.fault.WordsError.TheVariants as error;

    ghost from_gives = { λ _ e. e ≡ error.NoMemory };

    fn from(_error: NoMemory) -> WordsError {
        WordsError::NoMemory
    }
}

impl From<AllocError> for WordsError {
    ghost use Rattle.command_line.specs.declared.fault.WordsError.TheVariants as error;

    ghost from_gives = { λ _ e. e ≡ error.NoMemory };

    fn from(_error: AllocError) -> WordsError {
        WordsError::NoMemory
    }
}
