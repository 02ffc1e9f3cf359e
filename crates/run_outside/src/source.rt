//! A source of files by name.

ghost use Rattle.std.specs.Prelude.{◌≡◌, ◌<◌, ◌≤◌, ℕ, List, Option, length, option_map, IfSome, IfNone, IfOk};
ghost use Rattle.run_outside.specs.Files.{Held};
ghost use Rattle.run_outside.specs.Source.{IsPiece, CountsReads};

use sim_base::NoMemory;
use std::alloc::{AllocError, AllocFailed};

/// Why a source gave nothing.
#[derive(Clone, Copy, Debug, PartialEq, Eq)]
pub enum ReadError {
    /// The outside failed. The source's count of faults rose.
    Failed,
    NoMemory,
}

/// What the program reads: files by name.
///
/// A source keeps what it holds: no call changes it.
pub trait Source {
    /// The bytes that it holds by name, or none where it does not tell.
    ghost held: { Self → Option Held };

    /// How often the outside has failed.
    ghost faults: { Self → ℕ };

    /// The length of a file in bytes, or none where it is not there.
    fn size(&mut self, name: &str) -> Result<Option<u64>, ReadError>
        ensures told { IfSome (held self.old) (λ files. IfOk result (λ size. size ≡ option_map length (files name.now))) }
        ensures same { held self.new ≡ held self.old }
        ensures count { CountsReads result (faults self.old) (faults self.new) };

    /// Reads the bytes from the place `at` on into the front of `into`, and answers how many these
    /// were. It reads at least one byte where there are more and `into` has room. After an error
    /// nothing is known of `into`.
    fn read(&mut self, name: &str, at: u64, into: &mut [u8]) -> Result<usize, ReadError>
        ensures fits { IfOk result (λ n. n ≤ length into.old) }
        ensures told { IfSome (held self.old)
            (λ files. IfOk result (λ n. IfSome (files name.now) (λ bytes. IsPiece bytes at n into.new))) }

        // A source that does not tell its bytes fails where a file ends too early.
        ensures untold { IfNone (held self.old) (IfOk result (λ n. 0 < length into.old → 0 < n)) }
        ensures same { held self.new ≡ held self.old }
        ensures count { CountsReads result (faults self.old) (faults self.new) };
}

impl From<NoMemory> for ReadError {
    ghost use Rattle.std.specs.Prelude.{◌≡◌};
    ghost use Rattle.run_outside.specs.declared.source.ReadError.TheVariants as read_error;

    ghost from_gives = { λ _ e. e ≡ read_error.NoMemory };

    fn from(_e: NoMemory) -> ReadError {
        ReadError::NoMemory
    }
}

impl From<AllocError> for ReadError {
    ghost use Rattle.std.specs.Prelude.{◌≡◌};
    ghost use Rattle.run_outside.specs.declared.source.ReadError.TheVariants as read_error;

    ghost from_gives = { λ _ e. e ≡ read_error.NoMemory };

    fn from(_e: AllocError) -> ReadError {
        ReadError::NoMemory
    }
}

impl<T: Drop> From<AllocFailed<T>> for ReadError {
    ghost use Rattle.std.specs.Prelude.{◌≡◌};
    ghost use Rattle.run_outside.specs.declared.source.ReadError.TheVariants as read_error;

    ghost from_gives = { λ _ e. e ≡ read_error.NoMemory };

    fn from(_e: AllocFailed<T>) -> ReadError {
        ReadError::NoMemory
    }
}
