//! A sink for the console and the files of a directory.

ghost use Rattle.std.specs.Prelude.{◌≡◌, ◌<◌, ◌≤◌, Option, length, not, take, option_map, IfSome, IfOk, OnErr};
ghost use Rattle.run_outside.specs.Sink.{Content, Begins, add};
ghost use Rattle.run_outside.specs.Tally.{CountsCall};
ghost use Rattle.run_outside.specs.declared.tally.Tally.{Tally};

use base_texts::Name;
use sim_base::NoMemory;
use std::alloc::{AllocError, AllocFailed};

/// Where bytes are put.
#[derive(Clone, PartialEq, Eq, Drop)]
pub enum SinkTarget {
    /// Standard output.
    Out,
    /// Standard error.
    Err,
    /// A file of the directory that was begun.
    File(Name),
}

/// Why a sink took nothing.
#[derive(Clone, Copy, Debug, PartialEq, Eq)]
pub enum WriteError {
    /// The outside failed. The sink's count of faults rose.
    Failed,
    NoMemory,
}

/// What the program writes to: standard output and error, and the files of one directory.
///
/// A call that answers an error changes no content.
pub trait Sink {
    /// What stands where, or none where it does not tell.
    ghost content: { Self → Option Content };

    /// How often the outside has failed, how many calls have answered an error, and how many were
    /// made since the last that did.
    ghost tally: { Self → Tally };

    /// Makes a directory without files, whose files are meant from then on. It answers false, and
    /// changes nothing, exactly where the directory is there.
    fn begin(&mut self, dir: &str) -> Result<bool, WriteError>
        ensures told { IfSome (content self.old) (λ c. IfOk result (λ made. made ≡ not (c.there dir.now))) }
        ensures made { Begins dir.now result (content self.old) (content self.new) }
        ensures count { CountsCall result (tally self.old) (tally self.new) };

    /// Adds the front of a piece to the end of a target, and answers how many bytes these were, at
    /// least one of a piece that is not empty. A file is made where it is not there, by an empty
    /// piece too.
    fn put(&mut self, target: &SinkTarget, piece: &[u8]) -> Result<usize, WriteError>
        ensures fits { IfOk result (λ n. n ≤ length piece.now) }
        ensures some { IfOk result (λ n. 0 < length piece.now → 0 < n) }
        ensures added { IfOk result (λ n. content self.new ≡ option_map (add target.now (take n piece.now)) (content self.old)) }
        ensures err { OnErr result (content self.new ≡ content self.old) }
        ensures count { CountsCall result (tally self.old) (tally self.new) };
}

impl From<NoMemory> for WriteError {
    ghost use Rattle.std.specs.Prelude.{◌≡◌};
    ghost use Rattle.run_outside.specs.declared.sink.WriteError.TheVariants as write_error;

    ghost from_gives = { λ _ e. e ≡ write_error.NoMemory };

    fn from(_e: NoMemory) -> WriteError {
        WriteError::NoMemory
    }
}

impl From<AllocError> for WriteError {
    ghost use Rattle.std.specs.Prelude.{◌≡◌};
    ghost use Rattle.run_outside.specs.declared.sink.WriteError.TheVariants as write_error;

    ghost from_gives = { λ _ e. e ≡ write_error.NoMemory };

    fn from(_e: AllocError) -> WriteError {
        WriteError::NoMemory
    }
}

impl<T: Drop> From<AllocFailed<T>> for WriteError {
    ghost use Rattle.std.specs.Prelude.{◌≡◌};
    ghost use Rattle.run_outside.specs.declared.sink.WriteError.TheVariants as write_error;

    ghost from_gives = { λ _ e. e ≡ write_error.NoMemory };

    fn from(_e: AllocFailed<T>) -> WriteError {
        WriteError::NoMemory
    }
}
