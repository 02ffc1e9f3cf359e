//! Why a tree can't be merged.

use base_texts::Text;
use sim_base::NoMemory;
use std::alloc::{AllocError, AllocFailed};

/// A merge key whose value is neither a mapping nor a sequence of mappings: the line of the key, and
/// its path, as `hosts.a.<<`.
#[derive(Drop)]
pub struct MergeFault {
    pub line: usize,
    pub path: Text,
}

/// Why no merged tree was made.
#[derive(Drop)]
pub enum MergeError {
    Fault(MergeFault),
    NoMemory,
}

impl From<NoMemory> for MergeError {
    ghost use Rattle.std.specs.Prelude.{◌≡◌};
    ghost use Rattle.yaml_merge.specs.declared.fault.MergeError.TheVariants as errors;

    ghost from_gives = { λ _ e. e ≡ errors.NoMemory };

    fn from(_e: NoMemory) -> MergeError {
        MergeError::NoMemory
    }
}

impl From<AllocError> for MergeError {
    ghost use Rattle.std.specs.Prelude.{◌≡◌};
    ghost use Rattle.yaml_merge.specs.declared.fault.MergeError.TheVariants as errors;

    ghost from_gives = { λ _ e. e ≡ errors.NoMemory };

    fn from(_e: AllocError) -> MergeError {
        MergeError::NoMemory
    }
}

impl<T: Drop> From<AllocFailed<T>> for MergeError {
    ghost use Rattle.std.specs.Prelude.{◌≡◌};
    ghost use Rattle.yaml_merge.specs.declared.fault.MergeError.TheVariants as errors;

    ghost from_gives = { λ _ e. e ≡ errors.NoMemory };

    fn from(_e: AllocFailed<T>) -> MergeError {
        MergeError::NoMemory
    }
}
