//! Why a text has no tree.

ghost use Rattle.std.specs.Prelude.{◌≡◌};
ghost use Rattle.yaml_tree.specs.Fault.{word_of};

use sim_base::NoMemory;
use std::alloc::{AllocError, AllocFailed};

/// The kinds of fault. Where a token of a line can't stand, the first such one is `Syntax` or
/// `Unsupported`; where each can, the first that applies of the last four is told.
#[derive(Clone, Copy)]
pub enum FaultKind {
    /// The text isn't UTF-8.
    NotUtf8,
    /// A token stands where no rule admits it.
    Syntax,
    /// A part of YAML that the profile leaves out.
    Unsupported,
    /// A key stands twice in one mapping.
    Duplicate,
    /// An alias of a name that is unknown or not complete.
    Alias,
    /// Over 64 levels of collections.
    TooDeep,
    /// Over 1,000,000 nodes.
    TooManyNodes,
}

/// A fault, with the line (from 1) up to which the text is no accepted text.
#[derive(Clone, Copy)]
pub struct YamlFault {
    pub line: usize,
    pub kind: FaultKind,
}

/// Why no tree was made.
#[derive(Clone, Copy)]
pub enum TreeError {
    Fault(YamlFault),
    NoMemory,
}

impl FaultKind {
    /// The words for messages.
    pub fn word(self) -> &'static str
        ensures { result.now ≡ word_of self }
    {
        match self {
            FaultKind::NotUtf8 => "not UTF-8",
            FaultKind::Syntax => "syntax",
            FaultKind::Unsupported => "unsupported",
            FaultKind::Duplicate => "duplicate key",
            FaultKind::Alias => "unknown alias",
            FaultKind::TooDeep => "too deep",
            FaultKind::TooManyNodes => "too many nodes",
        }
    }
}

impl From<NoMemory> for TreeError {
    ghost use Rattle.yaml_tree.specs.declared.fault.TreeError.TheVariants as tree;

    ghost from_gives = { λ _ e. e ≡ tree.NoMemory };

    fn from(_e: NoMemory) -> TreeError {
        TreeError::NoMemory
    }
}

/// Why a part of a line was refused.
#[derive(Clone, Copy)]
pub(crate) enum Stop {
    Fault(FaultKind),
    NoMemory,
}

impl From<NoMemory> for Stop {
    ghost use Rattle.yaml_tree.specs.declared.fault.Stop.TheVariants as stop;

    ghost from_gives = { λ _ e. e ≡ stop.NoMemory };

    fn from(_e: NoMemory) -> Stop {
        Stop::NoMemory
    }
}

impl From<AllocError> for Stop {
    ghost use Rattle.yaml_tree.specs.declared.fault.Stop.TheVariants as stop;

    ghost from_gives = { λ _ e. e ≡ stop.NoMemory };

    fn from(_e: AllocError) -> Stop {
        Stop::NoMemory
    }
}

impl<T: Drop> From<AllocFailed<T>> for Stop {
    ghost use Rattle.yaml_tree.specs.declared.fault.Stop.TheVariants as stop;

    ghost from_gives = { λ _ e. e ≡ stop.NoMemory };

    fn from(_e: AllocFailed<T>) -> Stop {
        Stop::NoMemory
    }
}
