//! Why a text has no graph.

ghost use Rattle.std.specs.Prelude.{◌≡◌};
ghost use Rattle.gml_graph.specs.declared.fault.GmlError.TheVariants as errors;
ghost use Rattle.gml_graph.specs.Fault.{word_of};

use std::alloc::{AllocError, AllocFailed};

/// What is wrong with a text.
#[derive(Clone, Copy)]
pub enum GmlKind {
    /// Some byte breaks UTF-8.
    NotUtf8,
    /// A token stands where none of its kind can, or the text ends too early.
    Syntax,
    /// There is no `graph`, or a node or an edge lacks an attribute that it needs.
    Missing,
    /// A second `graph`, a known attribute given twice, or the id of another node.
    Duplicate,
    /// No node has the id that an edge names.
    UnknownNode,
    /// A latency of 0.
    ZeroLatency,
    /// A loss outside 0 to 1.
    Loss,
    /// Any other value that isn't of its attribute's kind and range.
    BadValue,
    /// More than 4,096 nodes or 65,536 edges.
    TooMany,
}

/// The first fault of a text, with its line, from 1.
#[derive(Clone, Copy)]
pub struct GmlFault {
    pub line: u64,
    pub kind: GmlKind,
}

/// Why no graph was read.
#[derive(Clone, Copy)]
pub enum GmlError {
    /// The text has a fault.
    Fault(GmlFault),
    /// There was no memory for the graph.
    NoMemory,
}

impl GmlKind {
    /// The words for messages.
    pub fn word(self) -> &'static str
        ensures { result.now ≡ word_of self }
    {
        match self {
            GmlKind::NotUtf8 => "not UTF-8",
            GmlKind::Syntax => "syntax",
            GmlKind::Missing => "missing",
            GmlKind::Duplicate => "duplicate",
            GmlKind::UnknownNode => "unknown node",
            GmlKind::ZeroLatency => "zero latency",
            GmlKind::Loss => "loss out of range",
            GmlKind::BadValue => "bad value",
            GmlKind::TooMany => "too many",
        }
    }
}

impl From<GmlFault> for GmlError {
    ghost from_gives = { λ f e. e ≡ errors.Fault f };

    fn from(fault: GmlFault) -> GmlError {
        GmlError::Fault(fault)
    }
}

impl From<AllocError> for GmlError {
    ghost from_gives = { λ _ e. e ≡ errors.NoMemory };

    fn from(_e: AllocError) -> GmlError {
        GmlError::NoMemory
    }
}

impl<T: Drop> From<AllocFailed<T>> for GmlError {
    ghost from_gives = { λ _ e. e ≡ errors.NoMemory };

    fn from(_e: AllocFailed<T>) -> GmlError {
        GmlError::NoMemory
    }
}
