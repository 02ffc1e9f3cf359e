//! Why bytes are no capture.

ghost use Rattle.std.specs.Prelude.{◌≡◌};
ghost use Rattle.pcap_text.specs.Fault.{word_of};
ghost use Rattle.pcap_text.specs.declared.fault.PcapError.TheVariants as errors;

use sim_base::NoMemory;
use std::alloc::{AllocError, AllocFailed};

/// What is wrong with the bytes.
#[derive(Clone, Copy)]
pub enum PcapKind {
    /// The head, a record's head or a record's bytes pass the end.
    Truncated,
    /// The file doesn't begin with a magic number of a little-endian capture.
    Magic,
    /// The version isn't 2.4.
    Version,
    /// The link type isn't LINKTYPE_RAW.
    Link,
    /// A time before 2000-01-01 00:00:00 UTC, or a fraction of a second or more.
    Time,
    /// More bytes are kept than the packet had, or than the capture size.
    Length,
}

/// The first fault of a capture, and the offset of the head or the record that has it.
#[derive(Clone, Copy)]
pub struct PcapFault {
    /// In bytes from the beginning of the file.
    pub at: u64,
    pub kind: PcapKind,
}

/// Why a capture wasn't read.
#[derive(Clone, Copy)]
pub enum PcapError {
    /// The bytes have this fault.
    Fault(PcapFault),
    /// Memory ran out.
    NoMemory,
}

impl PcapKind {
    /// The fault of this kind at an offset.
    pub(crate) fn at(self, at: usize) -> PcapError
        ensures { result ≡ errors.Fault (record { at = at; kind = self }) }
    {
        PcapError::Fault(PcapFault {
            at: at as u64,
            kind: self,
        })
    }

    /// The word for messages.
    pub fn word(self) -> &'static str
        ensures { result.now ≡ word_of self }
    {
        match self {
            PcapKind::Truncated => "truncated",
            PcapKind::Magic => "magic",
            PcapKind::Version => "version",
            PcapKind::Link => "link",
            PcapKind::Time => "time",
            PcapKind::Length => "length",
        }
    }
}

impl From<NoMemory> for PcapError {
    ghost from_gives = { λ _ e. e ≡ errors.NoMemory };

    fn from(_e: NoMemory) -> PcapError {
        PcapError::NoMemory
    }
}

impl From<AllocError> for PcapError {
    ghost from_gives = { λ _ e. e ≡ errors.NoMemory };

    fn from(_e: AllocError) -> PcapError {
        PcapError::NoMemory
    }
}

impl<T: Drop> From<AllocFailed<T>> for PcapError {
    ghost from_gives = { λ _ e. e ≡ errors.NoMemory };

    fn from(_e: AllocFailed<T>) -> PcapError {
        PcapError::NoMemory
    }
}
