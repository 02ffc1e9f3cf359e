//! Why a file is no program image.

ghost use Rattle.std.specs.Prelude.{◌≡◌};
ghost use Rattle.elf_load.specs.Fault.{word_of};
ghost use Rattle.elf_load.specs.declared.fault.LoadError.TheVariants.{Fault, NoMemory};

use std::alloc::{AllocError, AllocFailed};

/// The fault of a file that is refused: the first in the order of the checks.
#[derive(Clone, Copy, Debug)]
pub enum ElfFault {
    /// The file ends before its ELF header, its program headers or a segment's bytes do.
    Truncated,
    /// The file does not begin with the ELF magic number.
    Magic,
    /// Not a 32-bit little-endian file.
    Class,
    /// Not for RISC-V.
    Machine,
    /// Not an executable, or its program headers are not of 32 bytes.
    Kind,
    /// Uses the compressed instructions, a floating-point ABI or the RVE ABI.
    Flags,
    /// More than 64 program headers, or a segment out of the room for programs.
    Range,
    /// Asks for an interpreter.
    Interp,
    /// Asks for dynamic linking.
    Dynamic,
    /// Two segments share a byte.
    Overlap,
    /// The entry is not a multiple of 4, or not in a page that may be executed.
    Entry,
}

impl ElfFault {
    /// The word for messages.
    pub fn word(self) -> &'static str
        ensures { result.now ≡ word_of self }
    {
        match self {
            ElfFault::Truncated => "truncated",
            ElfFault::Magic => "magic",
            ElfFault::Class => "class",
            ElfFault::Machine => "machine",
            ElfFault::Kind => "kind",
            ElfFault::Flags => "flags",
            ElfFault::Range => "range",
            ElfFault::Interp => "interp",
            ElfFault::Dynamic => "dynamic",
            ElfFault::Overlap => "overlap",
            ElfFault::Entry => "entry",
        }
    }
}

/// Why a load gave no image.
#[derive(Clone, Copy, Debug)]
pub enum LoadError {
    /// The file has this fault.
    Fault(ElfFault),
    /// Memory ran out.
    NoMemory,
}

impl From<ElfFault> for LoadError {
    ghost from_gives = { λ fault e. e ≡ Fault fault };

    fn from(fault: ElfFault) -> LoadError {
        LoadError::Fault(fault)
    }
}

impl From<AllocError> for LoadError {
    ghost from_gives = { λ _ e. e ≡ NoMemory };

    fn from(_error: AllocError) -> LoadError {
        LoadError::NoMemory
    }
}

impl<T: Drop> From<AllocFailed<T>> for LoadError {
    ghost from_gives = { λ _ e. e ≡ NoMemory };

    fn from(_error: AllocFailed<T>) -> LoadError {
        LoadError::NoMemory
    }
}
