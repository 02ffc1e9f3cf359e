//! The rights that accesses ask for.

ghost use Rattle.std.specs.Prelude.{◌≡◌};

use elf_load::Rights;

/// What an access asks of the pages that it touches.
#[derive(Clone, Copy)]
pub enum Right {
    Read,
    Write,
    Execute,
}

impl Right {
    ghost use Rattle.guest_mem.specs.Memory.{permits};

    /// Whether this right is among `rights`.
    #[inline]
    pub(crate) fn is_among(self, rights: Rights) -> bool
        ensures { result ≡ permits self rights }
    {
        match self {
            Right::Read => rights.read,
            Right::Write => rights.write,
            Right::Execute => rights.execute,
        }
    }
}
