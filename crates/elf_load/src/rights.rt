//! What a guest may do with the bytes of a page.

ghost use Rattle.std.specs.Prelude.{◌≡◌};
ghost use Rattle.elf_load.specs.Rights.{no_rights, union};

/// The rights to load from, store to and execute a page.
#[derive(Clone, Copy)]
pub struct Rights {
    pub read: bool,
    pub write: bool,
    pub execute: bool,
}

impl Rights {
    /// No right at all.
    pub fn none() -> Rights
        ensures { result ≡ no_rights }
    {
        Rights {
            read: false,
            write: false,
            execute: false,
        }
    }

    /// The rights of either.
    pub(crate) fn union(self, other: Rights) -> Rights
        ensures { result ≡ union self other }
    {
        Rights {
            read: self.read || other.read,
            write: self.write || other.write,
            execute: self.execute || other.execute,
        }
    }
}
