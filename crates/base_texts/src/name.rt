//! The name of a host, a file or a directory.

ghost use Rattle.std.specs.Prelude.{◌≡◌, ◌==◌, ◌↔◌, List, ℕ, [], length, string_bytes, IfOk, IsTrue};
ghost use Rattle.std.proofs.Common.{rules};
ghost use Rattle.std.specs.Cmp.Lexicographic.{pointwise};
ghost use Rattle.std.specs.Cmp.Rules.{comparing};

use sim_base::NoMemory;
use std::alloc::{AllocError, Global};
use std::marker::Model;

/// A name in UTF-8, which contracts see as the list of its bytes.
pub struct Name {
    name: String,
}

/// By hand: a derived one would be proved anew in each crate that drops such a value.
impl Drop for Name {
    fn drop(self) {
        let Name { name } = self;
        drop(name);
    }
}

impl Model for Name {
    ghost Value = { List ℕ };

    ghost view = { λ t. string_bytes t.name };
}

impl Name {
    pub fn new(alloc: Global) -> Name
        ensures { result ≡ [] }
    {
        Name {
            name: String::new(alloc),
        }
    }

    pub fn from_str(alloc: Global, name: &str) -> Result<Name, NoMemory>
        ensures { IfOk result (λ t. t ≡ name.now) }
    {
        Ok(Name {
            name: String::from_str(alloc, name)?,
        })
    }

    pub fn as_str(&self) -> &str
        ensures { result.now ≡ self.now }
    {
        self.name.as_str()
    }

    pub fn as_bytes(&self) -> &[u8]
        ensures { result.now ≡ self.now }
    {
        self.name.as_bytes()
    }

    pub fn len(&self) -> usize
        ensures { result ≡ length self.now }
    {
        self.name.len()
    }

    pub fn is_empty(&self) -> bool
        ensures { IsTrue result ↔ (self.now ≡ []) }
    {
        self.name.is_empty()
    }

    /// Gives the string back without taking memory.
    pub fn into_string(self) -> String
        ensures { string_bytes result ≡ self }
    {
        let Name { name } = self;
        name
    }
}

impl From<String> for Name {
    ghost from_gives = { λ s t. t ≡ string_bytes s };

    fn from(name: String) -> Name {
        Name { name }
    }
}

impl Clone for Name {
    ghost is_clone = { λ a b. b ≡ a };

    fn clone(&self) -> Result<Name, AllocError> {
        Ok(Name {
            name: self.name.clone()?,
        })
    }
}

impl PartialEq for Name {
    ghost eq = { pointwise ◌==◌ };

    ghost laws = { Prim.search (comparing, rules) };

    fn eq(&self, other: &Name) -> bool {
        self.name == other.name
    }
}

impl Eq for Name {
    ghost laws = { Prim.search (comparing, rules) };
}
