//! The text of a scalar or of a key.

ghost use Rattle.std.specs.Prelude.{◌≡◌, ◌==◌, ◌↔◌, List, ℕ, [], Some, length, IfOk, IsTrue};
ghost use Rattle.std.proofs.Common.{rules};
ghost use Rattle.std.specs.Cmp.Lexicographic.{pointwise};
ghost use Rattle.std.specs.Cmp.Rules.{comparing, hashing};
ghost use Rattle.std.specs.Hash as fed;
ghost use Rattle.yaml_tokens.specs.inside.Kept.{bytes_of, text_of};

use crate::kept::Kept;
use std::alloc::{AllocError, Global};
use std::hash::{Hash, Hasher};
use std::marker::Model;

/// A text in UTF-8, which contracts see as the list of its bytes.
#[derive(Drop)]
pub struct Scalar {
    kept: Kept,
}

impl Model for Scalar {
    ghost use Rattle.std.specs.Prelude.{List, ℕ};

    ghost Value = { List ℕ };

    ghost use Rattle.yaml_tokens.specs.inside.Kept.{bytes_of};

    ghost view = { λ s. bytes_of s.kept };
}

impl Scalar {
    pub fn new() -> Scalar
        ensures { result ≡ [] }
    {
        Scalar {
            kept: Kept::Nothing,
        }
    }

    pub fn from_slice(alloc: Global, bytes: &[u8]) -> Result<Scalar, AllocError>
        ensures { IfOk result (λ s. s ≡ bytes.now) }
    {
        Ok(Scalar::of(Kept::from_slice(alloc, bytes)?))
    }

    pub fn from_vec(bytes: Vec<u8>) -> Result<Scalar, AllocError>
        ensures { IfOk result (λ s. s ≡ bytes.items) }
    {
        Ok(Scalar::of(Kept::from_vec(bytes)?))
    }

    pub(crate) fn of(kept: Kept) -> Scalar
        ensures { result ≡ bytes_of kept }
    {
        Scalar { kept }
    }

    pub fn as_slice(&self) -> &[u8]
        ensures { result.now ≡ self.now }
    {
        self.kept.as_slice()
    }

    pub(crate) fn into_kept(self) -> Kept
        ensures { text_of result ≡ Some self }
    {
        let Scalar { kept } = self;
        kept.or_empty()
    }
}

impl Clone for Scalar {
    ghost is_clone = { λ a b. b ≡ a };

    fn clone(&self) -> Result<Scalar, AllocError> {
        Ok(Scalar {
            kept: self.kept.again()?,
        })
    }
}

impl PartialEq for Scalar {
    ghost eq = { pointwise ◌==◌ };

    ghost laws = { Prim.search (comparing, rules) };

    fn eq(&self, other: &Scalar) -> bool {
        self.as_slice() == other.as_slice()
    }
}

impl Eq for Scalar {
    ghost laws = { Prim.search (comparing, rules) };
}

impl Hash for Scalar {
    ghost hash_input = { fed.slice fed.u8 };

    ghost respects_eq = { Prim.search (hashing, rules) };

    fn hash<H: Hasher>(&self, state: &mut H) {
        self.as_slice().hash(state);
    }
}
