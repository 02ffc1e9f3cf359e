//! How the keys and the names of a text are hashed.

use sha2::{Digest, Sha256};
use std::hash::{BuildHasher, DefaultHasher, Hasher};
use std::marker::Model;

/// Hashers of one text, which go on from the text's digest: who changes a key changes where each
/// key stands in a table, so that nobody can choose keys that meet there.
#[derive(Clone, Copy)]
pub struct TextHashers {
    first: DefaultHasher,
}

impl BuildHasher for TextHashers {
    type Hasher = DefaultHasher;

    ghost build_hasher = { λ h. h.first };

    fn build_hasher(&self) -> DefaultHasher {
        self.first
    }
}

/// The same, of which contracts see nothing, since no answer depends on it.
#[derive(Drop)]
pub(crate) struct Hashing {
    hashers: TextHashers,
}

impl Model for Hashing {
    ghost Value = { Unit {0} };

    ghost view = { λ h. tt };
}

impl Hashing {
    pub fn of(text: &[u8]) -> Hashing {
        let mut first = DefaultHasher::new();
        first.write(&Sha256::digest(text));
        Hashing {
            hashers: TextHashers { first },
        }
    }

    pub fn hashers(&self) -> TextHashers {
        self.hashers
    }
}
