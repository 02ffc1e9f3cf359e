//! The entries of a mapping.

ghost use Rattle.std.specs.Prelude.{◌≡◌, ◌==◌, ◌++◌, ◌∷◌, ◌↔◌, List, ℕ, [], OnOk, IfOk, IsTrue};
ghost use Rattle.std.specs.Cmp.Lexicographic.{pointwise};
ghost use Rattle.yaml_tree.specs.declared.entries.Child.{Child};
ghost use Rattle.yaml_tree.specs.Entries.{has_key, with_entry};

use crate::hashing::{Hashing, TextHashers};
use indexmap::IndexMap;
use std::alloc::{AllocError, Global};
use std::marker::Model;
use yaml_tokens::Scalar;

/// What a key names: the line of the key, and the number of its value's node.
#[derive(Clone, Copy)]
pub struct Child {
    pub line: usize,
    pub node: u32,
}

/// The entries of a mapping in the order of its keys, which contracts see as a list of pairs.
#[derive(Drop)]
pub struct Entries {
    map: Box<IndexMap<Scalar, Child, TextHashers>>,
}

impl Model for Entries {
    ghost Value = { List (List ℕ × Child) };

    ghost view = { λ e. e.map.value.entries };
}

impl Entries {
    pub(crate) fn new(alloc: Global, hashing: &Hashing) -> Result<Entries, AllocError>
        ensures { IfOk result (λ entries. entries ≡ []) }
    {
        let map = IndexMap::with_hasher(alloc, hashing.hashers());
        Ok(Entries {
            map: Box::new(alloc, map)?,
        })
    }

    pub(crate) fn is_empty(&self) -> bool
        ensures { IsTrue result ↔ self.now ≡ [] }
    {
        self.map.is_empty()
    }

    pub fn contains(&self, key: &Scalar) -> bool
        ensures { result ≡ has_key key.now self.now }
    {
        self.map.contains_key(key)
    }

    pub fn insert(&mut self, key: Scalar, child: Child) -> Result<(), AllocError>
        ensures { OnOk result (self.new ≡ with_entry self.old key child) }
    {
        self.map.insert(key, child)?;
        Ok(())
    }

    pub fn as_map(&self) -> &IndexMap<Scalar, Child, TextHashers>
        ensures { result.now.entries ≡ self.now }
    {
        &self.map
    }
}
