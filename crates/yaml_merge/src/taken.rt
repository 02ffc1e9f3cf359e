//! The keys of pairs that a mapping took from others.

ghost use Rattle.std.specs.Prelude.{◌≡◌, ◌++◌, [], not, IfOk};
ghost use Rattle.yaml_merge.specs.Merge.{has};
ghost use Rattle.yaml_merge.specs.inside.Held.{keys_in};
ghost use Rattle.yaml_merge.specs.inside.Merging.{with_key};

use indexmap::IndexSet;
use sim_base::NoMemory;
use std::alloc::Global;
use std::marker::Model;
use yaml_tree::{Entries, Scalar, TextHashers};

/// Keys, which contracts see as a list.
#[derive(Drop)]
pub(crate) struct Taken {
    alloc: Global,
    keys: IndexSet<Scalar, TextHashers>,
}

impl Model for Taken {
    ghost use Rattle.std.specs.Prelude.{ℕ, List};

    ghost Value = { List (List ℕ) };

    ghost view = { λ t. t.keys.keys };
}

impl Taken {
    pub fn new(alloc: Global, hashers: TextHashers) -> Taken
        ensures { result ≡ [] }
    {
        Taken {
            alloc,
            keys: IndexSet::with_hasher(alloc, hashers),
        }
    }

    /// Takes a key that neither the mapping has itself nor was taken, and tells whether it did.
    #[tactic(auto, using(crate::proofs::MergingLaws::has_either, crate::proofs::MergingLaws::with_key_behind))]
    pub fn take(&mut self, own: &Entries, key: &str) -> Result<bool, NoMemory>
        ensures new { IfOk result (λ new. new ≡ not (has key.now (keys_in own.now ++ self.old))) }
        ensures keys { IfOk result (λ new. keys_in own.now ++ self.new ≡ with_key (keys_in own.now ++ self.old) key.now) }
    {
        let key = Scalar::from_slice(self.alloc, key.as_bytes())?;
        if own.contains(&key) {
            return Ok(false);
        }
        let (_, new) = self.keys.insert_full(key)?;
        Ok(new)
    }
}
