//! A law of the tree of a text. Proofs, and no code that runs.
#![tactic(auto)]

ghost use Rattle.std.specs.Prelude.{ℕ, List};
ghost use Rattle.yaml_tree.specs.Said.{Said};
ghost use Rattle.yaml_tree.specs.Tree.{IsTreeOf};
ghost use Rattle.yaml_merge.specs.Plainness.{IsPlain};

/// The tree of a text is plain: each of its texts is UTF-8, and no mapping has a key twice.
pub fn trees_plain()
    ensures { (text : List ℕ) (tree : Said) → IsTreeOf text tree → IsPlain tree }
{}
