//! Laws of the definitions.

ghost use Rattle.std.specs.Prelude.{◌≡◌, false, Ok};
ghost use Rattle.yaml_tree.specs.Said.{Said};
ghost use Rattle.yaml_merge.specs.Merge.{has_merge_key, merged};

/// A merged tree has no merge key.
pub fn no_merge_key()
    ensures { (tree after : Said) → merged tree ≡ Ok after → has_merge_key after ≡ false }
{}

/// Merging a merged tree changes nothing.
pub fn merged_once()
    ensures { (tree after : Said) → merged tree ≡ Ok after → merged after ≡ Ok after }
{}
