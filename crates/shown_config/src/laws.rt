//! Laws of the text that shows a configuration.

ghost use Rattle.std.specs.Prelude.{◌≡◌, ℕ, List, Bool, Ok};
ghost use Rattle.yaml_tree.specs.Said.{Said};
ghost use Rattle.yaml_tree.specs.Tree.{IsTreeOf};
ghost use Rattle.yaml_merge.specs.Plainness as trees;
ghost use Rattle.shd_config.specs.Config.{config};
ghost use Rattle.shd_config.specs.declared.config.Config.{Config};
ghost use Rattle.shd_config.specs.declared.overrides.Overrides.{Overrides};
ghost use Rattle.shown_config.specs.Plain.{IsPlain};
ghost use Rattle.shown_config.specs.Same.{AreOverrides, ReadsBack};

/// The text that shows the configuration of a text, whatever is overridden, gives the configuration again.
pub fn shown_again()
    ensures { (text : List ℕ) (tree : Said) (o : Overrides) (empty : Bool) (c : Config) → IsTreeOf text tree → AreOverrides o → config o empty tree ≡ Ok c → ReadsBack c }
{}

/// The configuration of a plain tree is plain.
pub fn configurations_plain()
    ensures { (tree : Said) (o : Overrides) (empty : Bool) (c : Config) → trees.IsPlain tree → AreOverrides o → config o empty tree ≡ Ok c → IsPlain c }
{}

/// The text that shows a plain configuration gives it again.
pub fn plain_shown()
    ensures { (c : Config) → IsPlain c → ReadsBack c }
{}
