//! The texts of a configuration. Definitions and laws, and no code that runs.
#![tactic(auto)]

ghost use Rattle.std.specs.Prelude.{Bool, IfOk};
ghost use Rattle.yaml_tree.specs.Said.{Said};
ghost use Rattle.yaml_merge.specs.Plainness.{IsPlain};
ghost use Rattle.shd_config.specs.Config.{config};
ghost use Rattle.shd_config.specs.declared.overrides.Overrides.{Overrides};
ghost use Rattle.config_texts.specs.Texts.{HasTexts};

/// The names of hosts and the texts of processes that are read of a plain tree are UTF-8.
pub fn texts_are_utf8()
    ensures { (o : Overrides) (empty : Bool) (tree : Said) → IsPlain tree → IfOk (config o empty tree) HasTexts }
{}
