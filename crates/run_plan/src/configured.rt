//! The configuration of a text.

ghost use Rattle.std.specs.Prelude.{◌≡◌, ◌≤◌, IfOk, IfErr};
ghost use Rattle.yaml_tokens.specs.Lines.{lines_of};
ghost use Rattle.yaml_tree.specs.Limits.{most_tree_levels};
ghost use Rattle.yaml_tree.specs.Said.{Said, levels};
ghost use Rattle.yaml_tree.specs.Tree.{IsTreeOf, is_empty_document};
ghost use Rattle.yaml_tree.specs.Trees.{Holds, is_empty};
ghost use Rattle.yaml_merge.specs.Plainness.{IsPlain};
ghost use Rattle.shd_config.specs.Config.{config};
ghost use Rattle.shd_config.specs.Limits.{MayOverride, IsWithinLimits};
ghost use Rattle.run_plan.specs.Configured.{tree_of, or_config_fault, configured};
ghost use Rattle.run_plan.specs.Names.{AreHostsApart};
ghost use Rattle.run_plan.specs.Reading.{gives, Stops, Meets};

use crate::fault::{Fault, ReadStop};
use base_texts::Name;
use shd_config::{Config, ConfigError, Overrides, config_of};
use std::alloc::Global;
use yaml_tree::{Tree, TreeError, read_tree};

/// The tree of the text of a file.
fn parse_tree(alloc: Global, file: &str, text: &[u8]) -> Result<Tree, ReadStop>
    ensures tree { IfOk result (λ tree. (said : Said) × IsTreeOf text.now said × Holds tree said) }
    ensures empty { IfOk result (λ tree. is_empty tree ≡ is_empty_document (lines_of text.now)) }
    ensures fault { IfErr result (Stops (tree_of file.now text.now)) }
{
    match read_tree(alloc, text) {
        Ok(tree) => Ok(tree),
        Err(TreeError::Fault(fault)) => {
            let file = Name::from_str(alloc, file)?;
            Err(ReadStop::Refused(Fault::Tree { file, fault }))
        }
        Err(TreeError::NoMemory) => Err(ReadStop::NoMemory),
    }
}

/// The configuration of a plain tree that the nodes hold, which stands in a file.
fn config_of_tree(
    alloc: Global,
    file: &str,
    tree: &Tree,
    overrides: &Overrides,
) -> Result<Config, ReadStop>
    requires { MayOverride overrides.now }
    ensures told { (said : Said) → Holds tree.now said → IsPlain said → levels said ≤ most_tree_levels → Meets (λ c. c) (gives (or_config_fault file.now (config overrides.now (is_empty tree.now) said))) result }
    ensures limits { IfOk result IsWithinLimits }
{
    match config_of(alloc, tree, overrides) {
        Ok(config) => Ok(config),
        Err(ConfigError::Fault(fault)) => {
            let file = Name::from_str(alloc, file)?;
            Err(ReadStop::Refused(Fault::Config { file, fault }))
        }
        Err(ConfigError::NoMemory) => Err(ReadStop::NoMemory),
    }
}

/// The configuration of the text of a file: its tree, and then what the tree says.
#[tactic(auto, unfolding(crate::specs::Configured::configured))]
pub fn configure(
    alloc: Global,
    file: &str,
    text: &[u8],
    overrides: &Overrides,
) -> Result<Config, ReadStop>
    requires { MayOverride overrides.now }
    ensures told { Meets (λ c. c) (configured file.now text.now overrides.now) result }
    ensures limits { IfOk result IsWithinLimits }
    ensures apart { IfOk result (λ c. AreHostsApart c.hosts) }
{
    let tree = parse_tree(alloc, file, text)?;
    config_of_tree(alloc, file, &tree, overrides)
}
