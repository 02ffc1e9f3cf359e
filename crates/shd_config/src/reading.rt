//! The configuration of a tree.

ghost use Rattle.std.specs.Prelude.{◌≡◌, ◌≤◌, All, IfOk, is_some};
ghost use Rattle.shd_config.specs.Steps.{Gives, Sets, Passes, optional, given, mapping_line, through};
ghost use Rattle.yaml_tree.specs.Limits.{most_tree_levels};
ghost use Rattle.yaml_tree.specs.Said.{Said, levels};
ghost use Rattle.yaml_tree.specs.Trees.{Holds, is_empty};
ghost use Rattle.yaml_merge.specs.Plainness.{IsPlain};
ghost use Rattle.yaml_merge.specs.Merge.{merged};
ghost use Rattle.shd_config.specs.General.{general_at};
ghost use Rattle.shd_config.specs.Limits.{MayOverride, MayStop, IsSomeText, AreFewHosts, HasFewProcesses, HaveFewBytes};
ghost use Rattle.shd_config.specs.Config.{experimental_at, new_root, root_key, root_row, general_or, finished_root, root_of, is_passed_over, kept, wrong_merge, merged_config, config};

use crate::config::Config;
use crate::fault::{ConfigError, ConfigFault, ConfigKind};
use crate::general::{General, finish_general, new_general, read_general};
use crate::host::{HostsRead, complete_all, read_hosts};
use crate::key::{Key, key_of};
use crate::network::{Network, read_network};
use crate::notes::notes_of;
use crate::options::{HostOptions, no_options, optional_options};
use crate::overrides::Overrides;
use crate::setting::{set, set_or, set_some};
use crate::steps::{fault, needed, refused};
use crate::value::read_mapping;
use base_texts::Text;
use shd_values::Texts;
use std::alloc::Global;
use yaml_merge::{MergeError, Pair, Plain, merge};
use yaml_tree::Tree;

/// What was read of the root.
#[derive(Drop)]
pub struct RootDraft {
    pub general: Option<General>,
    pub network: Option<Network>,
    pub hosts: Option<HostsRead>,
    pub options: HostOptions,
}

/// `general`, which may be absent where the stop time is overridden.
fn given_general(
    alloc: Global,
    overrides: &Overrides,
    pair: &Pair,
) -> Result<Option<General>, ConfigError>
    ensures { Gives result (given (is_some overrides.now.stop_time) pair.now (general_at overrides.now pair.now)) }
{
    if overrides.stop_time.is_some() && pair.value.is_null() {
        return Ok(None);
    }
    Ok(Some(read_general(alloc, overrides, pair)?))
}

/// `experimental` is only looked at.
fn check_experimental(alloc: Global, pair: &Pair) -> Result<(), ConfigError>
    ensures { Passes result (optional pair.now (experimental_at pair.now)) }
{
    if pair.value.is_null() {
        return Ok(());
    }
    read_mapping(alloc, pair)?;
    Ok(())
}

fn read_key(
    alloc: Global,
    overrides: &Overrides,
    key: Option<Key>,
    draft: &mut RootDraft,
    pair: &Pair,
) -> Result<(), ConfigError>
    ensures { Sets result draft.new (root_key overrides.now key draft.old pair.now) }
{
    match key {
        Some(Key::General) => { set(&mut draft.general, given_general(alloc, overrides, pair)) }
        Some(Key::Network) => set_some(&mut draft.network, read_network(alloc, pair)),
        Some(Key::Hosts) => set_some(&mut draft.hosts, read_hosts(alloc, pair)),
        Some(Key::HostOptionDefaults) => {
            set_or(
                &mut draft.options,
                optional_options(alloc, pair),
                no_options(),
            )
        }
        Some(Key::Experimental) => check_experimental(alloc, pair),
        _ => Err(refused(alloc, ConfigKind::UnknownKey, pair)),
    }
}

fn new_root() -> RootDraft
    ensures { result ≡ new_root }
{
    RootDraft {
        general: None,
        network: None,
        hosts: None,
        options: no_options(),
    }
}

fn is_passed_over(pair: &Pair) -> bool
    ensures { result ≡ is_passed_over pair.now }
{
    pair.key.as_bytes().starts_with(b"x-".as_slice())
}

/// The line of the root: that of its first key that isn't passed over, if it has one.
fn root_line(line: usize, pairs: &[Pair]) -> usize
    ensures { result ≡ mapping_line line (kept pairs.now) }
{
    for pair in pairs {
        if !is_passed_over(pair) {
            return pair.line;
        }
    }
    line
}

fn read_row(
    alloc: Global,
    overrides: &Overrides,
    draft: &mut RootDraft,
    pair: &Pair,
) -> Result<(), ConfigError>
    ensures { Sets result draft.new (root_row overrides.now draft.old pair.now) }
{
    if is_passed_over(pair) {
        return Ok(());
    }
    read_key(alloc, overrides, key_of(pair.key.as_str()), draft, pair)
}

fn read_pairs(
    alloc: Global,
    overrides: &Overrides,
    pairs: &[Pair],
) -> Result<RootDraft, ConfigError>
    ensures { Gives result (through (root_row overrides.now) new_root pairs.now) }
{
    let mut draft = new_root();
    for pair in pairs {
        read_row(alloc, overrides, &mut draft, pair)?;
    }
    Ok(draft)
}

fn general_or(
    alloc: Global,
    overrides: &Overrides,
    line: usize,
    general: Option<General>,
) -> Result<General, ConfigError>
    ensures { Gives result (general_or overrides.now line general) }
{
    match general {
        Some(general) => Ok(general),
        None => {
            if overrides.stop_time.is_some() {
                return finish_general(alloc, overrides, line, new_general());
            }
            Err(fault(alloc, ConfigKind::Missing, line, "general"))
        }
    }
}

fn finish_root(
    alloc: Global,
    overrides: &Overrides,
    notes: Texts,
    line: usize,
    draft: RootDraft,
) -> Result<Config, ConfigError>
    ensures { Gives result (finished_root overrides.now notes line draft) }
{
    let general = general_or(alloc, overrides, line, draft.general)?;
    let network = needed(alloc, "network", line, draft.network)?;
    let hosts = needed(alloc, "hosts", line, draft.hosts)?;
    Ok(Config {
        stop_time: general.stop_time,
        seed: general.seed,
        parallelism: general.parallelism,
        bootstrap_end_time: general.bootstrap_end_time,
        data_directory: general.data_directory,
        graph: network.graph,
        use_shortest_path: network.use_shortest_path,
        router_queue: network.router_queue,
        hosts: complete_all(alloc, draft.options, hosts)?,
        notes,
    })
}

/// The configuration of the pairs of the root.
#[tactic(auto, unfolding(crate::specs::Config::root_of))]
fn root_of(
    alloc: Global,
    overrides: &Overrides,
    line: usize,
    pairs: &[Pair],
) -> Result<Config, ConfigError>
    ensures { Gives result (root_of overrides.now line pairs.now) }
{
    let draft = read_pairs(alloc, overrides, pairs)?;
    let notes = notes_of(alloc, pairs)?;
    finish_root(alloc, overrides, notes, root_line(line, pairs), draft)
}

/// The configuration of a merged tree, which may be that of an empty document.
fn merged_config(
    alloc: Global,
    overrides: &Overrides,
    empty: bool,
    tree: Plain,
) -> Result<Config, ConfigError>
    ensures { Gives result (merged_config overrides.now empty tree) }
{
    if empty {
        return root_of(alloc, overrides, 1, &[]);
    }
    let line = tree.line();
    let root = Pair {
        line,
        key: Text::new(alloc),
        value: tree,
    };
    let pairs = read_mapping(alloc, &root)?;
    root_of(alloc, overrides, line, pairs)
}

/// The merged tree of a plain tree that the nodes hold.
fn merged_tree(alloc: Global, tree: &Tree) -> Result<Plain, ConfigError>
    ensures { (said : Said) → Holds tree.now said → IsPlain said → levels said ≤ most_tree_levels → Gives result (wrong_merge (merged said)) }
{
    match merge(alloc, tree) {
        Ok(tree) => Ok(tree),
        Err(MergeError::Fault(fault)) => Err(ConfigError::Fault(ConfigFault {
            line: fault.line,
            path: fault.path,
            kind: ConfigKind::WrongType,
        })),
        Err(MergeError::NoMemory) => Err(ConfigError::NoMemory),
    }
}

/// The configuration of a plain tree that the nodes hold, or its first fault in document order.
#[tactic(auto, unfolding(crate::specs::Config::config))]
pub fn config_of(alloc: Global, tree: &Tree, overrides: &Overrides) -> Result<Config, ConfigError>
    requires { MayOverride overrides.now }
    ensures told { (said : Said) → Holds tree.now said → IsPlain said → levels said ≤ most_tree_levels → Gives result (config overrides.now (is_empty tree.now) said) }

    // A configuration keeps to its limits.
    ensures few { IfOk result (λ c. AreFewHosts c.hosts) }
    ensures processes { IfOk result (λ c. All HasFewProcesses c.hosts) }
    ensures texts { IfOk result (λ c. All HaveFewBytes c.hosts) }
    ensures stop { IfOk result (λ c. MayStop c.stop_time) }
    ensures directory { IfOk result (λ c. IsSomeText c.data_directory) }
{
    let merged = merged_tree(alloc, tree)?;
    merged_config(alloc, overrides, tree.is_empty(), merged)
}
