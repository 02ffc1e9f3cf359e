//! Merging, node by node.

ghost use Rattle.std.specs.Prelude.{◌≡◌, ◌++◌, ℕ, [], not, ◌&&◌, Result, IfOk, ◌≤◌, if◌then◌else◌, codes, slice_get};
ghost use Rattle.std.specs.List.{list_all};
ghost use Rattle.std.specs.Option.{option_copied};
ghost use Rattle.yaml_tree.specs.Limits.{most_tree_levels};
ghost use Rattle.yaml_tree.specs.Said.{Said, levels};
ghost use Rattle.yaml_tree.specs.Said.Said.{sequence, mapping};
ghost use Rattle.yaml_tree.specs.Trees.{Holds, nodes_of};
ghost use Rattle.yaml_merge.specs.inside.Held.{HoldsPlain, valid_text, keys_in, is_mapping_value, is_mapping_at, may_merge_value};
ghost use Rattle.yaml_merge.specs.Rows.{with_pairs};
ghost use Rattle.yaml_merge.specs.Plainness.{IsPlain};
ghost use Rattle.yaml_merge.specs.Merge.{is_merge_key, may_merge, fault_below, item_place, with_merged, merged, new_pairs, keys_of};
ghost use Rattle.yaml_merge.specs.inside.Merging.{IsFault, IsBelow, Gives, ItemsMergeTo, EntriesMergeTo, ValueMergesTo, pairs_put};
ghost use Rattle.yaml_merge.specs.declared.fault.MergeFault.{MergeFault};

use crate::fault::{MergeError, MergeFault};
use crate::plain::{Pair, Plain};
use crate::taken::Taken;
use base_texts::Text;
use sim_base::NoMemory;
use std::alloc::Global;
use yaml_tree::{Child, Entries, Node, Scalar, Tree, Value};

/// Bytes as a text; those that aren't UTF-8 count as the empty text. No tree that was read has any.
fn valid_text(bytes: &[u8]) -> &str
    ensures { result.now ≡ valid_text bytes.now }
{
    match std::str::from_utf8(bytes) {
        Ok(text) => text,
        Err(_) => "",
    }
}

fn text_of(alloc: Global, scalar: &Scalar) -> Result<Text, NoMemory>
    ensures { IfOk result (λ text. text ≡ valid_text scalar.now) }
{
    Text::from_str(alloc, valid_text(scalar.as_slice()))
}

/// The node of a number, if it has one.
fn find(tree: &Tree, number: u32) -> Option<&Node>
    ensures { option_copied result ≡ slice_get (nodes_of tree.now) number }
{
    tree.nodes().get(number as usize)
}

fn is_mapping_value(value: &Value) -> bool
    ensures { result ≡ is_mapping_value value.now }
{
    matches!(value, Value::Mapping(_))
}

fn is_mapping(tree: &Tree, number: u32) -> bool
    ensures { result ≡ is_mapping_at (nodes_of tree.now) number }
{
    match find(tree, number) {
        Some(node) => is_mapping_value(&node.value),
        None => false,
    }
}

/// Whether all of these nodes are mappings.
fn are_mappings(tree: &Tree, numbers: &[u32]) -> bool
    ensures { result ≡ list_all (is_mapping_at (nodes_of tree.now)) numbers.now }
{
    numbers.iter().all(|number| is_mapping(tree, *number))
}

fn may_merge_value(tree: &Tree, value: &Value) -> bool
    ensures { result ≡ may_merge_value (nodes_of tree.now) value.now }
{
    match value {
        Value::Null | Value::Text(_) => false,
        Value::Sequence(numbers) => are_mappings(tree, numbers.as_slice()),
        Value::Mapping(_) => true,
    }
}

/// Whether a node is a mapping or a sequence of mappings.
fn may_merge(tree: &Tree, number: u32) -> bool
    ensures { (most : ℕ) (said : Said) → HoldsPlain most (nodes_of tree.now) number said → result ≡ may_merge said }
{
    match find(tree, number) {
        Some(node) => may_merge_value(tree, &node.value),
        None => false,
    }
}

fn is_merge_key(key: &str) -> bool
    ensures { result ≡ is_merge_key key.now }
{
    key == "<<"
}

/// The path of a fault below a place.
fn path_below(alloc: Global, place: &str, keyed: bool, path: &str) -> Result<Text, NoMemory>
    ensures { IfOk result (λ text. text ≡ place.now ++ (if keyed then codes "." else []) ++ path.now) }
{
    let mut text = Text::from_str(alloc, place)?;
    text.push_str(if keyed { "." } else { "" })?;
    text.push_str(path)?;
    Ok(text)
}

/// A fault below a node, of which the place is given, and whether it is a mapping.
fn below(alloc: Global, place: &str, keyed: bool, error: MergeError) -> MergeError
    ensures { IsBelow (fault_below place.now keyed) error result }
{
    match error {
        MergeError::Fault(fault) => match path_below(alloc, place, keyed, fault.path.as_str()) {
            Ok(path) => MergeError::Fault(MergeFault {
                line: fault.line,
                path,
            }),
            Err(NoMemory) => MergeError::NoMemory,
        },
        MergeError::NoMemory => MergeError::NoMemory,
    }
}

/// A fault below an item.
fn below_item(alloc: Global, index: usize, keyed: bool, error: MergeError) -> MergeError
    ensures { IsBelow (fault_below (item_place index) keyed) error result }
{
    match format!(in alloc; "[{index}]") {
        Ok(place) => below(alloc, place.as_str(), keyed, error),
        Err(_) => MergeError::NoMemory,
    }
}

fn wrong_value(alloc: Global, line: usize, key: &str) -> MergeError
    ensures { IsFault result (record { line = line; path = key.now }) }
{
    match Text::from_str(alloc, key) {
        Ok(path) => MergeError::Fault(MergeFault { line, path }),
        Err(NoMemory) => MergeError::NoMemory,
    }
}

/// The pairs that are new to a mapping with these entries, behind the pairs so far.
fn spread(
    alloc: Global,
    entries: &Entries,
    pairs: Vec<Pair>,
    more: Vec<Pair>,
) -> Result<Vec<Pair>, NoMemory>
    ensures { IfOk result (λ all. all.items ≡ pairs.items ++ new_pairs (keys_in entries.now) more.items) }
{
    let mut all = pairs;
    let mut taken = Taken::new(alloc, *entries.as_map().hasher());
    for pair in more {
        if taken.take(entries, pair.key.as_str())? {
            all.push(pair)?;
        }
    }
    Ok(all)
}

/// A pair behind the pairs so far, or in its place the pairs that it merges.
fn put(
    alloc: Global,
    entries: &Entries,
    pairs: Vec<Pair>,
    line: usize,
    key: &str,
    value: Plain,
) -> Result<Vec<Pair>, NoMemory>
    ensures { IfOk result (λ all. all.items ≡ pairs.items ++ pairs_put (keys_in entries.now) line key.now value) }
{
    if is_merge_key(key) {
        let more = value.into_sources(alloc)?;
        return spread(alloc, entries, pairs, more);
    }
    let mut pairs = pairs;
    pairs.push(Pair {
        line,
        key: Text::from_str(alloc, key)?,
        value,
    })?;
    Ok(pairs)
}

/// Whether this is a merge key whose value is neither a mapping nor a sequence of mappings.
fn is_wrong(tree: &Tree, key: &str, number: u32) -> bool
    ensures { (most : ℕ) (value : Said) → HoldsPlain most (nodes_of tree.now) number value → result ≡ (is_merge_key key.now && not (may_merge value)) }
{
    is_merge_key(key) && !may_merge(tree, number)
}

/// A node of a tree, merged, as far as some levels.
#[cycle(merge)]
fn merge_node(alloc: Global, tree: &Tree, number: u32, depth: usize) -> Result<Plain, MergeError>
    ensures { (said : Said) → HoldsPlain depth (nodes_of tree.now) number said → Gives (λ p. p) result (merged said) }
{
    if depth == 0 {
        return Ok(Plain::null(0));
    }
    match find(tree, number) {
        Some(node) => merge_value(alloc, tree, node, depth - 1),
        None => Ok(Plain::null(0)),
    }
}

#[cycle(merge)]
fn merge_value(alloc: Global, tree: &Tree, node: &Node, depth: usize) -> Result<Plain, MergeError>
    ensures { (whole : Result Said MergeFault) → ValueMergesTo depth (nodes_of tree.now) node.now.line node.now.value whole → Gives (λ p. p) result whole }
{
    match &node.value {
        Value::Null => Ok(Plain::null(node.line)),
        Value::Text(text) => Ok(Plain::scalar(node.line, text_of(alloc, text)?)),
        Value::Sequence(numbers) => {
            merge_items(alloc, tree, node.line, numbers.as_slice(), depth)
        }
        Value::Mapping(entries) => merge_entries(alloc, tree, node.line, entries, depth),
    }
}

#[cycle(merge)]
fn merge_items(
    alloc: Global,
    tree: &Tree,
    line: usize,
    numbers: &[u32],
    depth: usize,
) -> Result<Plain, MergeError>
    ensures { (whole : Result Said MergeFault) → ItemsMergeTo depth (nodes_of tree.now) (sequence line) 0 numbers.now whole → Gives (λ p. p) result whole }
{
    let mut items = Vec::new(alloc);
    for number in numbers {
        let item = match merge_node(alloc, tree, *number, depth) {
            Ok(item) => item,
            Err(error) => {
                let keyed = is_mapping(tree, *number);
                return Err(below_item(alloc, items.len(), keyed, error));
            }
        };
        items.push(item)?;
    }
    Ok(Plain::sequence(line, items))
}

#[cycle(merge)]
fn merge_entries(
    alloc: Global,
    tree: &Tree,
    line: usize,
    entries: &Entries,
    depth: usize,
) -> Result<Plain, MergeError>
    ensures { (all : Said) (whole : Result Said MergeFault) → keys_of all ≡ keys_in entries.now → EntriesMergeTo depth (nodes_of tree.now) all (mapping line) entries.now whole
        → Gives (λ p. p) result whole }
{
    let mut pairs = Vec::new(alloc);
    for (key, child) in entries.as_map() {
        let key = valid_text(key.as_slice());
        pairs = merge_entry(alloc, tree, entries, pairs, key, *child, depth)?;
    }
    Ok(Plain::mapping(line, pairs))
}

#[cycle(merge)]
fn merge_entry(
    alloc: Global,
    tree: &Tree,
    entries: &Entries,
    pairs: Vec<Pair>,
    key: &str,
    child: Child,
    depth: usize,
) -> Result<Vec<Pair>, MergeError>
    ensures { (all value : Said) (first : ℕ) → keys_of all ≡ keys_in entries.now → HoldsPlain depth (nodes_of tree.now) child.node value
        → Gives (λ v. with_pairs (mapping first) v.items) result (with_merged all (with_pairs (mapping first) pairs.items) child.line key.now value (merged value)) }
{
    if is_wrong(tree, key, child.node) {
        return Err(wrong_value(alloc, child.line, key));
    }
    match merge_node(alloc, tree, child.node, depth) {
        Ok(value) => Ok(put(alloc, entries, pairs, child.line, key, value)?),
        Err(error) => {
            let keyed = is_mapping(tree, child.node);
            Err(below(alloc, key, keyed, error))
        }
    }
}

/// The most levels of a tree that was read.
const MOST_LEVELS: usize = 64;

/// The merged tree of a plain tree that the nodes hold, or its first merge key, in document order, whose value is neither a
/// mapping nor a sequence of mappings.
pub fn merge(alloc: Global, tree: &Tree) -> Result<Plain, MergeError>
    ensures { (said : Said) → Holds tree.now said → IsPlain said → levels said ≤ most_tree_levels → Gives (λ p. p) result (merged said) }
{
    merge_value(alloc, tree, tree.root(), MOST_LEVELS)
}
