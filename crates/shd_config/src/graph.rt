//! The key `graph` of `network`.

ghost use Rattle.std.specs.Prelude.{◌≡◌, None};
ghost use Rattle.shd_config.specs.Steps.{Gives, Sets, Passes, optional, mapping_line, through, needed};
ghost use Rattle.shd_config.specs.Values.{text_at, scalar_at};
ghost use Rattle.shd_config.specs.Network.{compression_at, file_key, file_row, file_of, file_at, graph_kind, kind_in, kind_in_row, is_switch, graph_alone, new_graph, graph_key, graph_row, gml_source, source_of, finished_graph, graph_of, graph_at};

use crate::config::GraphSource;
use crate::fault::{ConfigError, ConfigKind};
use crate::key::{Key, key_of};
use crate::optional::optional_text;
use crate::setting::{set, set_some};
use crate::steps::{below, checked, mapping_line, needed, refused, valued};
use crate::value::{read_mapping, read_text};
use base_texts::{Name, Text};
use std::alloc::Global;
use yaml_merge::Pair;

/// The types of graphs.
#[derive(Clone, Copy)]
pub enum GraphKind {
    Gml,
    OneGbitSwitch,
}

/// What was read of a graph.
#[derive(Drop)]
pub struct GraphDraft {
    pub kind: Option<GraphKind>,
    pub inline: Option<Text>,
    pub file: Option<Name>,
}

/// The way in which a file may be compressed, which isn't supported.
fn check_compression(alloc: Global, pair: &Pair) -> Result<(), ConfigError>
    ensures { Passes result (optional pair.now (compression_at pair.now)) }
{
    if pair.value.is_null() {
        return Ok(());
    }
    let text = read_text(alloc, pair)?;
    if text == "xz" {
        return Err(refused(alloc, ConfigKind::Unsupported, pair));
    }
    Err(refused(alloc, ConfigKind::BadValue, pair))
}

/// The text of a scalar, which is a name.
fn read_name(alloc: Global, pair: &Pair) -> Result<Name, ConfigError>
    ensures { Gives result (text_at pair.now) }
{
    let text = read_text(alloc, pair)?;
    Ok(Name::from_str(alloc, text)?)
}

fn read_file_key(
    alloc: Global,
    key: Option<Key>,
    path: &mut Option<Name>,
    pair: &Pair,
) -> Result<(), ConfigError>
    ensures { Sets result path.new (file_key key path.old pair.now) }
{
    match key {
        Some(Key::Path) => set_some(path, read_name(alloc, pair)),
        Some(Key::Compression) => check_compression(alloc, pair),
        _ => Err(refused(alloc, ConfigKind::UnknownKey, pair)),
    }
}

fn read_file_pairs(alloc: Global, pairs: &[Pair]) -> Result<Option<Name>, ConfigError>
    ensures { Gives result (through file_row None pairs.now) }
{
    let mut path = None;
    for pair in pairs {
        read_file_key(alloc, key_of(pair.key.as_str()), &mut path, pair)?;
    }
    Ok(path)
}

#[tactic(auto, unfolding(crate::specs::Network::file_of))]
fn file_of(alloc: Global, line: usize, pairs: &[Pair]) -> Result<Name, ConfigError>
    ensures { Gives result (file_of line pairs.now) }
{
    let path = read_file_pairs(alloc, pairs)?;
    needed(alloc, "path", mapping_line(line, pairs), path)
}

#[tactic(auto, unfolding(crate::specs::Network::file_at))]
fn read_file(alloc: Global, pair: &Pair) -> Result<Name, ConfigError>
    ensures { Gives result (file_at pair.now) }
{
    let pairs = read_mapping(alloc, pair)?;
    match file_of(alloc, pair.line, pairs) {
        Ok(name) => Ok(name),
        Err(error) => Err(below(alloc, pair.key.as_str(), error)),
    }
}

fn optional_file(alloc: Global, pair: &Pair) -> Result<Option<Name>, ConfigError>
    ensures { Gives result (optional pair.now (file_at pair.now)) }
{
    if pair.value.is_null() {
        return Ok(None);
    }
    Ok(Some(read_file(alloc, pair)?))
}

fn graph_kind(text: &str) -> Option<GraphKind>
    ensures { result ≡ graph_kind text.now }
{
    if text == "gml" {
        Some(GraphKind::Gml)
    } else if text == "1_gbit_switch" {
        Some(GraphKind::OneGbitSwitch)
    } else {
        None
    }
}

fn read_kind(alloc: Global, pair: &Pair) -> Result<GraphKind, ConfigError>
    ensures { Gives result (scalar_at graph_kind pair.now) }
{
    let text = read_text(alloc, pair)?;
    valued(alloc, ConfigKind::BadValue, pair, graph_kind(text))
}

/// The type that a mapping gives, if it gives one that can be read.
fn kind_in(pairs: &[Pair]) -> Option<GraphKind>
    ensures { result ≡ kind_in pairs.now }
{
    for pair in pairs {
        if let Some(Key::Type) = key_of(pair.key.as_str()) {
            return match pair.value.as_text() {
                Some(text) => graph_kind(text),
                None => None,
            };
        }
    }
    None
}

fn is_switch(kind: Option<GraphKind>) -> bool
    ensures { result ≡ is_switch kind }
{
    matches!(kind, Some(GraphKind::OneGbitSwitch))
}

/// Whether `inline` or `file` may be given beside the other and the type.
fn check_alone(
    alloc: Global,
    kind: Option<GraphKind>,
    other: bool,
    pair: &Pair,
) -> Result<(), ConfigError>
    ensures { Gives result (graph_alone kind other pair.now) }
{
    let alone = pair.value.is_null() || !(is_switch(kind) || other);
    checked(alloc, ConfigKind::BadValue, pair, alone)
}

fn read_key(
    alloc: Global,
    kind: Option<GraphKind>,
    key: Option<Key>,
    draft: &mut GraphDraft,
    pair: &Pair,
) -> Result<(), ConfigError>
    ensures { Sets result draft.new (graph_key kind key draft.old pair.now) }
{
    match key {
        Some(Key::Type) => set_some(&mut draft.kind, read_kind(alloc, pair)),
        Some(Key::Inline) => {
            check_alone(alloc, kind, draft.file.is_some(), pair)?;
            set(&mut draft.inline, optional_text(alloc, pair))
        }
        Some(Key::File) => {
            check_alone(alloc, kind, draft.inline.is_some(), pair)?;
            set(&mut draft.file, optional_file(alloc, pair))
        }
        _ => Err(refused(alloc, ConfigKind::UnknownKey, pair)),
    }
}

fn new_graph() -> GraphDraft
    ensures { result ≡ new_graph }
{
    GraphDraft {
        kind: None,
        inline: None,
        file: None,
    }
}

fn read_pairs(
    alloc: Global,
    kind: Option<GraphKind>,
    pairs: &[Pair],
) -> Result<GraphDraft, ConfigError>
    ensures { Gives result (through (graph_row kind) new_graph pairs.now) }
{
    let mut draft = new_graph();
    for pair in pairs {
        read_key(alloc, kind, key_of(pair.key.as_str()), &mut draft, pair)?;
    }
    Ok(draft)
}

fn gml_source(
    alloc: Global,
    line: usize,
    inline: Option<Text>,
    file: Option<Name>,
) -> Result<GraphSource, ConfigError>
    ensures { Gives result (gml_source line inline file) }
{
    match inline {
        Some(text) => Ok(GraphSource::Inline(text)),
        None => Ok(GraphSource::File(needed(alloc, "inline", line, file)?)),
    }
}

fn finish_graph(alloc: Global, line: usize, draft: GraphDraft) -> Result<GraphSource, ConfigError>
    ensures { Gives result (finished_graph line draft) }
{
    match needed(alloc, "type", line, draft.kind)? {
        GraphKind::Gml => gml_source(alloc, line, draft.inline, draft.file),
        GraphKind::OneGbitSwitch => Ok(GraphSource::OneGbitSwitch),
    }
}

#[tactic(auto, unfolding(crate::specs::Network::graph_of))]
fn graph_of(alloc: Global, line: usize, pairs: &[Pair]) -> Result<GraphSource, ConfigError>
    ensures { Gives result (graph_of line pairs.now) }
{
    let draft = read_pairs(alloc, kind_in(pairs), pairs)?;
    finish_graph(alloc, mapping_line(line, pairs), draft)
}

/// Reads `network.graph`.
#[tactic(auto, unfolding(crate::specs::Network::graph_at))]
pub fn read_graph(alloc: Global, pair: &Pair) -> Result<GraphSource, ConfigError>
    ensures { Gives result (graph_at pair.now) }
{
    let pairs = read_mapping(alloc, pair)?;
    match graph_of(alloc, pair.line, pairs) {
        Ok(graph) => Ok(graph),
        Err(error) => Err(below(alloc, pair.key.as_str(), error)),
    }
}
