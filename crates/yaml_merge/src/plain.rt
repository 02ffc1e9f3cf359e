//! A tree whose nodes are owned, each with the line on which it begins.

ghost use Rattle.std.specs.Prelude.{◌≡◌, Option, IfOk};
ghost use Rattle.std.specs.Option.{option_map};
ghost use Rattle.yaml_tree.specs.Said.Said.{null, text, sequence, mapping};
ghost use Rattle.yaml_merge.specs.Rows.{with_items, with_pairs};
ghost use Rattle.std.specs.List.{flat_map};
ghost use Rattle.yaml_merge.specs.Sources.{pairs_of, sources};
ghost use Rattle.yaml_merge.specs.inside.Inner.{pairs_held, sources_held, null_inside, text_inside, items_inside, pairs_inside};
ghost use Rattle.yaml_merge.specs.Plain.{text_in, items_in, pairs_in, is_null, line_of};

use base_texts::Text;
use sim_base::NoMemory;
use std::alloc::Global;
use std::marker::Model;

/// A tree, which contracts see as what is said.
#[cycle(plain)]
#[derive(Drop)]
pub struct Plain {
    line: usize,
    inner: Inner,
}

#[cycle(plain)]
#[derive(Drop)]
enum Inner {
    Null,
    Text(Text),
    Sequence(Vec<Plain>),
    Mapping(Vec<Pair>),
}

/// A key with its line and its value.
#[cycle(plain)]
#[derive(Drop)]
pub struct Pair {
    pub line: usize,
    pub key: Text,
    pub value: Plain,
}

impl Model for Plain {
    ghost use Rattle.yaml_tree.specs.Said.{Said};
    ghost use Rattle.yaml_merge.specs.inside.SaidCode.{coded_said};

    ghost Value = { Said };

    ghost coded = { coded_said };

    ghost use Rattle.yaml_merge.specs.inside.Height.{height};
    ghost use Rattle.yaml_merge.specs.inside.Inner.{said_of};

    ghost view = { λ a. said_of a.line a.inner };

    ghost size = { height };

    ghost use Rattle.yaml_merge.specs.inside.Falls.{falls};

    ghost size_decreases = { λ a h. falls a.line a.inner };
}

impl Inner {
    fn is_null(&self) -> bool
        ensures { result ≡ null_inside self.now }
    {
        match self {
            Inner::Null => true,
            Inner::Text(_) | Inner::Sequence(_) | Inner::Mapping(_) => false,
        }
    }

    fn as_text(&self) -> Option<&str>
        ensures { option_map (λ t. t.now) result ≡ text_inside self.now }
    {
        match self {
            Inner::Text(text) => Some(text.as_str()),
            Inner::Null | Inner::Sequence(_) | Inner::Mapping(_) => None,
        }
    }

    fn as_sequence(&self) -> Option<&[Plain]>
        ensures { option_map (λ items. items.now) result ≡ items_inside self.now }
    {
        match self {
            Inner::Sequence(items) => Some(items.as_slice()),
            Inner::Null | Inner::Text(_) | Inner::Mapping(_) => None,
        }
    }

    fn as_mapping(&self) -> Option<&[Pair]>
        ensures { option_map (λ pairs. pairs.now) result ≡ pairs_inside self.now }
    {
        match self {
            Inner::Mapping(pairs) => Some(pairs.as_slice()),
            Inner::Null | Inner::Text(_) | Inner::Sequence(_) => None,
        }
    }
}

impl Inner {
    fn into_pairs(self, alloc: Global) -> Vec<Pair>
        ensures { result.items ≡ pairs_held self }
    {
        match self {
            Inner::Mapping(pairs) => pairs,
            Inner::Null | Inner::Text(_) | Inner::Sequence(_) => Vec::new(alloc),
        }
    }

    fn into_sources(self, alloc: Global) -> Result<Vec<Pair>, NoMemory>
        ensures { IfOk result (λ pairs. pairs.items ≡ sources_held self) }
    {
        match self {
            Inner::Mapping(pairs) => Ok(pairs),
            Inner::Sequence(items) => join(alloc, items),
            Inner::Null | Inner::Text(_) => Ok(Vec::new(alloc)),
        }
    }
}

/// The pairs of all mappings among the items, one after another.
fn join(alloc: Global, items: Vec<Plain>) -> Result<Vec<Pair>, NoMemory>
    ensures { IfOk result (λ pairs. pairs.items ≡ flat_map pairs_of items.items) }
{
    let mut all = Vec::new(alloc);
    for item in items {
        let mut more = item.into_pairs(alloc);
        all.append(&mut more)?;
    }
    Ok(all)
}

impl Plain {
    /// The pairs of a mapping; another node gives none.
    #[tactic(auto, using(crate::proofs::InnerLaws::held_pairs))]
    fn into_pairs(self, alloc: Global) -> Vec<Pair>
        ensures { result.items ≡ pairs_of self }
    {
        let Plain { line: _, inner } = self;
        inner.into_pairs(alloc)
    }

    /// The pairs of a mapping, or those of the mappings of a sequence, one after another.
    #[tactic(auto, using(crate::proofs::InnerLaws::held_sources))]
    pub(crate) fn into_sources(self, alloc: Global) -> Result<Vec<Pair>, NoMemory>
        ensures { IfOk result (λ pairs. pairs.items ≡ sources self) }
    {
        let Plain { line: _, inner } = self;
        inner.into_sources(alloc)
    }

    /// The line on which the node begins.
    #[tactic(auto, using(crate::proofs::InnerLaws::line_seen))]
    pub fn line(&self) -> usize
        ensures { result ≡ line_of self.now }
    {
        self.line
    }

    #[tactic(auto, using(crate::proofs::InnerLaws::null_seen))]
    pub fn is_null(&self) -> bool
        ensures { result ≡ is_null self.now }
    {
        self.inner.is_null()
    }

    /// The text of a scalar.
    #[tactic(auto, using(crate::proofs::InnerLaws::text_seen))]
    pub fn as_text(&self) -> Option<&str>
        ensures { option_map (λ t. t.now) result ≡ text_in self.now }
    {
        self.inner.as_text()
    }

    /// The items of a sequence.
    #[tactic(auto, using(crate::proofs::InnerLaws::items_seen))]
    pub fn as_sequence(&self) -> Option<&[Plain]>
        ensures { option_map (λ items. items.now) result ≡ items_in self.now }
    {
        self.inner.as_sequence()
    }

    /// The pairs of a mapping, in the order of its keys.
    #[tactic(auto, using(crate::proofs::InnerLaws::pairs_seen))]
    pub fn as_mapping(&self) -> Option<&[Pair]>
        ensures { option_map (λ pairs. pairs.now) result ≡ pairs_in self.now }
    {
        self.inner.as_mapping()
    }

    pub(crate) fn null(line: usize) -> Plain
        ensures { result ≡ null line }
    {
        Plain {
            line,
            inner: Inner::Null,
        }
    }

    pub(crate) fn scalar(line: usize, bytes: Text) -> Plain
        ensures { result ≡ text line bytes }
    {
        Plain {
            line,
            inner: Inner::Text(bytes),
        }
    }

    pub(crate) fn sequence(line: usize, items: Vec<Plain>) -> Plain
        ensures { result ≡ with_items (sequence line) items.items }
    {
        Plain {
            line,
            inner: Inner::Sequence(items),
        }
    }

    pub(crate) fn mapping(line: usize, pairs: Vec<Pair>) -> Plain
        ensures { result ≡ with_pairs (mapping line) pairs.items }
    {
        Plain {
            line,
            inner: Inner::Mapping(pairs),
        }
    }
}
