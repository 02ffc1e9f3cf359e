//! What is kept of nodes that are whole, and their names.

ghost use Rattle.std.specs.Prelude.{◌≡◌, ◌==◌, ◌+◌, ◌↔◌, List, ℕ, [], OnOk, IsTrue};
ghost use Rattle.std.specs.Cmp.Lexicographic.{pointwise};
ghost use Rattle.indexmap.specs.IndexMap.{insert_entry};
ghost use Rattle.yaml_tree.specs.inside.Stack.{cut, one_node, unknown_node, no_row, with_part, with_repeat};
ghost use Rattle.yaml_tree.specs.inside.Builder.{find_name, begins_at, fault_of};
ghost use Rattle.yaml_tree.specs.declared.known.KnownNode.{KnownNode};

use crate::fault::FaultKind;
use crate::hashing::{Hashing, TextHashers};
use indexmap::IndexMap;
use sim_base::NoMemory;
use std::alloc::Global;
use std::marker::Model;
use yaml_tokens::Scalar;

/// The most nodes that a tree has.
pub(crate) const MOST_NODES: u32 = 1_000_000;

/// The most levels of collections that a tree has.
pub(crate) const MOST_LEVELS: u8 = 64;

/// What the limits ask of a tree: its nodes and its levels, each counted to one more than a tree
/// has at most; whether a key stands twice in one mapping; and whether an alias is of an unknown
/// node.
#[derive(Clone, Copy)]
pub(crate) struct Measure {
    pub size: u32,
    pub levels: u8,
    pub repeated: bool,
    pub unknown: bool,
}

impl Measure {
    /// A tree of one node.
    pub fn one_node() -> Measure
        ensures { result ≡ one_node }
    {
        Measure {
            size: 1,
            levels: 0,
            repeated: false,
            unknown: false,
        }
    }

    /// An alias of an unknown node.
    pub fn unknown_node() -> Measure
        ensures { result ≡ unknown_node }
    {
        Measure {
            size: 1,
            levels: 0,
            repeated: false,
            unknown: true,
        }
    }

    /// A collection without rows.
    pub fn no_row() -> Measure
        ensures { result ≡ no_row }
    {
        Measure {
            size: 1,
            levels: 1,
            repeated: false,
            unknown: false,
        }
    }

    /// Whether it is that of a collection without rows.
    pub fn is_no_row(self) -> bool
        ensures { IsTrue result ↔ self ≡ no_row }
    {
        self.size == 1 && self.levels == 1 && !self.repeated && !self.unknown
    }

    /// The rows of a collection, and a value more.
    pub fn with_part(self, value: Measure) -> Measure
        ensures { result ≡ with_part self value }
    {
        Measure {
            size: sum_of_sizes(self.size, value.size),
            levels: self.levels.max(levels_above(value.levels)),
            repeated: self.repeated || value.repeated,
            unknown: self.unknown || value.unknown,
        }
    }

    /// The same, with a key twice in one mapping.
    pub fn with_repeat(self, repeated: bool) -> Measure
        ensures { result ≡ with_repeat repeated self }
    {
        Measure {
            size: self.size,
            levels: self.levels,
            repeated: self.repeated || repeated,
            unknown: self.unknown,
        }
    }
}

impl Measure {
    /// The limit that is passed, if any.
    pub fn fault(self) -> Option<FaultKind>
        ensures { result ≡ fault_of self }
    {
        if self.repeated {
            Some(FaultKind::Duplicate)
        } else if self.unknown {
            Some(FaultKind::Alias)
        } else if self.levels > MOST_LEVELS {
            Some(FaultKind::TooDeep)
        } else if self.size > MOST_NODES {
            Some(FaultKind::TooManyNodes)
        } else {
            None
        }
    }
}

/// The sum of two sizes, up to one more than a tree has at most.
fn sum_of_sizes(a: u32, b: u32) -> u32
    ensures { result ≡ cut MOST_NODES (a + b) }
{
    if a > MOST_NODES || b > MOST_NODES || a + b > MOST_NODES {
        1 + MOST_NODES
    } else {
        a + b
    }
}

/// One level more, up to one more than a tree has at most.
fn levels_above(levels: u8) -> u8
    ensures { result ≡ cut MOST_LEVELS (1 + levels) }
{
    if levels < MOST_LEVELS {
        1 + levels
    } else {
        1 + MOST_LEVELS
    }
}

/// A node that is whole, with the measure of its tree.
#[derive(Clone, Copy)]
pub(crate) struct KnownNode {
    pub node: u32,
    pub measure: Measure,
}

/// A name that waits for its node, and the line on which it stands.
#[derive(Drop)]
pub(crate) struct GivenName {
    pub line: usize,
    pub text: Scalar,
}

/// The line on which a node begins: that of its name, if it has one.
pub(crate) fn begins_at(line: usize, name: &Option<GivenName>) -> usize
    ensures { result ≡ begins_at line name.now }
{
    match name {
        Some(name) => name.line,
        None => line,
    }
}

/// The nodes that have names, which contracts see as a list of pairs.
#[derive(Drop)]
pub(crate) struct Anchors {
    map: IndexMap<Scalar, KnownNode, TextHashers>,
}

impl Model for Anchors {
    ghost use Rattle.std.specs.Prelude.{List, ℕ};
    ghost use Rattle.yaml_tree.specs.declared.known.KnownNode.{KnownNode};

    ghost Value = { List (List ℕ × KnownNode) };

    ghost view = { λ n. n.map.entries };
}

impl Anchors {
    pub fn new(alloc: Global, hashing: &Hashing) -> Anchors
        ensures { result ≡ [] }
    {
        Anchors {
            map: IndexMap::with_hasher(alloc, hashing.hashers()),
        }
    }

    pub fn find(&self, name: &Scalar) -> Option<KnownNode>
        ensures { result ≡ find_name self.now name.now }
    {
        match self.map.get(name) {
            Some(known) => Some(*known),
            None => None,
        }
    }

    pub fn insert(&mut self, name: Scalar, known: KnownNode) -> Result<(), NoMemory>
        ensures { OnOk result (self.new ≡ insert_entry (pointwise ◌==◌) self.old name known) }
    {
        self.map.insert(name, known)?;
        Ok(())
    }
}
