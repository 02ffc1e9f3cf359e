//! Collections that are still open.

ghost use Rattle.std.specs.Prelude.{◌≡◌, ◌++◌, ◌∷◌, ◌↔◌, List, ℕ, [], None, OnOk, IfOk, IsTrue, length, true, nat_lt, ◌==◌};
ghost use Rattle.yaml_tree.specs.inside.Stack.{new_open, finished, collection, top_depth, has_row, with_next_row, measure_about, PopsWhere};
ghost use Rattle.yaml_tree.specs.inside.Frames.{sequence_of, mapping_of, open_of};
ghost use Rattle.yaml_tree.specs.declared.stack.Open.{Open};

use crate::entries::Child;
use crate::frame::Frame;
use crate::growing::Growing;
use crate::hashing::Hashing;
use crate::known::{GivenName, KnownNode, Measure};
use crate::node::Value;
use crate::numbers::Numbers;
use sim_base::NoMemory;
use std::alloc::Global;
use std::marker::Model;
use yaml_tokens::Scalar;

/// A collection that is still open: its finished rows, and the row whose value comes.
#[derive(Drop)]
pub(crate) struct Open {
    pub depth: u128,
    pub mapping: bool,
    /// The line on which it begins.
    pub first_line: usize,
    pub items: Numbers,
    pub entries: Growing,
    /// The row whose value comes.
    pub line: usize,
    pub key: Scalar,
    /// The name that the collection takes once it is whole.
    pub name: Option<GivenName>,
    /// The measure of the finished rows.
    pub measure: Measure,
}

impl Open {
    pub fn new(
        alloc: Global,
        depth: u128,
        mapping: bool,
        line: usize,
        key: Scalar,
        name: Option<GivenName>,
    ) -> Open
        ensures { result ≡ new_open depth mapping line key name }
    {
        Open {
            depth,
            mapping,
            first_line: line,
            items: Numbers::new(),
            entries: Growing::new(alloc),
            line,
            key,
            name,
            measure: Measure::no_row(),
        }
    }

    /// A sequence of a flow form, on one line and without a name.
    pub fn cells(alloc: Global, line: usize, measure: Measure, items: Numbers) -> Open
        ensures { result ≡ sequence_of line measure items }
    {
        Open {
            depth: 0,
            mapping: false,
            first_line: line,
            items,
            entries: Growing::new(alloc),
            line,
            key: Scalar::new(),
            name: None,
            measure,
        }
    }

    /// Whether it stands as it began: it has no finished row.
    pub fn is_begun(&self) -> bool
        ensures { IsTrue result ↔ self.now ≡ new_open self.now.depth self.now.mapping self.now.line self.now.key self.now.name }
    {
        self.first_line == self.line
            && self.items.is_empty()
            && self.entries.is_empty()
            && self.measure.is_no_row()
    }

    /// Whether it is a sequence of a flow form, on one line and without a name.
    pub fn is_cells(&self) -> bool
        ensures { IsTrue result ↔ self.now ≡ sequence_of self.now.line self.now.measure self.now.items }
    {
        !self.mapping
            && self.depth == 0
            && self.first_line == self.line
            && self.name.is_none()
            && self.entries.is_empty()
            && self.key.as_slice().is_empty()
    }

    /// Whether it is a mapping on one line and without a name.
    pub fn is_rows(&self) -> bool
        ensures { IsTrue result ↔ self.now ≡ mapping_of self.now.depth self.now.line self.now.key self.now.measure self.now.entries }
    {
        self.mapping && self.first_line == self.line && self.name.is_none() && self.items.is_empty()
    }

    /// The key of the row whose value comes, and the name of the collection.
    pub fn into_key_and_name(self) -> (Scalar, Option<GivenName>)
        ensures { result ≡ (self.key, self.name) }
    {
        (self.key, self.name)
    }

    /// Finishes the row with its value.
    pub fn finish_row(
        self,
        alloc: Global,
        hashing: &Hashing,
        value: KnownNode,
    ) -> Result<Open, NoMemory>
        ensures { IfOk result (λ o. o ≡ finished self value) }
    {
        let Open {
            depth,
            mapping,
            first_line,
            mut items,
            mut entries,
            line,
            key,
            name,
            measure,
        } = self;
        let node = value.node;
        if mapping {
            entries = entries.with(alloc, hashing, key, Child { line, node })?;
        } else {
            items = items.with(alloc, node)?;
        }
        Ok(Open {
            depth,
            mapping,
            first_line,
            items,
            entries,
            line,
            key: Scalar::new(),
            name,
            measure: measure.with_part(value.measure),
        })
    }

    /// Whether a finished row has this key.
    fn has_row(&self, key: &Scalar) -> bool
        ensures { result ≡ has_row self.now key.now }
    {
        self.mapping && self.entries.contains(key)
    }

    /// The same collection with another row begun.
    pub fn with_next_row(self, line: usize, key: Scalar) -> Open
        ensures { result ≡ with_next_row line key self }
    {
        let repeated = self.has_row(&key);
        let Open {
            depth,
            mapping,
            first_line,
            items,
            entries,
            line: _,
            key: _,
            name,
            measure,
        } = self;
        Open {
            depth,
            mapping,
            first_line,
            items,
            entries,
            line,
            key,
            name,
            measure: measure.with_repeat(repeated),
        }
    }

    /// The finished rows as a node's value, and the name.
    pub fn into_value(
        self,
        alloc: Global,
        hashing: &Hashing,
    ) -> Result<(Value, Option<GivenName>), NoMemory>
        ensures { IfOk result (λ v. v ≡ (collection self, self.name)) }
    {
        let Open {
            depth: _,
            mapping,
            first_line: _,
            items,
            entries,
            line: _,
            key: _,
            name,
            measure: _,
        } = self;
        if mapping {
            Ok((Value::Mapping(entries.into_entries(alloc, hashing)?), name))
        } else {
            Ok((Value::Sequence(items), name))
        }
    }
}

/// The open collections, which contracts see as a list, the innermost first.
#[derive(Drop)]
pub(crate) struct Stack {
    frames: Vec<Frame>,
}

impl Model for Stack {
    ghost use Rattle.std.specs.Prelude.{List, map, reverse};
    ghost use Rattle.yaml_tree.specs.declared.stack.Open.{Open};

    ghost Value = { List Open };

    ghost use Rattle.yaml_tree.specs.inside.Frames.{open_of};

    ghost view = { λ s. reverse (map open_of s.frames.items) };
}

impl Stack {
    pub fn new(alloc: Global) -> Stack
        ensures { result ≡ [] }
    {
        Stack {
            frames: Vec::new(alloc),
        }
    }

    pub fn push(&mut self, added: Open) -> Result<(), NoMemory>
        ensures { OnOk result (self.new ≡ added ∷ self.old) }
    {
        let frame = Frame::of(*self.frames.allocator(), added)?;
        self.push_frame(frame)
    }

    fn push_frame(&mut self, frame: Frame) -> Result<(), NoMemory>
        ensures { OnOk result (self.new ≡ open_of frame ∷ self.old) }
    {
        self.frames.push(frame)?;
        Ok(())
    }

    pub fn pop(&mut self) -> Option<Open>
        ensures { PopsWhere (λ _. true) self.old result self.new }
    {
        let alloc = *self.frames.allocator();
        match self.frames.pop() {
            Some(frame) => Some(frame.into_open(alloc)),
            None => None,
        }
    }

    /// Takes the innermost collection, if it is deeper.
    pub fn pop_deeper(&mut self, depth: u128) -> Option<Open>
        ensures { PopsWhere (λ o. nat_lt depth o.depth) self.old result self.new }
    {
        match self.top_depth() {
            Some(top) if depth < top => self.pop(),
            _ => None,
        }
    }

    /// Takes the innermost collection, if it has this depth.
    pub fn pop_at(&mut self, depth: u128) -> Option<Open>
        ensures { PopsWhere (λ o. o.depth == depth) self.old result self.new }
    {
        match self.top_depth() {
            Some(top) if depth == top => self.pop(),
            _ => None,
        }
    }

    /// The depth of the innermost collection.
    pub fn top_depth(&self) -> Option<u128>
        ensures { result ≡ top_depth self.now }
    {
        match self.frames.last() {
            Some(frame) => Some(frame.depth()),
            None => None,
        }
    }

    /// The measure of all that is open, about a value.
    pub fn measure_about(&self, value: Measure) -> Measure
        ensures { result ≡ measure_about self.now value }
    {
        let mut measure = value;
        for frame in self.frames.iter().rev() {
            measure = frame.measure().with_part(measure);
        }
        measure
    }
}
