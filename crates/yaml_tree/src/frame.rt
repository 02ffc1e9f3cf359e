//! What is kept of a collection that is open.

ghost use Rattle.std.specs.Prelude.{◌≡◌, Some, IfOk};
ghost use Rattle.yaml_tree.specs.inside.Frames.{mapping_of, open_of};
ghost use Rattle.yaml_tree.specs.inside.Stack.{new_open};
ghost use Rattle.yaml_tree.specs.declared.frame.Frame.TheVariants.{Cells};

use crate::growing::Growing;
use crate::known::{GivenName, Measure};
use crate::numbers::Numbers;
use crate::stack::Open;
use sim_base::NoMemory;
use std::alloc::Global;
use yaml_tokens::Scalar;

/// A collection that is open. Few words are kept of one that has no row or few, since a line may
/// open millions of them.
#[derive(Drop)]
pub(crate) enum Frame {
    /// It stands as it began, without a name.
    Begun {
        mapping: bool,
        depth: u32,
        line: usize,
        key: Scalar,
    },
    /// It stands as it began, with a name.
    Named(Box<NamedBegun>),
    /// A sequence of a flow form.
    Cells {
        line: u32,
        measure: Measure,
        items: Numbers,
    },
    /// A mapping without a name.
    Rows(Box<OpenRows>),
    Other(Box<Open>),
}

/// What is kept of a collection with a name that stands as it began.
#[derive(Drop)]
pub(crate) struct NamedBegun {
    mapping: bool,
    depth: u32,
    line: usize,
    key: Scalar,
    name: GivenName,
}

/// What is kept of a mapping without a name.
#[derive(Drop)]
pub(crate) struct OpenRows {
    depth: u32,
    measure: Measure,
    line: usize,
    key: Scalar,
    entries: Growing,
}

impl Frame {
    /// Keeps a collection.
    pub fn of(alloc: Global, kept: Open) -> Result<Frame, NoMemory>
        ensures { IfOk result (λ frame. open_of frame ≡ kept) }
    {
        match u32::try_from(kept.depth) {
            Ok(depth) if kept.is_begun() => Frame::begun(alloc, depth, kept),
            Ok(depth) if kept.is_rows() => OpenRows::of(depth, kept).into_frame(alloc),
            _ => Frame::of_cells(alloc, kept),
        }
    }

    /// Keeps a collection that may be a sequence of a flow form.
    fn of_cells(alloc: Global, kept: Open) -> Result<Frame, NoMemory>
        ensures { IfOk result (λ frame. open_of frame ≡ kept) }
    {
        match u32::try_from(kept.line) {
            Ok(line) if kept.is_cells() => Ok(Frame::cells(line, kept)),
            _ => Ok(Frame::Other(Box::new(alloc, kept)?)),
        }
    }

    /// Keeps few words of a collection.
    fn begun(alloc: Global, depth: u32, kept: Open) -> Result<Frame, NoMemory>
        ensures { IfOk result (λ frame. open_of frame ≡ new_open depth kept.mapping kept.line kept.key kept.name) }
    {
        let (mapping, line) = (kept.mapping, kept.line);
        match kept.into_key_and_name() {
            (key, None) => Ok(Frame::Begun {
                mapping,
                depth,
                line,
                key,
            }),
            (key, Some(name)) => {
                let named = NamedBegun {
                    mapping,
                    depth,
                    line,
                    key,
                    name,
                };
                named.into_frame(alloc)
            }
        }
    }

    /// Keeps the items and the measure of a sequence.
    fn cells(line: u32, kept: Open) -> Frame
        ensures { result ≡ Cells line kept.measure kept.items }
    {
        let Open {
            depth: _,
            mapping: _,
            first_line: _,
            items,
            entries: _,
            line: _,
            key: _,
            name: _,
            measure,
        } = kept;
        Frame::Cells {
            line,
            measure,
            items,
        }
    }

    /// Gives the collection back.
    pub fn into_open(self, alloc: Global) -> Open
        ensures { result ≡ open_of self }
    {
        match self {
            Frame::Begun {
                mapping,
                depth,
                line,
                key,
            } => Open::new(alloc, depth as u128, mapping, line, key, None),
            Frame::Named(named) => Box::into_inner(named).into_open(alloc),
            Frame::Cells {
                line,
                measure,
                items,
            } => Open::cells(alloc, line as usize, measure, items),
            Frame::Rows(rows) => Box::into_inner(rows).into_open(),
            Frame::Other(open) => Box::into_inner(open),
        }
    }

    pub fn depth(&self) -> u128
        ensures { result ≡ (open_of self.now).depth }
    {
        match self {
            Frame::Begun { depth, .. } => *depth as u128,
            Frame::Named(named) => named.depth as u128,
            Frame::Cells { .. } => 0,
            Frame::Rows(rows) => rows.depth as u128,
            Frame::Other(open) => open.depth,
        }
    }

    pub fn measure(&self) -> Measure
        ensures { result ≡ (open_of self.now).measure }
    {
        match self {
            Frame::Begun { .. } | Frame::Named(_) => Measure::no_row(),
            Frame::Cells { measure, .. } => *measure,
            Frame::Rows(rows) => rows.measure,
            Frame::Other(open) => open.measure,
        }
    }
}

impl NamedBegun {
    fn into_frame(self, alloc: Global) -> Result<Frame, NoMemory>
        ensures { IfOk result (λ frame. open_of frame ≡ new_open self.depth self.mapping self.line self.key (Some self.name)) }
    {
        Ok(Frame::Named(Box::new(alloc, self)?))
    }

    fn into_open(self, alloc: Global) -> Open
        ensures { result ≡ new_open self.depth self.mapping self.line self.key (Some self.name) }
    {
        let NamedBegun {
            mapping,
            depth,
            line,
            key,
            name,
        } = self;
        Open::new(alloc, depth as u128, mapping, line, key, Some(name))
    }
}

impl OpenRows {
    fn of(depth: u32, kept: Open) -> OpenRows
        ensures { result ≡ record { depth = depth; measure = kept.measure; line = kept.line; key = kept.key; entries = kept.entries } }
    {
        let Open {
            depth: _,
            mapping: _,
            first_line: _,
            items: _,
            entries,
            line,
            key,
            name: _,
            measure,
        } = kept;
        OpenRows {
            depth,
            measure,
            line,
            key,
            entries,
        }
    }

    fn into_frame(self, alloc: Global) -> Result<Frame, NoMemory>
        ensures { IfOk result (λ frame. open_of frame ≡ mapping_of self.depth self.line self.key self.measure self.entries) }
    {
        Ok(Frame::Rows(Box::new(alloc, self)?))
    }

    fn into_open(self) -> Open
        ensures { result ≡ mapping_of self.depth self.line self.key self.measure self.entries }
    {
        let OpenRows {
            depth,
            measure,
            line,
            key,
            entries,
        } = self;
        Open {
            depth: depth as u128,
            mapping: true,
            first_line: line,
            items: Numbers::new(),
            entries,
            line,
            key,
            name: None,
            measure,
        }
    }
}
