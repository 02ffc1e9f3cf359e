//! Flow forms, piece by piece given to the builder.

ghost use Rattle.std.specs.Prelude.{◌≡◌, Some, None, OnOk, IfOk};
ghost use Rattle.yaml_tree.specs.inside.Builder.{put_known, cell_node, flushed, is_curly, cell_opened, cell_closed, cell_key, alias_found, cell_alias, take_piece, take_pieces};

use crate::builder::{Builder, scalar_value};
use crate::known::{GivenName, KnownNode, Measure};
use crate::node::Value;
use crate::stack::Open;
use sim_base::NoMemory;
use yaml_tokens::{Bracket, Piece, Pieces, Scalar};

impl Builder {
    /// Makes a value a cell of the innermost bracket, or the whole form.
    #[tactic(auto, unfolding(crate::specs::inside::Builder::put_known))]
    fn put_known(&mut self, known: KnownNode) -> Result<(), NoMemory>
        ensures { OnOk result (self.new ≡ put_known known self.old) }
    {
        match self.cells.pop() {
            Some(open) => {
                let rows = open.finish_row(self.alloc, &self.hashing, known)?;
                self.cells.push(rows)
            }
            None => {
                self.value = Some(known);
                Ok(())
            }
        }
    }

    /// Makes a node that is a cell.
    #[tactic(auto, unfolding(crate::specs::inside::Builder::cell_node))]
    fn cell_node(&mut self, line: usize, value: Value, measure: Measure) -> Result<(), NoMemory>
        ensures { OnOk result (self.new ≡ cell_node line value measure self.old) }
    {
        let known = self.make_node(line, value, measure)?;
        self.put_known(known)
    }

    /// Gives a name that nothing stands behind to a null.
    #[tactic(auto, unfolding(crate::specs::inside::Builder::flushed))]
    fn flush(&mut self, line: usize) -> Result<(), NoMemory>
        ensures { OnOk result (self.new ≡ flushed line self.old) }
    {
        if self.name.is_none() {
            return Ok(());
        }
        self.cell_node(line, Value::Null, Measure::one_node())
    }

    #[tactic(auto, unfolding(crate::specs::inside::Builder::cell_opened))]
    fn open_cell(&mut self, line: usize, bracket: Bracket) -> Result<(), NoMemory>
        ensures { OnOk result (self.new ≡ cell_opened line bracket self.old) }
    {
        let name = self.name.take();
        let none = Scalar::new();
        let curly = is_curly(bracket);
        let open = Open::new(self.alloc, 0, curly, line, none, name);
        self.cells.push(open)
    }

    #[tactic(auto, unfolding(crate::specs::inside::Builder::cell_closed))]
    fn close_cell(&mut self, line: usize) -> Result<(), NoMemory>
        ensures { OnOk result (self.new ≡ cell_closed line self.old) }
    {
        self.flush(line)?;
        match self.cells.pop() {
            Some(open) => {
                let first_line = open.first_line;
                let measure = open.measure;
                let (value, name) = open.into_value(self.alloc, &self.hashing)?;
                self.name = name;
                self.cell_node(first_line, value, measure)
            }
            None => Ok(()),
        }
    }

    #[tactic(auto, unfolding(crate::specs::inside::Builder::cell_key))]
    fn key_cell(&mut self, line: usize, key: Scalar) -> Result<(), NoMemory>
        ensures { OnOk result (self.new ≡ cell_key line key self.old) }
    {
        match self.cells.pop() {
            Some(open) => self.cells.push(open.with_next_row(line, key)),
            None => Ok(()),
        }
    }

    fn alias_found(&mut self, line: usize, found: Option<KnownNode>) -> Result<(), NoMemory>
        ensures { OnOk result (self.new ≡ alias_found line found self.old) }
    {
        match found {
            Some(known) => self.put_known(known),
            None => self.cell_node(line, Value::Null, Measure::unknown_node()),
        }
    }

    #[tactic(auto, unfolding(crate::specs::inside::Builder::cell_alias))]
    fn alias_cell(&mut self, line: usize, name: &Scalar) -> Result<(), NoMemory>
        ensures { OnOk result (self.new ≡ cell_alias line name.now self.old) }
    {
        let found = self.names.find(name);
        self.alias_found(line, found)
    }

    /// Takes a piece.
    #[tactic(auto, unfolding(crate::specs::inside::Builder::take_piece))]
    fn take_piece(&mut self, line: usize, piece: Piece) -> Result<(), NoMemory>
        ensures { OnOk result (self.new ≡ take_piece line piece self.old) }
    {
        match piece {
            Piece::Opening(bracket) => self.open_cell(line, bracket),
            Piece::Closing(_) => self.close_cell(line),
            Piece::Comma => self.flush(line),
            Piece::CellKey(key) => self.key_cell(line, key),
            Piece::CellScalar(text) => {
                self.cell_node(line, scalar_value(text), Measure::one_node())
            }
            Piece::CellAnchor(text) => {
                self.name = Some(GivenName { line, text });
                Ok(())
            }
            Piece::CellAlias(name) => self.alias_cell(line, &name),
            Piece::OddPiece(_) => Ok(()),
        }
    }

    /// Takes the pieces of a flow form.
    pub fn take_pieces(&mut self, line: usize, pieces: Pieces) -> Result<(), NoMemory>
        ensures { OnOk result (self.new ≡ take_pieces line pieces self.old) }
    {
        let mut left = pieces.into_left();
        while let Some(piece) = left.next() {
            self.take_piece(line, piece)?;
        }
        Ok(())
    }
}

fn is_curly(bracket: Bracket) -> bool
    ensures { result ≡ is_curly bracket }
{
    match bracket {
        Bracket::Square => false,
        Bracket::Curly => true,
    }
}
