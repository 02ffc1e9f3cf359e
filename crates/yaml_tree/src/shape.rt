//! Whether pieces are a flow form.

ghost use Rattle.std.specs.Prelude.{◌≡◌, ◌<◌, ◌∷◌, ◌↔◌, List, [], Some, IfOk, OnOk, IsTrue, length, drop};
ghost use Rattle.yaml_tree.specs.inside.Outline.{is_bracket_of, takes_value, takes_form, takes_name, takes_key, takes_comma, takes_closing, takes_piece, closed, behind, piece_fault, fault_from, flow_fault};
ghost use Rattle.yaml_tree.specs.Flows.{kind_behind_key};
ghost use Rattle.yaml_tokens.specs.declared.piece.Bracket.{Bracket};
ghost use Rattle.yaml_tree.specs.declared.shape.Want.TheVariants as want;

use crate::fault::FaultKind;
use sim_base::NoMemory;
use std::alloc::Global;
use std::marker::Model;
use yaml_tokens::{BarePiece, Bracket, Odd, PieceKind, Pieces, closes_at};

/// What may come next in a flow form.
#[derive(Clone, Copy)]
pub enum Want {
    /// The opening bracket.
    Form,
    /// An item, a key, or the closing bracket.
    Cell,
    /// A value behind a key.
    Value,
    /// A value without a name, or what stands behind a value: behind a name.
    Named,
    /// A comma or the closing bracket.
    End,
    /// Nothing: the form is closed.
    Nothing,
}

/// The brackets that are open, which contracts see as a list, the innermost first.
#[derive(Drop)]
pub struct Brackets {
    items: Vec<Bracket>,
}

impl Model for Brackets {
    ghost use Rattle.std.specs.Prelude.{List, reverse};
    ghost use Rattle.yaml_tokens.specs.declared.piece.Bracket.{Bracket};

    ghost Value = { List Bracket };

    ghost view = { λ b. reverse b.items.items };
}

impl Brackets {
    fn new(alloc: Global) -> Brackets
        ensures { result ≡ [] }
    {
        Brackets {
            items: Vec::new(alloc),
        }
    }

    fn push(&mut self, bracket: Bracket) -> Result<(), NoMemory>
        ensures { OnOk result (self.new ≡ bracket ∷ self.old) }
    {
        self.items.push(bracket)?;
        Ok(())
    }

    /// Takes the innermost bracket off, if any is open.
    fn pop(&mut self)
        ensures { self.new ≡ drop 1 self.old }
    {
        self.items.pop();
    }

    fn is_empty(&self) -> bool
        ensures { IsTrue result ↔ length self.now ≡ 0 }
    {
        self.items.is_empty()
    }

    /// Whether the innermost bracket is this one.
    fn is_in(&self, bracket: Bracket) -> bool
        ensures { result ≡ is_bracket_of bracket self.now }
    {
        match self.items.last() {
            Some(innermost) => *innermost == bracket,
            None => false,
        }
    }
}

/// A flow form that is read so far.
#[derive(Drop)]
pub struct Shape {
    pub want: Want,
    pub brackets: Brackets,
}

impl Shape {
    fn new(alloc: Global) -> Shape
        ensures { result ≡ record { want = want.Form; brackets = [] } }
    {
        Shape {
            want: Want::Form,
            brackets: Brackets::new(alloc),
        }
    }

    /// Whether a value may come.
    fn takes_value(&self) -> bool
        ensures { result ≡ takes_value self.now.want self.now.brackets }
    {
        match self.want {
            Want::Cell => self.brackets.is_in(Bracket::Square),
            Want::Value | Want::Named => true,
            Want::Form | Want::End | Want::Nothing => false,
        }
    }

    /// Whether a bracket may open.
    fn takes_form(&self) -> bool
        ensures { result ≡ takes_form self.now.want self.now.brackets }
    {
        match self.want {
            Want::Form => true,
            Want::Cell | Want::Value | Want::Named | Want::End | Want::Nothing => {
                self.takes_value()
            }
        }
    }

    /// Whether an anchor, or an alias, may come.
    fn takes_name(&self) -> bool
        ensures { result ≡ takes_name self.now.want self.now.brackets }
    {
        match self.want {
            Want::Cell => self.brackets.is_in(Bracket::Square),
            Want::Value => true,
            Want::Form | Want::Named | Want::End | Want::Nothing => false,
        }
    }

    fn takes_key(&self) -> bool
        ensures { result ≡ takes_key self.now.want self.now.brackets }
    {
        match self.want {
            Want::Cell => !self.brackets.is_in(Bracket::Square),
            Want::Form | Want::Value | Want::Named | Want::End | Want::Nothing => false,
        }
    }

    fn takes_comma(&self) -> bool
        ensures { result ≡ takes_comma self.now.want }
    {
        match self.want {
            Want::Named | Want::End => true,
            Want::Form | Want::Cell | Want::Value | Want::Nothing => false,
        }
    }

    fn takes_closing(&self, bracket: Bracket) -> bool
        ensures { result ≡ takes_closing bracket self.now }
    {
        match self.want {
            Want::Cell | Want::Named | Want::End => self.brackets.is_in(bracket),
            Want::Form | Want::Value | Want::Nothing => false,
        }
    }

    /// Whether the piece may come.
    fn takes_piece(&self, piece: &BarePiece) -> bool
        ensures { result ≡ takes_piece piece.now self.now }
    {
        match piece.kind() {
            PieceKind::Opening(_) => self.takes_form(),
            PieceKind::Closing(bracket) => self.takes_closing(bracket),
            PieceKind::Comma => self.takes_comma(),
            PieceKind::Key => self.takes_key(),
            PieceKind::Scalar => self.takes_value(),
            PieceKind::Anchor | PieceKind::Alias => self.takes_name(),
            PieceKind::Odd(_) => false,
        }
    }

    /// Closes the innermost bracket.
    fn close(&mut self)
        ensures { self.new ≡ closed self.old.brackets }
    {
        self.brackets.pop();
        self.want = if self.brackets.is_empty() {
            Want::Nothing
        } else {
            Want::End
        };
    }

    /// Takes a piece that may come.
    fn take_piece(&mut self, piece: &BarePiece) -> Result<(), NoMemory>
        ensures { OnOk result (self.new ≡ behind piece.now self.old) }
    {
        match piece.kind() {
            PieceKind::Opening(bracket) => {
                self.brackets.push(bracket)?;
                self.want = Want::Cell;
            }
            PieceKind::Closing(_) => self.close(),
            PieceKind::Comma => self.want = Want::Cell,
            PieceKind::Key => self.want = Want::Value,
            PieceKind::Anchor => self.want = Want::Named,
            PieceKind::Scalar | PieceKind::Alias => self.want = Want::End,
            PieceKind::Odd(_) => {}
        }
        Ok(())
    }

    /// The fault of a piece that may not come; behind it stands the rest.
    fn piece_fault(&self, piece: &BarePiece, rest: &[BarePiece]) -> FaultKind
        ensures { result ≡ piece_fault piece.now rest.now self.now }
    {
        match piece.kind() {
            PieceKind::Opening(_) if !closes_at(rest) => FaultKind::Unsupported,
            PieceKind::Scalar if self.takes_key() => kind_behind_key(rest),
            PieceKind::Odd(Odd::Unsupported) => FaultKind::Unsupported,
            PieceKind::Odd(Odd::Indicator) if self.takes_value() => FaultKind::Unsupported,
            _ => FaultKind::Syntax,
        }
    }

    /// The fault of pieces that end here, if any.
    #[tactic(auto, unfolding(crate::specs::inside::Outline::fault_from))]
    fn end_fault(&self) -> Option<FaultKind>
        ensures { result ≡ fault_from [] self.now }
    {
        match self.want {
            Want::Nothing => None,
            _ => Some(FaultKind::Unsupported),
        }
    }
}

/// The kind of fault of what stands behind a key without its colon.
fn kind_behind_key(rest: &[BarePiece]) -> FaultKind
    ensures { result ≡ kind_behind_key rest.now }
{
    let Some((piece, behind)) = rest.split_first() else {
        return FaultKind::Unsupported;
    };
    match piece.kind() {
        PieceKind::Opening(_) if !closes_at(behind) => FaultKind::Unsupported,
        PieceKind::Odd(Odd::Unsupported) => FaultKind::Unsupported,
        _ => FaultKind::Syntax,
    }
}

/// The fault of pieces that are no flow form's, if any.
#[tactic(auto, using(crate::proofs::ShapeSteps::bare_flow_fault))]
pub(crate) fn flow_fault(alloc: Global, pieces: &Pieces) -> Result<Option<FaultKind>, NoMemory>
    ensures { IfOk result (λ fault. fault ≡ flow_fault pieces.now) }
{
    bare_fault(alloc, pieces.as_bare())
}

/// The same, which looks at no text.
fn bare_fault(alloc: Global, pieces: &[BarePiece]) -> Result<Option<FaultKind>, NoMemory>
    ensures { IfOk result (λ fault. fault ≡ flow_fault pieces.now) }
{
    let mut shape = Shape::new(alloc);
    for (i, piece) in pieces.iter().enumerate() {
        if !shape.takes_piece(piece) {
            return Ok(Some(shape.piece_fault(piece, &pieces[i + 1..])));
        }
        shape.take_piece(piece)?;
    }
    Ok(shape.end_fault())
}
