//! The pieces of a flow form in order.

ghost use Rattle.std.specs.Prelude.{◌≡◌, ◌++◌, ◌∷◌, [], IfOk, MatchOption, map, drop, length, option_to_list};
ghost use Rattle.std.specs.Vec.Iter.{into_iter_items};
ghost use Rattle.yaml_tokens.specs.inside.Packed.{piece_of, bare, texts_of, first_text, with_text};

use crate::bare::{BarePiece, PieceKind};
use crate::piece::Piece;
use crate::scalar::Scalar;
use crate::text_or_null::TextOrNull;
use sim_base::NoMemory;
use std::alloc::Global;
use std::marker::Model;
use std::vec::IntoIter;

/// The pieces of a flow form in order, which contracts see as a list. A line may have millions, most
/// of them without a text.
#[derive(Drop)]
pub struct Pieces {
    bare: Box<Vec<BarePiece>>,
    texts: Box<Vec<TextOrNull>>,
}

impl Model for Pieces {
    ghost use Rattle.std.specs.Prelude.{List};
    ghost use Rattle.yaml_tokens.specs.declared.piece.Piece.{Piece};

    ghost Value = { List Piece };

    ghost use Rattle.yaml_tokens.specs.inside.Packed.{with_texts, IsPacked};

    ghost view = { λ p. with_texts p.bare.value.items p.texts.value.items };

    ghost invariant = { λ p. IsPacked p.bare.value.items p.texts.value.items };
}

impl Pieces {
    #[tactic(auto, using(crate::proofs::PackedLaws::packed_none))]
    pub fn new(alloc: Global) -> Result<Pieces, NoMemory>
        ensures { IfOk result (λ pieces. pieces ≡ []) }
    {
        Ok(Pieces {
            bare: Box::new(alloc, Vec::new(alloc))?,
            texts: Box::new(alloc, Vec::new(alloc))?,
        })
    }

    /// The same with a piece more.
    #[tactic(auto, using(crate::proofs::PackedLaws::one_more, crate::proofs::PackedLaws::packed_more))]
    pub fn with(self, piece: Piece) -> Result<Pieces, NoMemory>
        ensures { IfOk result (λ grown. grown ≡ self ++ piece ∷ []) }
    {
        let Pieces { bare, texts } = self;
        let (kind, text) = parted(piece);
        let texts = with_text_more(texts, text)?;
        let bare = with_bare_more(bare, BarePiece::new(kind))?;
        Ok(Pieces { bare, texts })
    }

    /// The pieces without their texts.
    #[tactic(auto, using(crate::proofs::PackedLaws::kept_bare))]
    pub fn as_bare(&self) -> &[BarePiece]
        ensures { result.now ≡ map bare self.now }
    {
        self.bare.as_slice()
    }

    /// The pieces one by one, without taking memory.
    pub fn into_left(self) -> PiecesLeft
        ensures { result ≡ self }
    {
        let Pieces { bare, texts } = self;
        PiecesLeft {
            bare: Box::into_inner(bare).into_iter(),
            texts: Box::into_inner(texts).into_iter(),
        }
    }
}

/// The pieces that are left, which contracts see as a list.
#[derive(Drop)]
pub struct PiecesLeft {
    bare: IntoIter<BarePiece>,
    texts: IntoIter<TextOrNull>,
}

impl Model for PiecesLeft {
    ghost use Rattle.std.specs.Prelude.{List};
    ghost use Rattle.std.specs.Vec.Iter.{into_iter_items};
    ghost use Rattle.yaml_tokens.specs.declared.piece.Piece.{Piece};

    ghost Value = { List Piece };

    ghost use Rattle.yaml_tokens.specs.inside.Packed.{with_texts};

    ghost view = { λ p. with_texts (into_iter_items p.bare) (into_iter_items p.texts) };
}

impl PiecesLeft {
    /// Takes the first piece, if any is left.
    pub fn next(&mut self) -> Option<Piece>
        ensures { MatchOption result ((self.old ≡ []) × (self.new ≡ []))
            (λ piece. self.old ≡ piece ∷ self.new) }
    {
        match self.bare.next() {
            Some(bare) => Some(with_next(bare, &mut self.texts)),
            None => None,
        }
    }
}

/// A piece's kind, and its text if it has one.
fn parted(piece: Piece) -> (PieceKind, Option<TextOrNull>)
    ensures kind { piece_of result.0 ≡ bare piece }
    ensures text { option_to_list result.1 ≡ texts_of piece }
{
    match piece {
        Piece::Opening(bracket) => (PieceKind::Opening(bracket), None),
        Piece::Closing(bracket) => (PieceKind::Closing(bracket), None),
        Piece::Comma => (PieceKind::Comma, None),
        Piece::CellKey(text) => (PieceKind::Key, Some(TextOrNull::text(text))),
        Piece::CellScalar(text) => (PieceKind::Scalar, Some(text)),
        Piece::CellAnchor(text) => (PieceKind::Anchor, Some(TextOrNull::text(text))),
        Piece::CellAlias(text) => (PieceKind::Alias, Some(TextOrNull::text(text))),
        Piece::OddPiece(why) => (PieceKind::Odd(why), None),
    }
}

/// The texts with one more, if there is one.
fn with_text_more(
    texts: Box<Vec<TextOrNull>>,
    text: Option<TextOrNull>,
) -> Result<Box<Vec<TextOrNull>>, NoMemory>
    ensures { IfOk result (λ grown. grown.value.items ≡ texts.value.items ++ option_to_list text) }
{
    let mut texts = texts;
    if let Some(text) = text {
        texts.push(text)?;
    }
    Ok(texts)
}

fn with_bare_more(
    bare: Box<Vec<BarePiece>>,
    piece: BarePiece,
) -> Result<Box<Vec<BarePiece>>, NoMemory>
    ensures { IfOk result (λ grown. grown.value.items ≡ bare.value.items ++ piece ∷ []) }
{
    let mut bare = bare;
    bare.push(piece)?;
    Ok(bare)
}

/// A piece with the next of the texts, if it has one.
fn with_next(bare: BarePiece, texts: &mut IntoIter<TextOrNull>) -> Piece
    ensures piece { result ≡ with_text bare (into_iter_items texts.old) }
    ensures left { into_iter_items texts.new ≡ drop (length (texts_of bare)) (into_iter_items texts.old) }
{
    match bare.kind() {
        PieceKind::Opening(bracket) => Piece::Opening(bracket),
        PieceKind::Closing(bracket) => Piece::Closing(bracket),
        PieceKind::Comma => Piece::Comma,
        PieceKind::Key => Piece::CellKey(next_text(texts).or_empty()),
        PieceKind::Scalar => Piece::CellScalar(next_text(texts)),
        PieceKind::Anchor => Piece::CellAnchor(next_text(texts).or_empty()),
        PieceKind::Alias => Piece::CellAlias(next_text(texts).or_empty()),
        PieceKind::Odd(why) => Piece::OddPiece(why),
    }
}

/// The next text, or null where none is left.
fn next_text(texts: &mut IntoIter<TextOrNull>) -> TextOrNull
    ensures text { result ≡ first_text (into_iter_items texts.old) }
    ensures left { into_iter_items texts.new ≡ drop 1 (into_iter_items texts.old) }
{
    match texts.next() {
        Some(text) => text,
        None => TextOrNull::null(),
    }
}
