//! The pieces of a flow form without their texts.

ghost use Rattle.std.specs.Prelude.{◌≡◌, ◌<◌, Some};
ghost use Rattle.yaml_tokens.specs.Pieces.{open_after, is_last};
ghost use Rattle.yaml_tokens.specs.inside.Packed.{piece_of};

use crate::odd::Odd;
use crate::piece::Bracket;
use std::marker::Model;

/// What a piece is, whatever its text.
#[derive(Clone, Copy)]
pub enum PieceKind {
    Opening(Bracket),
    Closing(Bracket),
    Comma,
    Key,
    Scalar,
    Anchor,
    Alias,
    Odd(Odd),
}

/// A piece without its text, which contracts see as a piece. Two bytes are kept of it, since a line
/// may have millions.
#[derive(Drop)]
pub struct BarePiece {
    kind: PieceKind,
}

impl Model for BarePiece {
    ghost use Rattle.yaml_tokens.specs.declared.piece.Piece.{Piece};

    ghost Value = { Piece };

    ghost use Rattle.yaml_tokens.specs.inside.Packed.{piece_of};

    ghost view = { λ p. piece_of p.kind };
}

impl BarePiece {
    pub(crate) fn new(kind: PieceKind) -> BarePiece
        ensures { result ≡ piece_of kind }
    {
        BarePiece { kind }
    }

    pub fn kind(&self) -> PieceKind
        ensures { piece_of result ≡ self.now }
    {
        self.kind
    }

    /// How many brackets are open behind it.
    pub(crate) fn open_after(&self, opened: usize) -> usize
        requires { opened < usize.MAX }
        ensures { result ≡ open_after (Some self.now) opened }
    {
        match self.kind {
            PieceKind::Opening(_) => opened + 1,
            PieceKind::Closing(_) => opened.saturating_sub(1),
            _ => opened,
        }
    }

    /// Whether it closes the last of the brackets that are open.
    pub(crate) fn is_last(&self, opened: usize) -> bool
        ensures { result ≡ is_last (Some self.now) opened }
    {
        match self.kind {
            PieceKind::Closing(_) => opened <= 1,
            _ => false,
        }
    }
}
