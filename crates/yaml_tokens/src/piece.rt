//! The pieces of a flow form.

use crate::odd::Odd;
use crate::scalar::Scalar;
use crate::text_or_null::TextOrNull;

#[derive(Clone, Copy, PartialEq, Eq)]
pub enum Bracket {
    /// `[` and `]`
    Square,
    /// `{` and `}`
    Curly,
}

/// A part of a flow form.
#[derive(Drop)]
pub enum Piece {
    Opening(Bracket),
    Closing(Bracket),
    Comma,
    /// `KEY:`
    CellKey(Scalar),
    /// A scalar that is no key: a text, or none for plain `~` and `null`.
    CellScalar(TextOrNull),
    /// `&NAME`
    CellAnchor(Scalar),
    /// `*NAME`
    CellAlias(Scalar),
    /// What no form has.
    OddPiece(Odd),
}
