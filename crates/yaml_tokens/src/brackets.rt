//! Whether a bracket is closed on its line.

ghost use Rattle.std.specs.Prelude.{◌≡◌};
ghost use Rattle.yaml_tokens.specs.Pieces.{closes_at, why_bracket};

use crate::bare::BarePiece;
use crate::odd::Odd;
use crate::pieces::Pieces;

/// Whether a bracket is closed by the pieces behind it.
pub fn closes_at(pieces: &[BarePiece]) -> bool
    ensures { result ≡ closes_at 0 pieces.now }
{
    let mut opened = 1;
    for piece in pieces {
        if piece.is_last(opened) {
            return true;
        }
        opened = piece.open_after(opened);
    }
    false
}

/// Why a bracket can't stand where it is.
#[tactic(auto, using(crate::proofs::PackedLaws::bare_bracket))]
pub fn why_bracket(pieces: &Pieces) -> Odd
    ensures { result ≡ why_bracket pieces.now }
{
    why_bare(pieces.as_bare())
}

fn why_bare(pieces: &[BarePiece]) -> Odd
    ensures { result ≡ why_bracket pieces.now }
{
    match pieces {
        [_, behind @ ..] if !closes_at(behind) => Odd::Unsupported,
        _ => Odd::Syntax,
    }
}
