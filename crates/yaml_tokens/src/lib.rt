//! The tokens of the lines of a YAML text, in this project's own profile of YAML 1.2.
#![tactic(auto)]

mod bare;
mod brackets;
mod cells;
mod chomp;
mod escapes;
mod kept;
pub mod laws;
mod line;
mod lines;
mod names;
mod odd;
mod piece;
mod pieces;
mod place;
mod scalar;
mod scan;
mod text_or_null;
mod token;
mod values;

pub use bare::{BarePiece, PieceKind};
pub use brackets::{closes_at, why_bracket};
pub use chomp::Chomp;
pub use escapes::{Added, Escape};
pub use line::{has_content, line_tokens};
pub use lines::{next_line, without_mark};
pub use odd::Odd;
pub use piece::{Bracket, Piece};
pub use pieces::{Pieces, PiecesLeft};
pub use place::{LinePlace, next_place};
pub use scalar::Scalar;
pub use scan::{Scan, is_blank, past, spaces};
pub use text_or_null::TextOrNull;
pub use token::{Token, Tokens};
