//! Where a line stands: outside of literal blocks, or inside of one.

ghost use Rattle.std.specs.Prelude.{◌≡◌, ◌∷◌, List};
ghost use Rattle.yaml_tokens.specs.Literals.{is_blank};
ghost use Rattle.yaml_tokens.specs.Tokens.{head_of, stands_in, is_body, bar_column, column_behind, place_inside, place_behind, place_after};
ghost use Rattle.yaml_tokens.specs.declared.token.Token.{Token};

use crate::scan::{is_blank, spaces};
use crate::token::{Token, Tokens};

#[derive(Clone, Copy)]
pub enum LinePlace {
    /// Outside of literal blocks.
    Outside {
        /// The column of the last key or dash, if any.
        head: Option<usize>,
    },
    /// Inside of a literal block.
    Inside {
        /// The column of its bar.
        bar: usize,
        /// The column of the last key or dash, if any.
        head: Option<usize>,
        /// The block's own column, once a line of it isn't blank.
        block: Option<usize>,
    },
}

/// A block stands deeper than the key or dash whose value it is; at the root it may stand at any
/// column. No line of a block stands left of it.
fn stands_in(head: Option<usize>, block: Option<usize>, column: usize) -> bool
    ensures { result ≡ stands_in head block column }
{
    match block {
        None => match head {
            None => true,
            Some(head) => head < column,
        },
        Some(block) => block <= column,
    }
}

/// The block's column is that of its first line that isn't blank.
fn column_behind(block: Option<usize>, line: &[u8]) -> Option<usize>
    ensures { result ≡ column_behind block line.now }
{
    match block {
        None => {
            if is_blank(line) {
                None
            } else {
                Some(spaces(line))
            }
        }
        Some(column) => Some(column),
    }
}

impl LinePlace {
    /// The column of the last key or dash, if any.
    fn head(self) -> Option<usize>
        ensures { result ≡ head_of self }
    {
        match self {
            LinePlace::Outside { head } => head,
            LinePlace::Inside { head, .. } => head,
        }
    }

    /// Whether a line that stands here is one of a literal block: a blank one, or one that doesn't
    /// stand left of the block.
    pub(crate) fn is_body(self, line: &[u8]) -> bool
        ensures { result ≡ is_body self line.now }
    {
        match self {
            LinePlace::Outside { .. } => false,
            LinePlace::Inside { head, block, .. } => is_blank(line)
                || stands_in(head, block, spaces(line)),
        }
    }

    /// The column of the block's bar.
    pub(crate) fn bar_column(self) -> usize
        ensures { result ≡ bar_column self }
    {
        match self {
            LinePlace::Outside { .. } => 0,
            LinePlace::Inside { bar, .. } => bar,
        }
    }

    /// Behind a line of the block.
    fn behind_line(self, line: &[u8]) -> LinePlace
        ensures { result ≡ place_inside self line.now }
    {
        match self {
            LinePlace::Outside { head } => LinePlace::Outside { head },
            LinePlace::Inside { bar, head, block } => LinePlace::Inside {
                bar,
                head,
                block: column_behind(block, line),
            },
        }
    }

    fn behind_token(self, token: &Token) -> LinePlace
        ensures { (tokens : List Token) → place_behind self (token.now ∷ tokens) ≡ place_behind result tokens }
    {
        match token {
            Token::Dash { column, .. } => LinePlace::Outside {
                head: Some(*column),
            },
            Token::Key { column, .. } => LinePlace::Outside {
                head: Some(*column),
            },
            Token::Bar { column, .. } => LinePlace::Inside {
                bar: *column,
                head: self.head(),
                block: None,
            },
            _ => self,
        }
    }

    fn behind_tokens(self, tokens: &Tokens) -> LinePlace
        ensures { result ≡ place_behind self tokens.now }
    {
        let mut place = self;
        for token in tokens.as_slice() {
            place = place.behind_token(token);
        }
        place
    }
}

/// Where the next line stands, behind a line that has these tokens.
#[tactic(auto, unfolding(crate::specs::Tokens::place_after))]
pub fn next_place(place: LinePlace, bytes: &[u8], tokens: &Tokens) -> LinePlace
    ensures { result ≡ place_after place bytes.now tokens.now }
{
    if place.is_body(bytes) {
        place.behind_line(bytes)
    } else {
        LinePlace::Outside { head: place.head() }.behind_tokens(tokens)
    }
}
