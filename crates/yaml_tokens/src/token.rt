//! The tokens of a line, each with its line and column.

ghost use Rattle.std.specs.Prelude.{◌≡◌, ◌++◌, ◌∷◌, List, [], OnOk};
ghost use Rattle.yaml_tokens.specs.declared.token.Token.{Token};

use crate::chomp::Chomp;
use crate::odd::Odd;
use crate::pieces::Pieces;
use crate::scalar::Scalar;
use crate::text_or_null::TextOrNull;
use sim_base::NoMemory;
use std::alloc::Global;
use std::marker::Model;

/// A token with its line (from 1) and its column (from 0).
#[derive(Drop)]
pub enum Token {
    /// `-` before a space or the line's end.
    Dash {
        line: usize,
        column: usize,
    },
    /// `KEY:`
    Key {
        line: usize,
        column: usize,
        text: Scalar,
    },
    /// A scalar that is no key: a text, or none for plain `~` and `null`.
    Scalar {
        line: usize,
        column: usize,
        text: TextOrNull,
    },
    /// `&NAME`
    Anchor {
        line: usize,
        column: usize,
        name: Scalar,
    },
    /// `*NAME`
    Alias {
        line: usize,
        column: usize,
        name: Scalar,
    },
    /// `|`, `|-` or `|+`
    Bar {
        line: usize,
        column: usize,
        chomp: Chomp,
    },
    /// A line of a literal block, whole; the column is that of the block's bar.
    Body {
        line: usize,
        column: usize,
        text: Scalar,
    },
    /// The pieces of a flow form.
    Form {
        line: usize,
        column: usize,
        pieces: Pieces,
    },
    /// What no rule admits.
    OddToken {
        line: usize,
        column: usize,
        why: Odd,
    },
}

/// The tokens of a line in order, which contracts see as a list.
#[derive(Drop)]
pub struct Tokens {
    items: Vec<Token>,
}

impl Model for Tokens {
    ghost use Rattle.std.specs.Prelude.{List};
    ghost use Rattle.yaml_tokens.specs.declared.token.Token.{Token};

    ghost Value = { List Token };

    ghost view = { λ m. m.items.items };
}

impl Tokens {
    pub fn new(alloc: Global) -> Tokens
        ensures { result ≡ [] }
    {
        Tokens {
            items: Vec::new(alloc),
        }
    }

    pub fn push(&mut self, token: Token) -> Result<(), NoMemory>
        ensures { OnOk result (self.new ≡ self.old ++ token ∷ []) }
    {
        self.items.push(token)?;
        Ok(())
    }

    pub fn as_slice(&self) -> &[Token]
        ensures { result.now ≡ self.now }
    {
        self.items.as_slice()
    }

    /// Gives the tokens back without taking memory.
    pub fn into_vec(self) -> Vec<Token>
        ensures { result.items ≡ self }
    {
        let Tokens { items } = self;
        items
    }
}
