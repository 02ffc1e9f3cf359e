//! The outline of a text: a row for each pair of a key and a value that is asked for.

ghost use Rattle.std.specs.Prelude.{◌≡◌, ◌+◌, ◌<◌, ◌≤◌, [], length, Ok, IfOk};
ghost use Rattle.gml_graph.specs.Steps.{Gives};
ghost use Rattle.gml_graph.specs.Outline.{depth_behind, last_line};
ghost use Rattle.gml_graph.specs.inside.Asked.{asked_outline};

use crate::asked::{is_kept, reach_behind};
use crate::fault::{GmlError, GmlFault, GmlKind};
use crate::number::Decimal;
use crate::scanner::{Scanner, line_behind};
use crate::token::{Key, Lexeme, Quoted, Token};
use std::alloc::Global;
use std::marker::Model;

/// How deep lists may lie.
const GREATEST_DEPTH: u8 = 16;

/// What stands behind a key.
#[derive(Clone, Copy)]
pub enum Value {
    Number(Decimal),
    Text(Quoted),
    /// A list, whose pairs are the rows that follow and lie deeper.
    List,
}

/// A pair: how many lists are open where it stands, its key with the key's line, and its value.
#[derive(Clone, Copy)]
pub struct OutlineRow {
    pub value: Value,
    pub line: u64,
    pub depth: u8,
    pub key: Key,
}

/// A key whose value comes next.
#[derive(Clone, Copy)]
pub struct Waiting {
    pub line: u64,
    pub key: Key,
}

/// What was read of a text: of its pairs the ones that are kept, and how deep the next one may lie to be kept.
#[derive(Drop)]
pub struct Outline {
    last: u64,
    depth: u8,
    waiting: Option<Waiting>,
    reach: u8,
    rows: Vec<OutlineRow>,
}

impl Model for Outline {
    ghost use Rattle.std.specs.Prelude.{◌≤◌};
    ghost use Rattle.gml_graph.specs.Limits.{greatest_depth};
    ghost use Rattle.gml_graph.specs.inside.Asked.{Kept};

    ghost Value = { Kept };

    ghost view = { λ o. record {
      reach = o.reach;
      shape = record { last = o.last; depth = o.depth; waiting = o.waiting; rows = o.rows.items };
    } };

    ghost invariant = { λ o. o.depth ≤ greatest_depth };
}

fn syntax(line: u64) -> GmlFault
    ensures { result ≡ record { line = line; kind = GmlKind.Syntax } }
{
    GmlFault {
        line,
        kind: GmlKind::Syntax,
    }
}

/// The line of the last byte.
fn last_line_of(bytes: &[u8]) -> u64
    ensures { result ≡ last_line bytes.now }
{
    if bytes.is_empty() {
        return 1;
    }
    line_behind(1, &bytes[..bytes.len() - 1])
}

impl Outline {
    ghost use Rattle.gml_graph.specs.Outline.{value_of, finish};
    ghost use Rattle.gml_graph.specs.inside.Asked.{keep_key, keep_value, keep};

    fn new(alloc: Global, last: u64) -> Self
        ensures { result ≡ record { reach = 0; shape = record { last = last; depth = 0; waiting = None; rows = [] } } }
    {
        Outline {
            last,
            depth: 0,
            waiting: None,
            reach: 0,
            rows: Vec::new(alloc),
        }
    }

    /// Takes the next token.
    #[tactic(auto, unfolding(crate::specs::inside::Asked::keep))]
    fn accept(&mut self, lexeme: Lexeme) -> Result<(), GmlError>
        ensures { Gives (λ _. self.new) result (keep self.old lexeme) }
    {
        match self.waiting {
            None => self.accept_key(lexeme),
            Some(key) => self.accept_value(key, lexeme),
        }
    }

    fn accept_key(&mut self, lexeme: Lexeme) -> Result<(), GmlError>
        ensures { Gives (λ _. self.new) result (keep_key self.old lexeme.line lexeme.token) }
    {
        match lexeme.token {
            Token::Name(key) => {
                self.waiting = Some(Waiting {
                    line: lexeme.line,
                    key,
                });
                Ok(())
            }
            Token::Close => {
                if self.depth == 0 {
                    return Err(GmlError::Fault(syntax(lexeme.line)));
                }
                self.depth -= 1;
                Ok(())
            }
            Token::Number(_) | Token::Text(_) | Token::Open | Token::Unclosed | Token::Odd => {
                Err(GmlError::Fault(syntax(lexeme.line)))
            }
        }
    }

    fn value_of(&self, lexeme: Lexeme) -> Result<Value, GmlFault>
        ensures value { result ≡ value_of self.now.shape lexeme.line lexeme.token }
        ensures deep { IfOk result (λ value. depth_behind self.now.shape.depth value ≤ GREATEST_DEPTH) }
    {
        let depth = self.depth;
        match lexeme.token {
            Token::Number(number) => Ok(Value::Number(number)),
            Token::Text(text) => Ok(Value::Text(text)),
            Token::Open => {
                if depth >= GREATEST_DEPTH {
                    return Err(syntax(lexeme.line));
                }
                Ok(Value::List)
            }
            Token::Unclosed => Err(syntax(self.last)),
            Token::Name(_) | Token::Close | Token::Odd => Err(syntax(lexeme.line)),
        }
    }

    fn accept_value(&mut self, key: Waiting, lexeme: Lexeme) -> Result<(), GmlError>
        ensures { Gives (λ _. self.new) result (keep_value self.old key lexeme.line lexeme.token) }
    {
        let value = self.value_of(lexeme)?;
        let row = OutlineRow {
            depth: self.depth,
            line: key.line,
            key: key.key,
            value,
        };
        if is_kept(self.reach, &row) {
            self.rows.push(row)?;
        }
        self.reach = reach_behind(self.reach, &row);
        self.waiting = None;
        self.depth = behind(self.depth, value);
        Ok(())
    }

    fn finish(self) -> Result<Vec<OutlineRow>, GmlError>
        ensures { Gives (λ rows. rows.items) result (finish self.shape) }
    {
        if self.waiting.is_some() || self.depth != 0 {
            return Err(GmlError::Fault(syntax(self.last)));
        }
        let Outline {
            last: _,
            depth: _,
            waiting: _,
            reach: _,
            rows,
        } = self;
        Ok(rows)
    }
}

/// The pairs of a list lie one deeper.
fn behind(depth: u8, value: Value) -> u8
    requires { depth_behind depth value ≤ GREATEST_DEPTH }
    ensures { result ≡ depth_behind depth value }
{
    match value {
        Value::List => depth + 1,
        Value::Number(_) | Value::Text(_) => depth,
    }
}

/// The rows of a text that are kept.
#[tactic(auto, using(crate::proofs::KeptLemmas::kept_outline))]
pub fn read_outline(alloc: Global, text: &str) -> Result<Vec<OutlineRow>, GmlError>
    ensures { Gives (λ rows. rows.items) result (asked_outline text.now) }
{
    let mut outline = Outline::new(alloc, last_line_of(text.as_bytes()));
    let mut scanner = Scanner::new(text);
    while let Some(lexeme) = scanner.next_lexeme() {
        outline.accept(lexeme)?;
    }
    outline.finish()
}
