//! The tokens of a value on its line, read from the left.

ghost use Rattle.std.specs.Prelude.{◌≡◌, ◌+◌, ◌<◌, ◌^◌, ◌∷◌, ◌++◌, [], Some, length, IfOk, OnOk};
ghost use Rattle.yaml_tokens.specs.Scalars.{is_null, plain_value, why_not, at_gap, scalar_at};
ghost use Rattle.yaml_tokens.specs.Literals.{chomp_at, chomp_len, is_digit_first};
ghost use Rattle.yaml_tokens.specs.Anchors.{has_name, name_len, name_at, after_name};
ghost use Rattle.yaml_tokens.specs.Pieces.{is_bracket};
ghost use Rattle.yaml_tokens.specs.Tokens.{refused, why_behind, behind_value, alias_tokens, bar_tokens, flow_tokens, is_node_indicator, indicated, scalar_tokens, unkeyed, lone_tokens, bare_value, behind_spaces, value_tokens};
ghost use Rattle.yaml_tokens.specs.declared.token.Token.TheVariants as token;

use crate::brackets::why_bracket;
use crate::cells::flow_at;
use crate::chomp::Chomp;
use crate::names::{after_name, name_at, name_len};
use crate::odd::Odd;
use crate::scalar::Scalar;
use crate::scan::{Scan, after_spaces, at_end, at_gap, from, past, plain_value, scalar_at, spaces};
use crate::text_or_null::TextOrNull;
use crate::token::{Token, Tokens};
use sim_base::NoMemory;
use std::alloc::Global;

fn is_bracket(b: u8) -> bool
    ensures { result ≡ is_bracket b }
{
    b == b'[' || b == b'{'
}

/// `*`, `|`, `[`, `{`; and `&` where no name may stand.
pub(crate) fn is_node_indicator(b: u8) -> bool
    ensures { result ≡ is_node_indicator b }
{
    is_bracket(b) || b == b'*' || b == b'|' || b == b'&'
}

/// Why nothing of this may stand behind a value.
fn why_not(scan: Scan) -> Odd
    ensures { result ≡ why_not scan }
{
    match scan {
        Scan::Refused(Odd::Unsupported) => Odd::Unsupported,
        _ => Odd::Syntax,
    }
}

/// Why nothing of this may stand behind a value on its line.
fn why_behind(alloc: Global, bytes: &[u8]) -> Result<Odd, NoMemory>
    requires { length bytes.now < 2 ^ 62 }
    ensures { IfOk result (λ why. why ≡ why_behind bytes.now) }
{
    let Some((b, _)) = bytes.split_first() else {
        return Ok(Odd::Syntax);
    };
    if is_bracket(*b) {
        let (pieces, _) = flow_at(alloc, bytes)?;
        return Ok(why_bracket(&pieces));
    }
    let scan = scalar_at(alloc, bytes)?;
    Ok(why_not(scan))
}

/// Why a scalar without its colon can't stand before this.
fn unkeyed(why: Odd) -> Odd
    ensures { result ≡ unkeyed why }
{
    match why {
        Odd::Unsupported => Odd::Unkeyed,
        _ => Odd::Syntax,
    }
}

/// A name of a node, and behind it a space or the line's end.
pub(crate) fn has_name(bytes: &[u8]) -> bool
    ensures { result ≡ has_name at_gap bytes.now }
{
    !name_at(bytes).is_empty() && at_gap(after_name(bytes))
}

/// What stands behind the bar of a literal block.
fn chomp_at(bytes: &[u8]) -> Chomp
    ensures { result ≡ chomp_at bytes.now }
{
    match bytes {
        [b'-', ..] => Chomp::Strip,
        [b'+', ..] => Chomp::Keep,
        _ => Chomp::Clip,
    }
}

fn chomp_len(chomp: Chomp) -> usize
    ensures { result ≡ chomp_len chomp }
{
    match chomp {
        Chomp::Clip => 0,
        Chomp::Strip => 1,
        Chomp::Keep => 1,
    }
}

fn is_digit_first(bytes: &[u8]) -> bool
    ensures { result ≡ is_digit_first bytes.now }
{
    matches!(bytes, [b'0'..=b'9', ..])
}

/// A line that is read: its number (from 1), and where memory comes from.
#[derive(Clone, Copy)]
pub(crate) struct LineReader {
    pub alloc: Global,
    pub number: usize,
}

impl LineReader {
    /// Refuses a token that no layout has.
    pub fn refuse(self, tokens: &mut Tokens, column: usize, why: Odd) -> Result<(), NoMemory>
        ensures { OnOk result (tokens.new ≡ tokens.old ++ refused self.number column why) }
    {
        tokens.push(Token::OddToken {
            line: self.number,
            column,
            why,
        })
    }

    /// Reads what stands behind a value.
    fn read_behind_value(self, tokens: &mut Tokens, rest: &[u8]) -> Result<(), NoMemory>
        requires { length rest.now < 2 ^ 62 }
        ensures { OnOk result (tokens.new ≡ tokens.old ++ behind_value self.number rest.now) }
    {
        if at_end(rest) {
            return Ok(());
        }
        let why = why_behind(self.alloc, after_spaces(rest))?;
        self.refuse(tokens, 0, why)
    }

    /// Reads what begins with `*`.
    fn read_alias(self, tokens: &mut Tokens, column: usize, bytes: &[u8]) -> Result<(), NoMemory>
        requires { length bytes.now < 2 ^ 62 }
        ensures { OnOk result (tokens.new ≡ tokens.old ++ alias_tokens self.number column bytes.now) }
    {
        if !has_name(bytes) {
            return self.refuse(tokens, column, Odd::Syntax);
        }
        let name = Scalar::from_slice(self.alloc, name_at(bytes))?;
        tokens.push(Token::Alias {
            line: self.number,
            column,
            name,
        })?;
        self.read_behind_value(tokens, after_name(bytes))
    }

    /// Reads what begins with `|`.
    fn read_bar(self, tokens: &mut Tokens, column: usize, bytes: &[u8]) -> Result<(), NoMemory>
        requires { length bytes.now < 2 ^ 62 }
        ensures { OnOk result (tokens.new ≡ tokens.old ++ bar_tokens self.number column bytes.now) }
    {
        let chomp = chomp_at(bytes);
        tokens.push(Token::Bar {
            line: self.number,
            column,
            chomp,
        })?;
        let rest = past(bytes, chomp_len(chomp));
        if is_digit_first(rest) {
            return self.refuse(tokens, 0, Odd::Unsupported);
        }
        self.read_behind_value(tokens, rest)
    }

    /// Reads a flow form.
    fn read_flow(self, tokens: &mut Tokens, column: usize, bytes: &[u8]) -> Result<(), NoMemory>
        requires { length bytes.now < 2 ^ 62 }
        ensures { OnOk result (tokens.new ≡ tokens.old ++ flow_tokens self.number column bytes.now) }
    {
        let (pieces, len) = flow_at(self.alloc, bytes)?;
        tokens.push(Token::Form {
            line: self.number,
            column,
            pieces,
        })?;
        self.read_behind_value(tokens, from(bytes, len))
    }

    /// Reads what begins with one of `[ { * | &`.
    pub fn read_indicated(
        self,
        tokens: &mut Tokens,
        column: usize,
        b: u8,
        rest: &[u8],
        bytes: &[u8],
    ) -> Result<(), NoMemory>
        requires whole { bytes.now ≡ b ∷ rest.now }
        requires small { length bytes.now < 2 ^ 62 }
        ensures { OnOk result (tokens.new ≡ tokens.old ++ indicated self.number column b rest.now) }
    {
        if is_bracket(b) {
            return self.read_flow(tokens, column, bytes);
        }
        match b {
            b'*' => self.read_alias(tokens, column, rest),
            b'|' => self.read_bar(tokens, column, rest),
            _ => self.refuse(tokens, column, Odd::Syntax),
        }
    }

    /// Adds a scalar, and reads what stands behind it.
    fn read_scalar(
        self,
        tokens: &mut Tokens,
        column: usize,
        text: TextOrNull,
        rest: &[u8],
    ) -> Result<(), NoMemory>
        requires { length rest.now < 2 ^ 62 }
        ensures { OnOk result (tokens.new ≡ tokens.old ++ scalar_tokens self.number column text rest.now) }
    {
        tokens.push(Token::Scalar {
            line: self.number,
            column,
            text,
        })?;
        self.read_behind_value(tokens, rest)
    }

    /// Adds a scalar without a colon, if nothing stands behind it.
    pub fn read_lone(
        self,
        tokens: &mut Tokens,
        column: usize,
        text: TextOrNull,
        rest: &[u8],
    ) -> Result<(), NoMemory>
        requires { length rest.now < 2 ^ 62 }
        ensures { OnOk result (tokens.new ≡ tokens.old ++ lone_tokens self.number column text rest.now) }
    {
        if at_end(rest) {
            return tokens.push(Token::Scalar {
                line: self.number,
                column,
                text,
            });
        }
        let why = why_behind(self.alloc, after_spaces(rest))?;
        self.refuse(tokens, column, unkeyed(why))
    }

    /// Reads a value without a name, if any.
    fn read_bare_value(
        self,
        tokens: &mut Tokens,
        column: usize,
        bytes: &[u8],
    ) -> Result<(), NoMemory>
        requires { length bytes.now < 2 ^ 62 }
        ensures { OnOk result (tokens.new ≡ tokens.old ++ bare_value self.number column bytes.now) }
    {
        let Some((b, rest)) = bytes.split_first() else {
            return Ok(());
        };
        if *b == b'#' {
            return Ok(());
        }
        if is_node_indicator(*b) {
            return self.read_indicated(tokens, column, *b, rest, bytes);
        }
        match scalar_at(self.alloc, bytes)? {
            Scan::Plain(text, len) => {
                self.read_scalar(tokens, column, plain_value(text), from(bytes, len))
            }
            Scan::Quoted(text, len) => {
                self.read_scalar(tokens, column, TextOrNull::text(text), from(bytes, len))
            }
            Scan::Refused(why) => self.refuse(tokens, column, why),
        }
    }

    /// Adds the name behind `&`.
    pub fn add_name(self, tokens: &mut Tokens, column: usize, rest: &[u8]) -> Result<(), NoMemory>
        ensures { OnOk result (tokens.new ≡ tokens.old ++ token.Anchor self.number column (name_at rest.now) ∷ []) }
    {
        let name = Scalar::from_slice(self.alloc, name_at(rest))?;
        tokens.push(Token::Anchor {
            line: self.number,
            column,
            name,
        })
    }

    /// Reads a name, and behind it a value or nothing.
    fn read_name_with_value(
        self,
        tokens: &mut Tokens,
        column: usize,
        rest: &[u8],
    ) -> Result<(), NoMemory>
        requires { column + (1 + length rest.now) < 2 ^ 62 }
        ensures { OnOk result (tokens.new ≡ tokens.old ++ token.Anchor self.number column (name_at rest.now) ∷ behind_spaces (bare_value self.number) (column + (1 + name_len rest.now)) (after_name rest.now)) }
    {
        let behind = after_name(rest);
        let column_behind = column + (1 + name_len(rest)) + spaces(behind);
        self.add_name(tokens, column, rest)?;
        self.read_bare_value(tokens, column_behind, after_spaces(behind))
    }

    /// Reads what stands behind a key's colon: a value, or a name with a value or nothing behind it.
    pub fn read_value(
        self,
        tokens: &mut Tokens,
        column: usize,
        bytes: &[u8],
    ) -> Result<(), NoMemory>
        requires { column + length bytes.now < 2 ^ 62 }
        ensures { OnOk result (tokens.new ≡ tokens.old ++ value_tokens self.number column bytes.now) }
    {
        let column = column + spaces(bytes);
        match after_spaces(bytes) {
            [b'&', rest @ ..] if has_name(rest) => self.read_name_with_value(tokens, column, rest),
            behind => self.read_bare_value(tokens, column, behind),
        }
    }
}
