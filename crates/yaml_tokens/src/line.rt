//! The tokens of a line, read from the left.

ghost use Rattle.std.specs.Prelude.{◌≡◌, ◌+◌, ◌<◌, ◌≤◌, ◌^◌, ◌∷◌, ◌++◌, IsTrue, [], Some, length, drop, IfOk, OnOk};
ghost use Rattle.yaml_tokens.specs.Scalars.{at_colon, plain_value};
ghost use Rattle.yaml_tokens.specs.Anchors.{name_len, name_at, after_name};
ghost use Rattle.yaml_tokens.specs.Tokens.{behind_spaces, pair_tokens, row_tokens, last_tokens, last_node, named_node, is_name_indicator, is_dash, node_tokens, has_content, is_marker, is_late_marker, begins_document, line_tokens};
ghost use Rattle.yaml_tokens.specs.declared.token.Token.TheVariants as token;

use crate::names::{after_name, name_len};
use crate::odd::Odd;
use crate::place::LinePlace;
use crate::scalar::Scalar;
use crate::scan::{
    Scan, after_spaces, at_colon, at_end, at_gap, begins_with, from, past, plain_value, scalar_at,
    spaces,
};
use crate::text_or_null::TextOrNull;
use crate::token::{Token, Tokens};
use crate::values::{LineReader, has_name, is_node_indicator};
use sim_base::NoMemory;
use std::alloc::Global;

/// Whether a line is neither blank nor a comment.
pub fn has_content(bytes: &[u8]) -> bool
    ensures { result ≡ has_content bytes.now }
{
    let rest = after_spaces(bytes);
    !rest.is_empty() && !begins_with(b'#', rest)
}

/// A marker: three such bytes at the line's start, before a space or the line's end.
fn is_marker(b: u8, bytes: &[u8]) -> bool
    ensures { result ≡ is_marker b bytes.now }
{
    begins_with(b, bytes)
        && begins_with(b, past(bytes, 1))
        && begins_with(b, past(bytes, 2))
        && at_gap(past(bytes, 3))
}

/// `...`, and a `---` that isn't the first content line.
fn is_late_marker(begun: bool, bytes: &[u8]) -> bool
    ensures { result ≡ is_late_marker begun bytes.now }
{
    is_marker(b'.', bytes) || is_marker(b'-', bytes) && begun
}

/// `---` as the first content line, with spaces or a comment behind it at most.
fn begins_document(begun: bool, bytes: &[u8]) -> bool
    ensures { result ≡ begins_document begun bytes.now }
{
    is_marker(b'-', bytes) && !begun && at_end(past(bytes, 3))
}

fn is_dash(b: u8, behind: &[u8]) -> bool
    ensures { result ≡ is_dash b behind.now }
{
    b == b'-' && at_gap(behind)
}

fn is_name_indicator(b: u8, behind: &[u8]) -> bool
    ensures { result ≡ is_name_indicator b behind.now }
{
    b == b'&' && has_name(behind)
}

impl LineReader {
    /// Reads a key with the value behind its colon.
    fn read_pair(
        self,
        tokens: &mut Tokens,
        column: usize,
        text: Scalar,
        bytes: &[u8],
        len: usize,
    ) -> Result<(), NoMemory>
        requires column { column + length bytes.now < 2 ^ 62 }
        requires within { len ≤ length bytes.now }
        requires colon { IsTrue (at_colon (drop len bytes.now)) }
        ensures { OnOk result (tokens.new ≡ tokens.old ++ pair_tokens self.number column text bytes.now len) }
    {
        let rest = from(bytes, len);
        let n = spaces(rest);
        tokens.push(Token::Key {
            line: self.number,
            column,
            text,
        })?;
        self.read_value(
            tokens,
            column + (len + (1 + n)),
            from(after_spaces(rest), 1),
        )
    }

    /// Reads a key with its value, or a plain scalar.
    fn read_plain(
        self,
        tokens: &mut Tokens,
        column: usize,
        text: Scalar,
        bytes: &[u8],
        len: usize,
    ) -> Result<(), NoMemory>
        requires column { column + length bytes.now < 2 ^ 62 }
        requires within { len ≤ length bytes.now }
        ensures { OnOk result (tokens.new ≡ tokens.old ++ row_tokens self.number column text (plain_value text) bytes.now len) }
    {
        if at_colon(from(bytes, len)) {
            self.read_pair(tokens, column, text, bytes, len)
        } else {
            self.read_lone(tokens, column, plain_value(text), from(bytes, len))
        }
    }

    /// Reads a key with its value, or a quoted scalar.
    fn read_quoted(
        self,
        tokens: &mut Tokens,
        column: usize,
        text: Scalar,
        bytes: &[u8],
        len: usize,
    ) -> Result<(), NoMemory>
        requires column { column + length bytes.now < 2 ^ 62 }
        requires within { len ≤ length bytes.now }
        ensures { OnOk result (tokens.new ≡ tokens.old ++ row_tokens self.number column text (Some text) bytes.now len) }
    {
        if at_colon(from(bytes, len)) {
            self.read_pair(tokens, column, text, bytes, len)
        } else {
            self.read_lone(tokens, column, TextOrNull::text(text), from(bytes, len))
        }
    }

    /// Reads a row, or a value without a name.
    fn read_last(
        self,
        tokens: &mut Tokens,
        column: usize,
        b: u8,
        rest: &[u8],
        bytes: &[u8],
    ) -> Result<(), NoMemory>
        requires whole { bytes.now ≡ b ∷ rest.now }
        requires column { column + length bytes.now < 2 ^ 62 }
        ensures { OnOk result (tokens.new ≡ tokens.old ++ last_tokens self.number column b rest.now) }
    {
        if b == b'#' {
            return Ok(());
        }
        if is_node_indicator(b) {
            return self.read_indicated(tokens, column, b, rest, bytes);
        }
        match scalar_at(self.alloc, bytes)? {
            Scan::Plain(text, len) => self.read_plain(tokens, column, text, bytes, len),
            Scan::Quoted(text, len) => self.read_quoted(tokens, column, text, bytes, len),
            Scan::Refused(why) => self.refuse(tokens, column, why),
        }
    }

    /// Reads a name, and behind it a row, a value or nothing.
    fn read_name_with_node(
        self,
        tokens: &mut Tokens,
        column: usize,
        rest: &[u8],
    ) -> Result<(), NoMemory>
        requires { column + (1 + length rest.now) < 2 ^ 62 }
        ensures { OnOk result (tokens.new ≡ tokens.old ++ token.Anchor self.number column (name_at rest.now) ∷ behind_spaces (last_node self.number) (column + (1 + name_len rest.now)) (after_name rest.now)) }
    {
        let behind = after_name(rest);
        let column_behind = column + (1 + name_len(rest)) + spaces(behind);
        self.add_name(tokens, column, rest)?;
        let bytes = after_spaces(behind);
        match bytes.split_first() {
            Some((b, rest)) => self.read_last(tokens, column_behind, *b, rest, bytes),
            None => Ok(()),
        }
    }

    /// Reads a row or a value, or a name with a row, a value or nothing behind it.
    fn read_named_node(
        self,
        tokens: &mut Tokens,
        column: usize,
        b: u8,
        rest: &[u8],
        bytes: &[u8],
    ) -> Result<(), NoMemory>
        requires whole { bytes.now ≡ b ∷ rest.now }
        requires column { column + length bytes.now < 2 ^ 62 }
        ensures { OnOk result (tokens.new ≡ tokens.old ++ named_node self.number column b rest.now) }
    {
        if is_name_indicator(b, rest) {
            self.read_name_with_node(tokens, column, rest)
        } else {
            self.read_last(tokens, column, b, rest, bytes)
        }
    }

    /// Reads dashes, and behind them a row, a value or a name, if any.
    fn read_node(self, tokens: &mut Tokens, bytes: &[u8]) -> Result<(), NoMemory>
        requires { length bytes.now < 2 ^ 62 }
        ensures { OnOk result (tokens.new ≡ tokens.old ++ node_tokens self.number 0 bytes.now) }
    {
        for column in 0..bytes.len() {
            let b = bytes[column];
            if b == b' ' {
                continue;
            }
            let rest = from(bytes, column + 1);
            if !is_dash(b, rest) {
                return self.read_named_node(tokens, column, b, rest, from(bytes, column));
            }
            tokens.push(Token::Dash {
                line: self.number,
                column,
            })?;
        }
        Ok(())
    }

    /// Adds a line of a literal block, whole.
    fn add_body(self, tokens: &mut Tokens, bar: usize, bytes: &[u8]) -> Result<(), NoMemory>
        ensures { OnOk result (tokens.new ≡ tokens.old ++ token.Body self.number bar bytes.now ∷ []) }
    {
        let text = Scalar::from_slice(self.alloc, bytes)?;
        tokens.push(Token::Body {
            line: self.number,
            column: bar,
            text,
        })
    }

    /// Reads a line. `begun` says whether an earlier line has content.
    #[tactic(auto, unfolding(crate::specs::Tokens::line_tokens))]
    fn read(
        self,
        tokens: &mut Tokens,
        begun: bool,
        place: LinePlace,
        bytes: &[u8],
    ) -> Result<(), NoMemory>
        requires { length bytes.now < 2 ^ 62 }
        ensures { OnOk result (tokens.new ≡ tokens.old ++ line_tokens begun place self.number bytes.now) }
    {
        if is_late_marker(begun, bytes) {
            return self.refuse(tokens, 0, Odd::Unsupported);
        }
        if begins_document(begun, bytes) {
            return Ok(());
        }
        if place.is_body(bytes) {
            return self.add_body(tokens, place.bar_column(), bytes);
        }
        if begins_with(b'%', bytes) {
            return self.refuse(tokens, 0, Odd::Unsupported);
        }
        self.read_node(tokens, bytes)
    }
}

/// The tokens of a line. `begun` says whether an earlier line has content.
pub fn line_tokens(
    alloc: Global,
    begun: bool,
    place: LinePlace,
    line: usize,
    bytes: &[u8],
) -> Result<Tokens, NoMemory>
    requires { length bytes.now < 2 ^ 62 }
    ensures { IfOk result (λ tokens. tokens ≡ line_tokens begun place line bytes.now) }
{
    let mut tokens = Tokens::new(alloc);
    LineReader {
        alloc,
        number: line,
    }
    .read(&mut tokens, begun, place, bytes)?;
    Ok(tokens)
}
