//! The tokens of a text, one after the other.

ghost use Rattle.std.specs.Prelude.{◌≡◌, ◌+◌, ◌<◌, ◌≤◌, ◌^◌, ◌∷◌, [], length, fold, drop, true, false, MatchOption, slice_index, take};
ghost use Rattle.std.specs.Bool.{OnTrue, OnFalse};
ghost use Rattle.std.specs.Option.{OnSome};
ghost use Rattle.std.specs.List.{position_or_len, before_first, after_first};
ghost use Rattle.gml_graph.specs.Number.{begins_with};
ghost use Rattle.gml_graph.specs.Tokens.{is_line_feed, is_blank, ends_word, next_line, tokens, brackets, lexeme, is_quote};
ghost use Rattle.gml_graph.specs.inside.Scanning.{word_len};

use crate::token::{Lexeme, Token, read_quoted, token_of};

fn is_blank_at(byte: u8, rest: &[u8]) -> bool
    ensures { result ≡ is_blank byte rest.now }
{
    byte == b' ' || byte == b'\r' && matches!(rest, [b'\n', ..])
}

fn ends_word_at(byte: u8, rest: &[u8]) -> bool
    ensures { result ≡ ends_word byte rest.now }
{
    is_blank_at(byte, rest) || matches!(byte, b'\n' | b'[' | b']' | b'"')
}

/// How many bytes stand before the first that ends a word.
fn count_word(bytes: &[u8]) -> usize
    ensures value { result ≡ word_len bytes.now }
    ensures within { result ≤ length bytes.now }
    ensures ascii { result < length bytes.now → slice_index bytes.now result < 128 }
{
    let mut count = 0;
    while count < bytes.len() && !ends_word_at(bytes[count], &bytes[count + 1..]) {
        count += 1;
    }
    count
}

/// How many bytes stand before the end of the line.
fn count_line(bytes: &[u8]) -> usize
    ensures value { result ≡ position_or_len is_line_feed bytes.now }
    ensures within { result ≤ length bytes.now }
    ensures ascii { result < length bytes.now → slice_index bytes.now result < 128 }
{
    let mut count = 0;
    while count < bytes.len() && bytes[count] != b'\n' {
        count += 1;
    }
    count
}

/// The line behind some bytes of a line and those after it.
pub fn line_behind(line: u64, bytes: &[u8]) -> u64
    requires { line + length bytes.now < 2 ^ 64 }
    ensures value { result ≡ fold next_line line bytes.now }
    ensures bound { result ≤ line + length bytes.now }
{
    let mut now = line;
    for byte in bytes {
        if *byte == b'\n' {
            now += 1;
        }
    }
    now
}

/// What stands behind the first byte, which is a whole character.
fn behind_first(text: &str) -> &str
    requires some { 0 < length text.now }
    requires ascii { slice_index text.now 0 < 128 }
    ensures { result.now ≡ drop 1 text.now }
{
    let _bytes = text.as_bytes();
    &text[1..]
}

/// What stands from the end of the line on.
fn behind_line(text: &str) -> &str
    ensures { result.now ≡ drop (position_or_len is_line_feed text.now) text.now }
{
    &text[count_line(text.as_bytes())..]
}

/// The word at the front, and what stands behind it.
fn split_word(text: &str) -> (&[u8], &str)
    ensures word { result.0.now ≡ take (word_len text.now) text.now }
    ensures back { result.1.now ≡ drop (word_len text.now) text.now }
{
    let bytes = text.as_bytes();
    let count = count_word(bytes);
    (&bytes[..count], &text[count..])
}

/// What stands before and behind the first quote, if there is one.
fn split_text(text: &str) -> Option<(&str, &str)>
    ensures { MatchOption result (position_or_len is_quote text.now ≡ length text.now)
        (λ x. (position_or_len is_quote text.now < length text.now)
        × (x.0.now ≡ before_first is_quote text.now)
        × (x.1.now ≡ after_first is_quote text.now)) }
{
    text.split_once('"')
}

/// What is left of a text, with the line on which it begins.
#[derive(Drop)]
pub struct Scanner<'a> {
    rest: &'a str,
    line: u64,
    /// Whether only spaces stand before the rest on its line.
    fresh: bool,
    ghost room: { line + length rest.now < 2 ^ 64 },
}

impl<'a> Scanner<'a> {
    ghost use Rattle.gml_graph.specs.inside.Left.{left, is_at_token, begins_word};

    pub fn new(text: &'a str) -> Self
        ensures { left result ≡ tokens text.now }
    {
        Scanner {
            rest: text,
            line: 1,
            fresh: true,
        }
    }

    /// The next token.
    pub fn next_lexeme(&mut self) -> Option<Lexeme>
        ensures next { MatchOption result (left self.old ≡ []) (λ x. left self.old ≡ x ∷ left self.new) }
        ensures shorter { OnSome result (length self.new.rest.now < length self.old.rest.now) }
    {
        while self.skip() {}
        self.take()
    }

    /// Passes a blank, the end of a line or a comment, if one stands at the front.
    fn skip(&mut self) -> bool
        ensures same { left self.new ≡ left self.old }
        ensures shorter { OnTrue result (length self.new.rest.now < length self.old.rest.now) }
        ensures no_longer { length self.new.rest.now ≤ length self.old.rest.now }
        ensures at_token { OnFalse result (is_at_token self.new ≡ true) }
    {
        let bytes = self.rest.as_bytes();
        if bytes.is_empty() {
            return false;
        }
        let byte = bytes[0];
        if is_blank_at(byte, &bytes[1..]) {
            self.rest = behind_first(self.rest);
            return true;
        }
        if byte == b'\n' {
            self.rest = behind_first(self.rest);
            self.line += 1;
            self.fresh = true;
            return true;
        }
        if byte == b'#' && self.fresh {
            self.rest = behind_line(behind_first(self.rest));
            return true;
        }
        false
    }

    /// Takes the token at the front, if anything is left.
    fn take(&mut self) -> Option<Lexeme>
        requires { is_at_token self.old ≡ true }
        ensures next { MatchOption result (left self.old ≡ []) (λ x. left self.old ≡ x ∷ left self.new) }
        ensures shorter { OnSome result (length self.new.rest.now < length self.old.rest.now) }
    {
        let bytes = self.rest.as_bytes();
        if bytes.is_empty() {
            return None;
        }
        let line = self.line;
        let token = match bytes[0] {
            b'[' => self.take_bracket(Token::Open),
            b']' => self.take_bracket(Token::Close),
            b'"' => self.take_text(),
            _ => self.take_word(),
        };
        Some(Lexeme { line, token })
    }

    fn take_bracket(&mut self, token: Token) -> Token
        requires some { 0 < length self.old.rest.now }
        requires bracket { brackets self.old.line (slice_index self.old.rest.now 0) ≡ lexeme self.old.line token ∷ [] }
        ensures next { left self.old ≡ lexeme self.old.line result ∷ left self.new }
        ensures shorter { length self.new.rest.now < length self.old.rest.now }
    {
        self.rest = behind_first(self.rest);
        self.fresh = false;
        token
    }

    /// Takes the text whose first quote stands at the front.
    fn take_text(&mut self) -> Token
        requires some { 0 < length self.old.rest.now }
        requires quote { is_quote (slice_index self.old.rest.now 0) ≡ true }
        ensures next { left self.old ≡ lexeme self.old.line result ∷ left self.new }
        ensures shorter { length self.new.rest.now < length self.old.rest.now }
    {
        let behind = behind_first(self.rest);
        self.fresh = false;
        match split_text(behind) {
            Some((text, rest)) => {
                self.line = line_behind(self.line, text.as_bytes());
                self.rest = rest;
                Token::Text(read_quoted(text))
            }
            None => {
                self.rest = "";
                Token::Unclosed
            }
        }
    }

    /// Takes the word at the front.
    fn take_word(&mut self) -> Token
        requires some { 0 < length self.old.rest.now }
        requires word { begins_word self.old.fresh self.old.rest.now ≡ true }
        ensures next { left self.old ≡ lexeme self.old.line result ∷ left self.new }
        ensures shorter { length self.new.rest.now < length self.old.rest.now }
    {
        let (word, rest) = split_word(self.rest);
        self.rest = rest;
        self.fresh = false;
        token_of(word)
    }
}
