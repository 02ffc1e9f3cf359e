//! Scalars on one line, read from the left.

ghost use Rattle.std.specs.Prelude.{◌≡◌, ◌≤◌, ◌+◌, ◌<◌, ◌^◌, ◌-◌, ◌++◌, ◌∷◌, ◌==◌, ◌&&◌, not, List, ℕ, [], false, length, take, drop, IfOk, IfSome};
ghost use Rattle.std.specs.Option.{ForSome};
ghost use Rattle.std.specs.List.{prefix_len, suffix_len};
ghost use Rattle.sim_base.specs.Ascii.{backslash, quotation_mark};
ghost use Rattle.yaml_tokens.specs.Lines.{begins_with};
ghost use Rattle.yaml_tokens.specs.Literals.{is_blank};
ghost use Rattle.yaml_tokens.specs.Scalars.{is_space, at_gap, after_spaces, at_end, at_colon, plain_ends, plain_len, plain_text, holds_back, closes, single_part, is_unplain, asks, is_null, plain_value, scan_of, bare_scan, single_quoted, double_len, single_scan, double_scan, IsWithin, is_indicator, cannot_begin, scalar_at};
ghost use Rattle.yaml_tokens.specs.declared.scan.Scan.TheVariants as scans;

use crate::escapes::unescaped;
use crate::odd::Odd;
use crate::scalar::Scalar;
use crate::text_or_null::TextOrNull;
use sim_base::NoMemory;
use std::alloc::Global;

/// What stands at the front of a part of a line: a scalar, and how many bytes it takes, or a token
/// that no layout has.
#[derive(Drop)]
pub enum Scan {
    Plain(Scalar, usize),
    Quoted(Scalar, usize),
    Refused(Odd),
}

/// How many spaces stand at the front.
pub fn spaces(bytes: &[u8]) -> usize
    ensures len { result ≡ prefix_len is_space bytes.now }
    ensures within { result ≤ length bytes.now }
{
    for (i, b) in bytes.iter().enumerate() {
        if *b != b' ' {
            return i;
        }
    }
    bytes.len()
}

pub(crate) fn after_spaces(bytes: &[u8]) -> &[u8]
    ensures { result.now ≡ after_spaces bytes.now }
{
    let n = spaces(bytes);
    &bytes[n..]
}

/// Nothing but spaces.
pub fn is_blank(line: &[u8]) -> bool
    ensures { result ≡ is_blank line.now }
{
    after_spaces(line).is_empty()
}

pub(crate) fn begins_with(b: u8, bytes: &[u8]) -> bool
    ensures { result ≡ begins_with b bytes.now }
{
    match bytes {
        [] => false,
        [first, ..] => *first == b,
    }
}

/// Before a space or the line's end.
pub(crate) fn at_gap(bytes: &[u8]) -> bool
    ensures { result ≡ at_gap bytes.now }
{
    match bytes {
        [] => true,
        [first, ..] => *first == b' ',
    }
}

/// Before spaces or a comment alone.
pub(crate) fn at_end(bytes: &[u8]) -> bool
    ensures { result ≡ at_end bytes.now }
{
    let rest = after_spaces(bytes);
    rest.is_empty() || (begins_with(b' ', bytes) && begins_with(b'#', rest))
}

/// Before a colon that ends a key.
pub(crate) fn at_colon(bytes: &[u8]) -> bool
    ensures { result ≡ at_colon bytes.now }
{
    let rest = after_spaces(bytes);
    match rest {
        [b':', behind @ ..] => at_gap(behind),
        _ => false,
    }
}

pub(crate) fn from(bytes: &[u8], at: usize) -> &[u8]
    requires { at ≤ length bytes.now }
    ensures { result.now ≡ drop at bytes.now }
{
    &bytes[at..]
}

/// The bytes before a place.
pub(crate) fn before(bytes: &[u8], at: usize) -> &[u8]
    requires { at ≤ length bytes.now }
    ensures { result.now ≡ take at bytes.now }
{
    &bytes[..at]
}

/// The bytes from a place on, of which there are none past the end.
pub fn past(bytes: &[u8], at: usize) -> &[u8]
    ensures { result.now ≡ drop at bytes.now }
{
    if at < bytes.len() { &bytes[at..] } else { &[] }
}

pub(crate) fn plain_ends(b: u8, rest: &[u8]) -> bool
    ensures { result ≡ plain_ends b rest.now }
{
    match b {
        b':' => at_gap(rest),
        b' ' => begins_with(b'#', rest),
        _ => false,
    }
}

fn plain_len(bytes: &[u8]) -> usize
    ensures len { result ≡ plain_len bytes.now }
    ensures within { result ≤ length bytes.now }
{
    for i in 0..bytes.len() {
        if plain_ends(bytes[i], from(bytes, i + 1)) {
            return i;
        }
    }
    bytes.len()
}

/// How many bytes stand before the spaces at the end.
pub(crate) fn trimmed_len(bytes: &[u8]) -> usize
    ensures len { result ≡ length bytes.now - suffix_len is_space bytes.now }
    ensures within { result ≤ length bytes.now }
{
    let mut n = bytes.len();
    while n > 0 && bytes[n - 1] == b' ' {
        n -= 1;
    }
    n
}

fn is_null(text: &[u8]) -> bool
    ensures { result ≡ is_null text.now }
{
    text == b"~".as_slice() || text == b"null".as_slice()
}

/// What a plain scalar says: a text, or null.
pub(crate) fn plain_value(text: Scalar) -> TextOrNull
    ensures { result ≡ plain_value text }
{
    if is_null(text.as_slice()) {
        TextOrNull::null()
    } else {
        TextOrNull::text(text)
    }
}

fn holds_back(held: bool, b: u8) -> bool
    ensures { result ≡ holds_back held b }
{
    b == b'\'' && !held
}

fn closes(held: bool, b: u8) -> bool
    ensures { result ≡ closes held b }
{
    held && b != b'\''
}

/// Adds what a byte between single quotes stands for.
fn add_part(text: &mut Vec<u8>, held: bool, b: u8) -> Result<(), NoMemory>
    ensures { IfOk result (λ _. text.new.items ≡ text.old.items ++ single_part held b) }
{
    if holds_back(held, b) {
        return Ok(());
    }
    text.push(b)?;
    Ok(())
}

/// What the bytes behind a single quote spell, and how many they are.
fn single_quoted(alloc: Global, bytes: &[u8]) -> Result<Option<(Scalar, usize)>, NoMemory>
    ensures found { IfOk result (λ found. found ≡ single_quoted false bytes.now) }
    ensures within { IfOk result (λ found. ForSome found (λ f. f.1 ≤ length bytes.now)) }
{
    let mut text = Vec::new(alloc);
    let mut held = false;
    for i in 0..bytes.len() {
        let b = bytes[i];
        if closes(held, b) {
            return Ok(Some((Scalar::from_vec(text)?, i)));
        }
        add_part(&mut text, held, b)?;
        held = holds_back(held, b);
    }
    if held {
        Ok(Some((Scalar::from_vec(text)?, bytes.len())))
    } else {
        Ok(None)
    }
}

fn ends_double(escaped: bool, b: u8) -> bool
    ensures { result ≡ ((b == quotation_mark) && not escaped) }
{
    b == b'"' && !escaped
}

fn begins_escape(escaped: bool, b: u8) -> bool
    ensures { result ≡ ((b == backslash) && not escaped) }
{
    b == b'\\' && !escaped
}

/// How many bytes stand before the closing double quote.
pub(crate) fn double_len(bytes: &[u8]) -> Option<usize>
    ensures len { result ≡ double_len false bytes.now }
    ensures within { IfSome result (λ n. n < length bytes.now) }
{
    let mut escaped = false;
    for i in 0..bytes.len() {
        let b = bytes[i];
        if ends_double(escaped, b) {
            return Some(i);
        }
        escaped = begins_escape(escaped, b);
    }
    None
}

fn is_indicator(b: u8) -> bool
    ensures { result ≡ is_indicator b }
{
    b == b'!' || b == b'>' || b == b'[' || b == b'{' || b == b'&' || b == b'*' || b == b'|'
}

fn cannot_begin(b: u8) -> bool
    ensures { result ≡ cannot_begin b }
{
    b == b',' || b == b']' || b == b'}' || b == b'#' || b == b'%' || b == b'@' || b == b'`'
}

pub(crate) fn single_scan(alloc: Global, rest: &[u8]) -> Result<Scan, NoMemory>
    ensures scan { IfOk result (λ s. s ≡ single_scan (single_quoted false rest.now)) }
    ensures within { IfOk result (λ s. IsWithin s (1 + length rest.now)) }
{
    match single_quoted(alloc, rest)? {
        Some((text, len)) => Ok(Scan::Quoted(text, 1 + len)),
        None => Ok(Scan::Refused(Odd::Unsupported)),
    }
}

pub(crate) fn double_scan(alloc: Global, rest: &[u8]) -> Result<Scan, NoMemory>
    requires { length rest.now < 2 ^ 62 }
    ensures scan { IfOk result (λ s. s ≡ double_scan rest.now (double_len false rest.now)) }
    ensures within { IfOk result (λ s. IsWithin s (1 + length rest.now)) }
{
    let Some(len) = double_len(rest) else {
        return Ok(Scan::Refused(Odd::Unsupported));
    };
    match unescaped(alloc, &rest[..len])? {
        Some(text) => Ok(Scan::Quoted(text, 2 + len)),
        None => Ok(Scan::Refused(Odd::Syntax)),
    }
}

fn plain_scan(alloc: Global, bytes: &[u8]) -> Result<Scan, NoMemory>
    ensures scan { IfOk result (λ s. s ≡ scans.Plain (plain_text bytes.now) (plain_len bytes.now)) }
    ensures within { IfOk result (λ s. IsWithin s (length bytes.now)) }
{
    let len = plain_len(bytes);
    let front = &bytes[..len];
    let n = trimmed_len(front);
    Ok(Scan::Plain(Scalar::from_slice(alloc, &front[..n])?, len))
}

pub(crate) fn is_unplain(b: u8, rest: &[u8]) -> bool
    ensures { result ≡ is_unplain b rest.now }
{
    cannot_begin(b) || ((b == b'-' || b == b'?' || b == b':') && at_gap(rest))
}

/// The scalar that begins with a byte.
#[tactic(auto, unfolding(crate::specs::Scalars::scan_of))]
fn scan_of(alloc: Global, b: u8, rest: &[u8], bytes: &[u8]) -> Result<Scan, NoMemory>
    requires whole { bytes.now ≡ b ∷ rest.now }
    requires small { length bytes.now < 2 ^ 62 }
    ensures scan { IfOk result (λ s. s ≡ scan_of b rest.now) }
    ensures within { IfOk result (λ s. IsWithin s (1 + length rest.now)) }
{
    match b {
        b'\'' => single_scan(alloc, rest),
        b'"' => double_scan(alloc, rest),
        _ => bare_scan(alloc, b, rest, bytes),
    }
}

/// The scalar that begins with a byte that is no quote.
#[tactic(auto, unfolding(crate::specs::Scalars::bare_scan))]
fn bare_scan(alloc: Global, b: u8, rest: &[u8], bytes: &[u8]) -> Result<Scan, NoMemory>
    requires { bytes.now ≡ b ∷ rest.now }
    ensures scan { IfOk result (λ s. s ≡ bare_scan b rest.now) }
    ensures within { IfOk result (λ s. IsWithin s (1 + length rest.now)) }
{
    if is_indicator(b) {
        return Ok(Scan::Refused(Odd::Indicator));
    }
    if asks(b, rest) {
        return Ok(Scan::Refused(Odd::Unsupported));
    }
    if is_unplain(b, rest) {
        return Ok(Scan::Refused(Odd::Syntax));
    }
    plain_scan(alloc, bytes)
}

/// `? `
pub(crate) fn asks(b: u8, rest: &[u8]) -> bool
    ensures { result ≡ asks b rest.now }
{
    b == b'?' && begins_with(b' ', rest)
}

/// The scalar at the front of bytes that don't begin with a space.
#[tactic(auto, unfolding(crate::specs::Scalars::scalar_at))]
pub(crate) fn scalar_at(alloc: Global, bytes: &[u8]) -> Result<Scan, NoMemory>
    requires { length bytes.now < 2 ^ 62 }
    ensures scan { IfOk result (λ s. s ≡ scalar_at bytes.now) }
    ensures within { IfOk result (λ s. IsWithin s (length bytes.now)) }
{
    match bytes.split_first() {
        Some((b, rest)) => scan_of(alloc, *b, rest, bytes),
        None => Ok(Scan::Refused(Odd::Syntax)),
    }
}
