//! The pieces of a flow form, read from the left.

ghost use Rattle.std.specs.Prelude.{◌≡◌, ◌≤◌, ◌<◌, ◌^◌, ◌+◌, ◌-◌, ◌∷◌, ◌++◌, if◌then◌else◌, List, [], ℕ, Some, None, length, IfOk};
ghost use Rattle.yaml_tokens.specs.Lines.{begins_with};
ghost use Rattle.yaml_tokens.specs.declared.piece.Piece.TheVariants as pieces;
ghost use Rattle.std.specs.List.{prefix_len};
ghost use Rattle.sim_base.specs.Ascii.{number_sign};
ghost use Rattle.yaml_tokens.specs.Scalars.{is_space, IsWithin, plain_value};
ghost use Rattle.yaml_tokens.specs.Anchors.{has_name, name_at};
ghost use Rattle.yaml_tokens.specs.Pieces.{is_separator, cell_ends, cell_len, cell_text, is_foreign_indicator, is_lone_indicator, bare_cell, cell_scan, refused_len, word_step, scan_step, at_cell_gap, one_byte, step_at, open_after, put_piece, is_last, flow_at};
ghost use Rattle.yaml_tokens.specs.declared.scan.Scan.TheVariants as scans;

use crate::names::{after_name, name_at, name_len};
use crate::odd::Odd;
use crate::piece::{Bracket, Piece};
use crate::pieces::Pieces;
use crate::scalar::Scalar;
use crate::scan::{
    Scan, asks, at_colon, before, begins_with, double_len, double_scan, from, is_unplain,
    plain_ends, plain_value, single_scan, spaces, trimmed_len,
};
use crate::text_or_null::TextOrNull;
use sim_base::NoMemory;
use std::alloc::Global;
use std::marker::Model;

/// `,`, `]` or `}`
fn is_separator(b: u8) -> bool
    ensures { result ≡ is_separator b }
{
    b == b',' || b == b']' || b == b'}'
}

/// Whether a plain scalar inside brackets ends before a byte.
fn cell_ends(b: u8, rest: &[u8]) -> bool
    ensures { result ≡ cell_ends b rest.now }
{
    plain_ends(b, rest) || is_separator(b)
}

/// How many bytes a plain scalar takes inside brackets.
fn cell_len(bytes: &[u8]) -> usize
    ensures len { result ≡ cell_len bytes.now }
    ensures within { result ≤ length bytes.now }
{
    for i in 0..bytes.len() {
        if cell_ends(bytes[i], from(bytes, i + 1)) {
            return i;
        }
    }
    bytes.len()
}

/// The plain scalar at the front.
fn plain_cell(alloc: Global, bytes: &[u8]) -> Result<Scan, NoMemory>
    ensures scan { IfOk result (λ s. s ≡ scans.Plain (cell_text bytes.now) (cell_len bytes.now)) }
    ensures within { IfOk result (λ s. IsWithin s (length bytes.now)) }
{
    let len = cell_len(bytes);
    let front = &bytes[..len];
    let n = trimmed_len(front);
    Ok(Scan::Plain(Scalar::from_slice(alloc, &front[..n])?, len))
}

/// `!` and `>`: values beyond the profile.
fn is_foreign_indicator(b: u8) -> bool
    ensures { result ≡ is_foreign_indicator b }
{
    b == b'!' || b == b'>'
}

/// `&` and `*` without a name, and `|`.
fn is_lone_indicator(b: u8) -> bool
    ensures { result ≡ is_lone_indicator b }
{
    b == b'&' || b == b'*' || b == b'|'
}

/// The scalar that begins with a byte that is no quote.
#[tactic(auto, unfolding(crate::specs::Pieces::bare_cell))]
fn bare_cell(alloc: Global, b: u8, rest: &[u8], bytes: &[u8]) -> Result<Scan, NoMemory>
    requires { bytes.now ≡ b ∷ rest.now }
    ensures scan { IfOk result (λ s. s ≡ bare_cell b rest.now) }
    ensures within { IfOk result (λ s. IsWithin s (1 + length rest.now)) }
{
    if is_foreign_indicator(b) {
        return Ok(Scan::Refused(Odd::Indicator));
    }
    if asks(b, rest) {
        return Ok(Scan::Refused(Odd::Unsupported));
    }
    if is_lone_indicator(b) || is_unplain(b, rest) {
        return Ok(Scan::Refused(Odd::Syntax));
    }
    plain_cell(alloc, bytes)
}

/// The scalar that begins with a byte.
#[tactic(auto, unfolding(crate::specs::Pieces::cell_scan))]
fn cell_scan(alloc: Global, b: u8, rest: &[u8], bytes: &[u8]) -> Result<Scan, NoMemory>
    requires whole { bytes.now ≡ b ∷ rest.now }
    requires small { length bytes.now < 2 ^ 62 }
    ensures scan { IfOk result (λ s. s ≡ cell_scan b rest.now) }
    ensures within { IfOk result (λ s. IsWithin s (1 + length rest.now)) }
{
    match b {
        b'\'' => single_scan(alloc, rest),
        b'"' => double_scan(alloc, rest),
        _ => bare_cell(alloc, b, rest, bytes),
    }
}

/// How many bytes a quote that is no scalar takes behind its first: to the quote that closes it, or
/// to the line's end. Any other piece that no form has takes none.
fn refused_len(b: u8, rest: &[u8]) -> usize
    ensures len { result ≡ refused_len b rest.now }
    ensures within { result ≤ length rest.now }
{
    match b {
        b'"' => match double_len(rest) {
            Some(len) => 1 + len,
            None => rest.len(),
        },
        b'\'' => rest.len(),
        _ => 0,
    }
}

/// A step over a line: a piece, or none for a space, and how many bytes are taken behind the first.
#[derive(Drop)]
struct CellStep {
    piece: Option<Piece>,
    skip: usize,
}

impl Model for CellStep {
    ghost use Rattle.yaml_tokens.specs.Pieces as pieces;

    ghost Value = { pieces.CellStep };

    ghost view = { λ s. record { piece = s.piece; skip = s.skip } };
}

/// The step over a piece of one byte.
fn one_byte(piece: Piece) -> CellStep
    ensures { result ≡ one_byte piece }
{
    CellStep {
        piece: Some(piece),
        skip: 0,
    }
}

/// A key of so many bytes, before spaces and a colon.
fn key_step(text: Scalar, len: usize, rest: &[u8]) -> CellStep
    requires { len + length rest.now < 2 ^ 62 }
    ensures { result ≡ record { piece = Some (pieces.CellKey text); skip = (len + (prefix_len is_space rest.now + 1)) - 1 } }
{
    CellStep {
        piece: Some(Piece::CellKey(text)),
        skip: len + spaces(rest),
    }
}

/// A scalar of so many bytes that is no key.
fn scalar_step(value: TextOrNull, len: usize) -> CellStep
    ensures { result ≡ record { piece = Some (pieces.CellScalar value); skip = len - 1 } }
{
    CellStep {
        piece: Some(Piece::CellScalar(value)),
        skip: len.saturating_sub(1),
    }
}

/// The step over a plain scalar, or a key that is one.
fn plain_step(text: Scalar, bytes: &[u8], len: usize) -> CellStep
    requires small { length bytes.now < 2 ^ 62 }
    requires fits { len ≤ length bytes.now }
    ensures step { result ≡ word_step text (plain_value text) bytes.now len }
    ensures within { result.skip ≤ length bytes.now - 1 }
{
    let rest = from(bytes, len);
    if at_colon(rest) {
        key_step(text, len, rest)
    } else {
        scalar_step(plain_value(text), len)
    }
}

/// The step over a scalar in quotes, or a key that is one.
fn quoted_step(text: Scalar, bytes: &[u8], len: usize) -> CellStep
    requires small { length bytes.now < 2 ^ 62 }
    requires fits { len ≤ length bytes.now }
    ensures step { result ≡ word_step text (Some text) bytes.now len }
    ensures within { result.skip ≤ length bytes.now - 1 }
{
    let rest = from(bytes, len);
    if at_colon(rest) {
        key_step(text, len, rest)
    } else {
        scalar_step(TextOrNull::text(text), len)
    }
}

/// The step over a scalar, a key, or what no form has.
fn scan_step(scan: Scan, b: u8, rest: &[u8], bytes: &[u8]) -> CellStep
    requires whole { bytes.now ≡ b ∷ rest.now }
    requires small { length bytes.now < 2 ^ 62 }
    requires fits { IsWithin scan (1 + length rest.now) }
    ensures step { result ≡ scan_step b rest.now scan }
    ensures within { result.skip ≤ length rest.now }
{
    match scan {
        Scan::Plain(text, len) => plain_step(text, bytes, len),
        Scan::Quoted(text, len) => quoted_step(text, bytes, len),
        Scan::Refused(why) => CellStep {
            piece: Some(Piece::OddPiece(why)),
            skip: refused_len(b, rest),
        },
    }
}

/// Before a space, the line's end, `,`, `]` or `}`.
fn at_cell_gap(bytes: &[u8]) -> bool
    ensures { result ≡ at_cell_gap bytes.now }
{
    match bytes {
        [] => true,
        [first, ..] => *first == b' ' || is_separator(*first),
    }
}

/// Before a name that ends where one may in a flow form.
fn has_cell_name(bytes: &[u8]) -> bool
    ensures { result ≡ has_name at_cell_gap bytes.now }
{
    !name_at(bytes).is_empty() && at_cell_gap(after_name(bytes))
}

/// The step over a space, or over a comment behind one, which goes to the line's end.
fn space_step(rest: &[u8]) -> CellStep
    ensures step { result ≡ record { piece = None; skip = if begins_with number_sign rest.now then length rest.now else 0 } }
{
    CellStep {
        piece: None,
        skip: if begins_with(b'#', rest) {
            rest.len()
        } else {
            0
        },
    }
}

/// The step at these bytes.
fn step_at(alloc: Global, b: u8, rest: &[u8], bytes: &[u8]) -> Result<CellStep, NoMemory>
    requires whole { bytes.now ≡ b ∷ rest.now }
    requires small { length bytes.now < 2 ^ 62 }
    ensures step { IfOk result (λ s. s ≡ step_at b rest.now) }
    ensures within { IfOk result (λ s. s.skip ≤ length rest.now) }
{
    match b {
        b' ' => Ok(space_step(rest)),
        b'[' => Ok(one_byte(Piece::Opening(Bracket::Square))),
        b']' => Ok(one_byte(Piece::Closing(Bracket::Square))),
        b'{' => Ok(one_byte(Piece::Opening(Bracket::Curly))),
        b'}' => Ok(one_byte(Piece::Closing(Bracket::Curly))),
        b',' => Ok(one_byte(Piece::Comma)),
        b'&' if has_cell_name(rest) => Ok(CellStep {
            piece: Some(Piece::CellAnchor(Scalar::from_slice(alloc, name_at(rest))?)),
            skip: name_len(rest),
        }),
        b'*' if has_cell_name(rest) => Ok(CellStep {
            piece: Some(Piece::CellAlias(Scalar::from_slice(alloc, name_at(rest))?)),
            skip: name_len(rest),
        }),
        _ => Ok(scan_step(cell_scan(alloc, b, rest, bytes)?, b, rest, bytes)),
    }
}

/// How many brackets are open behind a piece.
fn open_after(piece: &Option<Piece>, depth: usize) -> usize
    requires { depth < 2 ^ 62 }
    ensures value { result ≡ open_after piece.now depth }
    ensures small { result ≤ depth + 1 }
{
    match piece {
        Some(Piece::Opening(_)) => depth + 1,
        Some(Piece::Closing(_)) => depth.saturating_sub(1),
        _ => depth,
    }
}

/// Whether a piece closes the last bracket that is open.
fn is_last(piece: &Option<Piece>, depth: usize) -> bool
    ensures { result ≡ is_last piece.now depth }
{
    match piece {
        Some(Piece::Closing(_)) => depth <= 1,
        _ => false,
    }
}

/// The pieces with that of a step, if it has one.
fn put_piece(pieces: Pieces, piece: Option<Piece>) -> Result<Pieces, NoMemory>
    ensures { IfOk result (λ grown. grown ≡ pieces ++ put_piece piece []) }
{
    match piece {
        Some(piece) => pieces.with(piece),
        None => Ok(pieces),
    }
}

/// The pieces of the flow form at the front of bytes that begin with a bracket, and how many bytes
/// it takes.
pub(crate) fn flow_at(alloc: Global, bytes: &[u8]) -> Result<(Pieces, usize), NoMemory>
    requires { length bytes.now < 2 ^ 62 }
    ensures pieces { IfOk result (λ found. found.0 ≡ (flow_at bytes.now).pieces) }
    ensures len { IfOk result (λ found. found.1 ≡ (flow_at bytes.now).len) }
    ensures within { IfOk result (λ found. found.1 ≤ length bytes.now) }
{
    let mut pieces = Pieces::new(alloc)?;
    let mut depth = 0;
    let mut rest = bytes;
    while let Some((b, behind)) = rest.split_first() {
        let CellStep { piece, skip } = step_at(alloc, *b, behind, rest)?;
        let last = is_last(&piece, depth);
        depth = open_after(&piece, depth);
        pieces = put_piece(pieces, piece)?;
        if last {
            return Ok((pieces, bytes.len() - behind.len()));
        }
        rest = from(behind, skip);
    }
    Ok((pieces, bytes.len()))
}
