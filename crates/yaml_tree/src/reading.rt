//! Reading a text, line by line.

ghost use Rattle.std.specs.Prelude.{◌≡◌, ◌+◌, ◌<◌, ◌≤◌, ◌^◌, List, ℕ, Bool, None, Ok, Err, length, take, count_by, IfOk, IfErr, false, ◌==◌, ◌||◌};
ghost use Rattle.yaml_tokens.specs.Lines.{split_lines, lines_of};
ghost use Rattle.yaml_tree.specs.inside.Builder.{Steps, Reads, ReadsLine, take_tokens, take_line, read_line, at_line, read_lines, fresh};
ghost use Rattle.yaml_tree.specs.Said.{Said};
ghost use Rattle.yaml_tokens.specs.Tokens.{has_content, place_after, line_tokens, next_place, tokens_of};
ghost use Rattle.yaml_tokens.specs.declared.place.LinePlace.TheVariants.{Outside};
ghost use Rattle.yaml_tree.specs.Tree.{IsTreeOf, IsFaultOf, is_empty_document};
ghost use Rattle.yaml_tree.specs.Written.{is_name};
ghost use Rattle.std.specs.List.{list_all};
ghost use Rattle.sim_base.specs.Ascii.{line_feed};
ghost use Rattle.yaml_tree.specs.Trees.{Holds, IsWhole, IsErrorOf, is_empty};
ghost use Rattle.yaml_tree.specs.inside.Trees.{RootIsIn, IsReading, error_at};

use crate::builder::Builder;
use crate::fault::{FaultKind, Stop, TreeError, YamlFault};
use crate::hashing::Hashing;
use crate::tree::Tree;
use sim_base::NoMemory;
use std::alloc::Global;
use yaml_tokens::{
    LinePlace, Token, Tokens, has_content, line_tokens, next_line, next_place, without_mark,
};

/// Gives the tokens of a line to the builder.
fn take_tokens(builder: &mut Builder, tokens: Tokens) -> Result<(), Stop>
    ensures { Steps result builder.new (take_tokens tokens builder.old) }
{
    for token in tokens.into_vec() {
        builder.take_token(token)?;
    }
    Ok(())
}

/// Gives the tokens of a line to the builder, and judges the tree so far.
fn take_line(builder: &mut Builder, tokens: Tokens) -> Result<(), Stop>
    ensures { Steps result builder.new (take_line tokens builder.old) }
{
    take_tokens(builder, tokens)?;
    builder.judge()
}

/// The fault of a line.
fn error_at(number: usize, stop: Stop) -> TreeError
    ensures { result ≡ error_at number stop }
{
    match stop {
        Stop::Fault(kind) => TreeError::Fault(YamlFault { line: number, kind }),
        Stop::NoMemory => TreeError::NoMemory,
    }
}

/// Gives the tokens of a line to the builder, and answers the line's number where it is faulty.
fn take_numbered(builder: &mut Builder, number: usize, tokens: Tokens) -> Result<(), TreeError>
    ensures { Reads result builder.new (at_line number (take_line tokens builder.old)) }
{
    match take_line(builder, tokens) {
        Ok(()) => Ok(()),
        Err(stop) => Err(error_at(number, stop)),
    }
}

fn is_name(token: &Token) -> bool
    ensures { result ≡ is_name token.now }
{
    matches!(token, Token::Anchor { .. })
}

/// Whether there are no tokens but names.
fn are_names(tokens: &Tokens) -> bool
    ensures { result ≡ list_all is_name tokens.now }
{
    for token in tokens.as_slice() {
        if !is_name(token) {
            return false;
        }
    }
    true
}

/// Reads a line, and tells where the next one stands, and whether it has no tokens but names.
#[tactic(auto, unfolding(crate::specs::inside::Builder::read_line))]
fn read_line(
    builder: &mut Builder,
    begun: bool,
    place: LinePlace,
    number: usize,
    line: &[u8],
) -> Result<(LinePlace, bool), TreeError>
    requires { length line.now < 2 ^ 62 }
    ensures read { ReadsLine result builder.new (at_line number (read_line begun place number line.now builder.old)) }
    ensures place { IfOk result (λ p. p.0 ≡ next_place begun place number line.now) }
    ensures names { IfOk result (λ p. p.1 ≡ list_all is_name (line_tokens begun place number line.now)) }
{
    let tokens = line_tokens(builder.alloc, begun, place, number, line)?;
    let next = next_place(place, line, &tokens);
    let names = are_names(&tokens);
    take_numbered(builder, number, tokens)?;
    Ok((next, names))
}

/// Reads the lines of a text, and tells whether they are those of an empty document.
fn read_lines(builder: &mut Builder, text: &[u8]) -> Result<bool, TreeError>
    requires { length text.now < 2 ^ 62 }
    ensures read { ReadsLine result builder.new (read_lines false (Outside None) 1 (split_lines text.now) builder.old) }
    ensures empty { IfOk result (λ empty. empty ≡ is_empty_document (split_lines text.now)) }
{
    let mut rest = text;
    let mut begun = false;
    let mut place = LinePlace::Outside { head: None };
    let mut number = 1;
    let mut empty = true;
    while !rest.is_empty() {
        let (line, behind) = next_line(rest);
        let read = read_line(builder, begun, place, number, line)?;
        place = read.0;
        empty = empty && read.1;
        begun = has_begun(begun, line);
        number += 1;
        rest = behind;
    }
    Ok(empty)
}

fn has_begun(begun: bool, line: &[u8]) -> bool
    ensures { result ≡ (begun || has_content line.now) }
{
    begun || has_content(line)
}

/// Closes all that is open.
fn finish(builder: Builder, empty: bool) -> Result<Tree, NoMemory>
    requires { RootIsIn builder }
    ensures whole { IfOk result (IsWhole builder) }
    ensures empty { IfOk result (λ tree. is_empty tree ≡ empty) }
{
    let mut builder = builder;
    let root = builder.finish()?;
    Ok(Tree {
        nodes: builder.into_made().into_nodes()?,
        root,
        empty,
    })
}

/// Reads a text that is UTF-8.
fn read_text(alloc: Global, text: &[u8]) -> Result<Tree, TreeError>
    ensures read { IsReading (read_lines false (Outside None) 1 (lines_of text.now) (fresh alloc)) result }
    ensures empty { IfOk result (λ tree. is_empty tree ≡ is_empty_document (lines_of text.now)) }
{
    let bytes = without_mark(text);
    if bytes.len() >= LONGEST {
        return Err(TreeError::NoMemory);
    }
    let mut builder = Builder::new(alloc, Hashing::of(bytes));
    let empty = read_lines(&mut builder, bytes)?;
    Ok(finish(builder, empty)?)
}

/// Longer texts don't fit into memory.
const LONGEST: usize = 1 << 62;

/// How many line feeds there are.
fn line_feeds(text: &[u8]) -> usize
    ensures count { result ≡ count_by (λ b. b == line_feed) text.now }
    ensures most { result ≤ length text.now }
{
    let mut count = 0;
    for b in text {
        if *b == b'\n' {
            count += 1;
        }
    }
    count
}

/// The line of a byte.
fn line_of(text: &[u8], place: usize) -> usize
    requires { place ≤ length text.now }
    ensures { result ≡ 1 + count_by (λ b. b == line_feed) (take place text.now) }
{
    1 + line_feeds(&text[..place])
}

/// The tree of a text, in this project's own profile of YAML 1.2, or the fault of a text that has
/// none. Lines are counted from 1.
pub fn read_tree(alloc: Global, text: &[u8]) -> Result<Tree, TreeError>
    ensures tree { IfOk result (λ tree. (said : Said) × IsTreeOf text.now said × Holds tree said) }
    ensures empty { IfOk result (λ tree. is_empty tree ≡ is_empty_document (lines_of text.now)) }
    ensures fault { IfErr result (λ error. IsErrorOf text.now error) }
{
    match std::str::from_utf8(text) {
        Ok(_) => read_text(alloc, text),
        Err(error) => Err(TreeError::Fault(YamlFault {
            line: line_of(text, error.valid_up_to()),
            kind: FaultKind::NotUtf8,
        })),
    }
}
