//! Literal blocks.

ghost use Rattle.std.specs.Prelude.{◌≡◌, ◌≤◌, ◌++◌, ◌-◌, ◌∷◌, List, ℕ, [], length, OnOk, IfOk};
ghost use Rattle.std.specs.List.{suffix_len};
ghost use Rattle.yaml_tokens.specs.Literals.{is_blank, indent, block_column, line_from, joined, is_feed, without_feeds, with_feed, chomped, block_text};

use sim_base::NoMemory;
use std::alloc::Global;
use std::marker::Model;
use yaml_tokens::{Chomp, Scalar, is_blank, past, spaces};

/// Lines, which contracts see as a list.
#[derive(Drop)]
pub(crate) struct TextLines {
    items: Vec<Scalar>,
}

impl Model for TextLines {
    ghost use Rattle.std.specs.Prelude.{List, ℕ};

    ghost Value = { List (List ℕ) };

    ghost view = { λ l. l.items.items };
}

impl TextLines {
    pub fn new(alloc: Global) -> TextLines
        ensures { result ≡ [] }
    {
        TextLines {
            items: Vec::new(alloc),
        }
    }

    pub fn push(&mut self, line: Scalar) -> Result<(), NoMemory>
        ensures { OnOk result (self.new ≡ self.old ++ line ∷ []) }
    {
        self.items.push(line)?;
        Ok(())
    }

    /// The column of the block: that of its first line that isn't blank.
    fn block_column(&self) -> Option<usize>
        ensures { result ≡ block_column self.now }
    {
        for line in &self.items {
            let bytes = line.as_slice();
            if !is_blank(bytes) {
                return Some(spaces(bytes));
            }
        }
        None
    }

    /// The lines from a column on, each with its end. Each line is let go once it is copied.
    fn into_joined(self, alloc: Global, column: Option<usize>) -> Result<Vec<u8>, NoMemory>
        ensures { IfOk result (λ text. text.items ≡ joined column self) }
    {
        let TextLines { items } = self;
        let mut text = Vec::new(alloc);
        for line in items {
            text.extend_from_slice(line_from(column, line.as_slice()))?;
            text.push(b'\n')?;
        }
        Ok(text)
    }
}

/// A literal block that is still open: its bar's depth, line and chomping, and its lines so far.
#[derive(Drop)]
pub(crate) struct Literal {
    pub depth: u128,
    pub line: usize,
    pub chomp: Chomp,
    pub lines: TextLines,
}

impl Literal {
    /// The text of the block.
    pub fn into_text(self, alloc: Global) -> Result<Scalar, NoMemory>
        ensures { IfOk result (λ text. text ≡ block_text self.chomp self.lines) }
    {
        let Literal {
            depth: _,
            line: _,
            chomp,
            lines,
        } = self;
        let column = lines.block_column();
        let text = lines.into_joined(alloc, column)?;
        Ok(Scalar::from_vec(chomped(chomp, text)?)?)
    }
}

/// A line from the block's column on, of which there is nothing in a block of blank lines alone.
fn line_from(column: Option<usize>, line: &[u8]) -> &[u8]
    ensures { result.now ≡ line_from column line.now }
{
    match column {
        Some(column) => past(line, column),
        None => &[],
    }
}

/// How many bytes stand before the line ends at the end.
fn len_without_feeds(bytes: &[u8]) -> usize
    ensures len { result ≡ length bytes.now - suffix_len is_feed bytes.now }
    ensures within { result ≤ length bytes.now }
{
    let mut n = bytes.len();
    while n > 0 && bytes[n - 1] == b'\n' {
        n -= 1;
    }
    n
}

fn without_feeds(text: Vec<u8>) -> Vec<u8>
    ensures { result.items ≡ without_feeds text.items }
{
    let mut text = text;
    let len = len_without_feeds(&text);
    text.truncate(len);
    text
}

fn with_feed(text: Vec<u8>) -> Result<Vec<u8>, NoMemory>
    ensures { IfOk result (λ whole. whole.items ≡ with_feed text.items) }
{
    let mut text = text;
    if !text.is_empty() {
        text.push(b'\n')?;
    }
    Ok(text)
}

fn chomped(chomp: Chomp, text: Vec<u8>) -> Result<Vec<u8>, NoMemory>
    ensures { IfOk result (λ whole. whole.items ≡ chomped chomp text.items) }
{
    match chomp {
        Chomp::Clip => with_feed(without_feeds(text)),
        Chomp::Strip => Ok(without_feeds(text)),
        Chomp::Keep => Ok(text),
    }
}
