//! The lines of a text.

ghost use Rattle.std.specs.Prelude.{◌≡◌, ◌<◌, ◌≤◌, ◌∷◌, ◌++◌, not, ◌==◌, List, ℕ, [], length, take};
ghost use Rattle.std.specs.List.{prefix_len};
ghost use Rattle.yaml_tokens.specs.Lines.{is_inside, split_lines, without_mark, without_return};

use crate::scan::{before, past};

/// How many bytes stand before the line feed.
fn line_len(bytes: &[u8]) -> usize
    ensures len { result ≡ prefix_len is_inside bytes.now }
    ensures within { result ≤ length bytes.now }
{
    for (i, b) in bytes.iter().enumerate() {
        if *b == b'\n' {
            return i;
        }
    }
    bytes.len()
}

/// The line without a carriage return at its end.
fn without_return(line: &[u8]) -> &[u8]
    ensures { result.now ≡ without_return line.now }
{
    match line.split_last() {
        Some((last, front)) => { if *last == b'\r' { front } else { line } }
        None => line,
    }
}

/// The first line, and the bytes behind its line feed.
pub fn next_line(text: &[u8]) -> (&[u8], &[u8])
    requires { 0 < length text.now }
    ensures lines { split_lines text.now ≡ result.0.now ∷ split_lines result.1.now }
    ensures rest { length result.1.now < length text.now }
    ensures line { length result.0.now ≤ length text.now }
{
    let n = line_len(text);
    let len = text.len();
    if n == len {
        let none = past(text, n);
        return (text, none);
    }
    let front = before(text, n);
    let line = without_return(front);
    let rest = past(text, n + 1);
    (line, rest)
}

/// The text without a byte order mark at its start.
pub fn without_mark(text: &[u8]) -> &[u8]
    ensures { result.now ≡ without_mark text.now }
{
    if text.starts_with([0xEF, 0xBB, 0xBF].as_slice()) {
        &text[3..]
    } else {
        text
    }
}
