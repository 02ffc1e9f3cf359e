//! The lines of the error stream.

ghost use Rattle.std.specs.Prelude.{◌≡◌, ◌++◌, IfOk, OnOk, OnErr, string_bytes, option_map};
ghost use Rattle.out_text.specs.Faults.{text_name, told_at, fault_line, note_line, unmet_line, at_line};
ghost use Rattle.out_text.specs.Files.{process_text, state_text};

use crate::files::ShownState;
use base_texts::Text;
use sim_base::{NoMemory, State};
use std::alloc::{AllocError, Global};

/// What a line of the error stream tells.
#[derive(Clone, Copy)]
pub enum FaultText<'a> {
    /// The command line is not of its form.
    Usage,
    /// The value of the option of this name is not of its form, or out of its range.
    BadOption(&'a str),
    /// Something is wrong with a file or a directory as a whole: `not found`, `too long`, `ELF KIND`,
    /// `exists` or `read failed`.
    File {
        file: &'a str,
        what: &'a str,
    },
    /// Something is wrong at a line of a text, counted from 1, and in a configuration at a key. An
    /// inline text is the graph that stands inside the configuration `file`.
    At {
        file: &'a str,
        inline: bool,
        line: u64,
        path: Option<&'a str>,
        what: &'a str,
    },
    /// Two nodes of the graph need a route and have none.
    NoRoute {
        from: u32,
        to: u32,
    },
    /// A process did not end as it was expected to.
    Unmet {
        host: &'a str,
        program: &'a str,
        pid: u32,
        state: State,
        expected: State,
    },
}

/// The name of a text: a file's, or that of the graph inside it.
fn name_of_text(alloc: Global, file: &str, inline: bool) -> Result<String, AllocError>
    ensures { IfOk result (λ name. string_bytes name ≡ text_name file.now inline) }
{
    if inline {
        format!(in alloc; "{file}: graph")
    } else {
        String::from_str(alloc, file)
    }
}

/// What is wrong, behind the key where there is one.
fn what_at(alloc: Global, path: Option<&str>, what: &str) -> Result<String, AllocError>
    ensures { IfOk result (λ told. string_bytes told ≡ told_at (option_map (λ p. p.now) path.entry) what.now) }
{
    match path {
        None => String::from_str(alloc, what),
        Some(path) => format!(in alloc; "{path}: {what}"),
    }
}

fn string_at(alloc: Global, file: &str, line: u64, told: &str) -> Result<String, AllocError>
    ensures { IfOk result (λ text. string_bytes text ≡ at_line file.now line told.now) }
{
    format!(in alloc; "shadow: {file}:{line}: {told}\n")
}

fn unmet_string(
    alloc: Global,
    process: &str,
    state: State,
    expected: State,
) -> Result<String, AllocError>
    ensures { IfOk result (λ text. string_bytes text ≡ unmet_line process.now (state_text state) (state_text expected)) }
{
    let state = ShownState(state);
    let expected = ShownState(expected);
    format!(in alloc; "shadow: {process}: {state}, expected {expected}\n")
}

fn fault_string(alloc: Global, fault: &FaultText<'_>) -> Result<String, AllocError>
    ensures { IfOk result (λ text. string_bytes text ≡ fault_line fault.now) }
{
    match *fault {
        FaultText::Usage => String::from_str(alloc, "shadow: usage: shadow [options] CONFIG\n"),
        FaultText::BadOption(name) => format!(in alloc; "shadow: --{name}: bad value\n"),
        FaultText::File { file, what } => format!(in alloc; "shadow: {file}: {what}\n"),
        FaultText::At {
            file,
            inline,
            line,
            path,
            what,
        } => {
            let name = name_of_text(alloc, file, inline)?;
            let told = what_at(alloc, path, what)?;
            string_at(alloc, name.as_str(), line, told.as_str())
        }
        FaultText::NoRoute { from, to } => {
            format!(in alloc; "shadow: no route from node {from} to node {to}\n")
        }
        FaultText::Unmet {
            host,
            program,
            pid,
            state,
            expected,
        } => {
            let process = format!(in alloc; "{host}/{program}.{pid}")?;
            unmet_string(alloc, process.as_str(), state, expected)
        }
    }
}

/// Adds the line of a fault, or leaves the text as it was.
pub fn fault_line(alloc: Global, into: &mut Text, fault: &FaultText<'_>) -> Result<(), NoMemory>
    ensures ok { OnOk result (into.new ≡ into.old ++ fault_line fault.now) }
    ensures err { OnErr result (into.new ≡ into.old) }
{
    let line = fault_string(alloc, fault)?;
    into.push_str(line.as_str())
}

/// Adds the line that tells that a key of the configuration has no effect, or leaves the text as it
/// was.
pub fn note_line(alloc: Global, into: &mut Text, path: &str) -> Result<(), NoMemory>
    ensures ok { OnOk result (into.new ≡ into.old ++ note_line path.now) }
    ensures err { OnErr result (into.new ≡ into.old) }
{
    let line = format!(in alloc; "shadow: note: {path} has no effect\n")?;
    into.push_str(line.as_str())
}
