//! The names of a process's files, its last state, and the names of captures.

ghost use Rattle.std.specs.Prelude.{◌≡◌, ◌++◌, Some, OnOk, OnErr};
ghost use Rattle.out_text.specs.Files.{state_text, state_line, file_suffix, file_name, interface_name, capture_name};

use base_texts::Text;
use sim_base::{NoMemory, State};
use std::alloc::Global;
use std::fmt;

/// What a process's file holds.
#[derive(Clone, Copy)]
pub enum FileKind {
    /// What it wrote to descriptor 1.
    Stdout,
    /// What it wrote to descriptor 2.
    Stderr,
    /// Its final state.
    Exit,
}

fn suffix(kind: FileKind) -> &'static str
    ensures { result.now ≡ file_suffix kind }
{
    match kind {
        FileKind::Stdout => ".stdout",
        FileKind::Stderr => ".stderr",
        FileKind::Exit => ".exit",
    }
}

/// A state, which is written as a word or two.
#[derive(Clone, Copy)]
pub struct ShownState(pub State);

impl fmt::Display for ShownState {
    ghost output = { λ shown. Some (state_text shown.0) };

    fn fmt<W: fmt::Write>(&self, f: &mut fmt::Formatter<W>) -> fmt::Result {
        match self.0 {
            State::NotStarted => f.write_str("not started"),
            State::Running => f.write_str("running"),
            State::Exited(status) => write!(f, "exited {status}"),
            State::Signaled(signal) => {
                let name = signal.name();
                write!(f, "signaled {name}")
            }
        }
    }
}

/// Adds a state and a line end, or leaves the text as it was.
pub fn state_line(alloc: Global, into: &mut Text, state: State) -> Result<(), NoMemory>
    ensures ok { OnOk result (into.new ≡ into.old ++ state_line state) }
    ensures err { OnErr result (into.new ≡ into.old) }
{
    let state = ShownState(state);
    let line = format!(in alloc; "{state}\n")?;
    into.push_str(line.as_str())
}

/// Room for so many bytes is taken for the name of a file, which few of them need more than.
const NAME_ROOM: usize = 64;

/// Adds the name of a file of a process, below the data directory, or leaves the text as it was.
pub fn file_name(
    alloc: Global,
    into: &mut Text,
    host: &str,
    program: &str,
    pid: u32,
    kind: FileKind,
) -> Result<(), NoMemory>
    ensures ok { OnOk result (into.new ≡ into.old ++ file_name host.now program.now pid kind) }
    ensures err { OnErr result (into.new ≡ into.old) }
{
    let suffix = suffix(kind);
    let mut name = String::with_capacity(alloc, NAME_ROOM)?;
    write!(name, "hosts/{host}/{program}.{pid}{suffix}")?;
    into.push_str(name.as_str())
}

fn interface(loopback: bool) -> &'static str
    ensures { result.now ≡ interface_name loopback }
{
    if loopback { "lo" } else { "eth0" }
}

/// Adds the name of a capture of a host, below the data directory, or leaves the text as it was.
pub fn capture_name(
    alloc: Global,
    into: &mut Text,
    host: &str,
    loopback: bool,
) -> Result<(), NoMemory>
    ensures ok { OnOk result (into.new ≡ into.old ++ capture_name host.now loopback) }
    ensures err { OnErr result (into.new ≡ into.old) }
{
    let interface = interface(loopback);
    let name = format!(in alloc; "hosts/{host}/{interface}.pcap")?;
    into.push_str(name.as_str())
}
