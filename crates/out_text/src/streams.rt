//! What became of the bytes of connections.

ghost use Rattle.std.specs.Prelude.{◌≡◌, ◌++◌, Some, OnOk, OnErr};
ghost use Rattle.out_text.specs.Streams.{end_word, fate_text, stream_line};

use crate::address::ShownAddr;
use base_texts::Text;
use sim_base::{Addr, HostId, NoMemory};
use std::alloc::Global;
use std::fmt;

/// What became of the bytes that one end of a connection wrote to the other.
#[derive(Clone, Copy)]
pub enum Fate {
    /// How many were written and how many were read, and whether the reader saw the end.
    Counted { written: u64, read: u64, end: bool },
    /// One of the ends was used for more than one connection.
    Reused,
    /// More were written at one of the ends than are counted.
    Long,
}

/// What a host wrote to a connection, by its own end and its peer's.
#[derive(Clone, Copy)]
pub struct Stream {
    pub host: HostId,
    pub own: Addr,
    pub peer: Addr,
    pub fate: Fate,
}

fn end_word(end: bool) -> &'static str
    ensures { result.now ≡ end_word end }
{
    if end { "end" } else { "open" }
}

impl fmt::Display for Fate {
    ghost output = { λ fate. Some (fate_text fate) };

    fn fmt<W: fmt::Write>(&self, f: &mut fmt::Formatter<W>) -> fmt::Result {
        match *self {
            Fate::Counted { written, read, end } => {
                let word = end_word(end);
                write!(f, "written {written} read {read} {word}")
            }
            Fate::Reused => f.write_str("reused"),
            Fate::Long => f.write_str("long"),
        }
    }
}

/// Adds the line of what the host of this name wrote to a connection, or leaves the text as it was.
pub fn stream_line(
    alloc: Global,
    into: &mut Text,
    host: &str,
    stream: &Stream,
) -> Result<(), NoMemory>
    ensures ok { OnOk result (into.new ≡ into.old ++ stream_line host.now stream.now) }
    ensures err { OnErr result (into.new ≡ into.old) }
{
    let (own, peer) = (ShownAddr(stream.own), ShownAddr(stream.peer));
    let fate = stream.fate;
    let line = format!(in alloc; "stream {host} {own} {peer} {fate}\n")?;
    into.push_str(line.as_str())
}
