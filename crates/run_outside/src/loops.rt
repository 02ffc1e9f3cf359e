//! Whole files from a source, and whole pieces to a sink.

ghost use Rattle.std.specs.Prelude.{◌≡◌, ◌+◌, ◌<◌, ◌≤◌, length, take, option_map, IfSome, IfOk, OnOk, OnErr};
ghost use Rattle.run_outside.specs.Source.{HasRead, EndsBy, CountsReads};
ghost use Rattle.run_outside.specs.Sink.{add, AddsFront};
ghost use Rattle.run_outside.specs.Tally.{CountsWrites};

use crate::sink::{Sink, SinkTarget, WriteError};
use crate::source::{ReadError, Source};
use std::alloc::Global;

/// Reads one piece behind what the buffer has so far.
fn read_more<S: Source>(
    source: &mut S,
    name: &str,
    filled: usize,
    buffer: &mut [u8],
) -> Result<usize, ReadError>
    requires { filled ≤ length buffer.old }
    ensures fits { IfOk result (λ n. filled + n ≤ length buffer.old) }
    ensures more { IfOk result (λ n. HasRead (S.held source.old) name.now filled buffer.old
        → HasRead (S.held source.old) name.now (filled + n) buffer.new) }
    ensures ended { IfOk result (λ n. n ≡ 0 → filled < length buffer.old → EndsBy filled (S.held source.old) name.now) }
    ensures same { S.held source.new ≡ S.held source.old }
    ensures count { CountsReads result (S.faults source.old) (S.faults source.new) }
{
    let taken = source.read(name, filled as u64, &mut buffer[filled..])?;
    Ok(taken)
}

/// Reads the first `size` bytes of a file, or all where it has fewer.
pub fn read_all<S: Source>(
    alloc: Global,
    source: &mut S,
    name: &str,
    size: usize,
) -> Result<Vec<u8>, ReadError>
    ensures told { IfSome (S.held source.old)
        (λ files. IfOk result (λ read. IfSome (files name.now) (λ bytes. read.items ≡ take size bytes))) }
    ensures same { S.held source.new ≡ S.held source.old }
    ensures count { CountsReads result (S.faults source.old) (S.faults source.new) }
{
    let mut read = vec![in alloc; 0u8; size]?;
    let mut filled = 0;
    while filled < size {
        let taken = read_more(source, name, filled, read.as_mut_slice())?;
        if taken == 0 {
            break;
        }
        filled += taken;
    }
    read.truncate(filled);
    Ok(read)
}

/// Adds a whole piece to the end of a target, whose file is made where it is not there.
pub fn put_all<S: Sink>(sink: &mut S, target: &SinkTarget, piece: &[u8]) -> Result<(), WriteError>
    ensures ok { OnOk result (S.content sink.new ≡ option_map (add target.now piece.now) (S.content sink.old)) }

    // After an error nothing was added, or a front of the piece.
    ensures err { OnErr result (AddsFront target.now piece.now (S.content sink.old) (S.content sink.new)) }
    ensures count { CountsWrites result (S.tally sink.old) (S.tally sink.new) }
{
    let mut rest = piece;
    loop {
        let taken = sink.put(target, rest)?;
        let (_, after) = rest.split_at(taken);
        rest = after;
        if rest.is_empty() {
            return Ok(());
        }
    }
}
