//! Bytes, and the targets where they are put.

ghost use Rattle.std.specs.Prelude.{◌≡◌, ◌+◌, IfOk};
ghost use Rattle.run_outside.specs.declared.sink.SinkTarget.TheVariants as target;
ghost use Rattle.out_text.specs.Files.{file_name, capture_name};
ghost use Rattle.file_calls.specs.Guest.{first_id};
ghost use Rattle.run_files.specs.Files as spec;
ghost use Rattle.run_files.specs.Files.{put_of};

use base_texts::{Name, Text};
use file_calls::{FIRST_ID, Output};
use host_rows::FinalState;
use out_text::FileKind;
use run_outside::SinkTarget;
use sim_base::{Bytes, NoMemory, State};
use std::alloc::Global;

/// A target, and the bytes that are put there.
#[derive(Drop)]
pub struct Piece {
    pub target: SinkTarget,
    pub bytes: Bytes,
}

/// The part of a path behind its last slash.
pub(crate) fn program(path: &str) -> &str
    ensures { result.now ≡ spec.program_of path.now }
{
    match path.rsplit_once('/') {
        Some((_, last)) => last,
        None => path,
    }
}

/// All that a process wrote to a descriptor.
pub(crate) fn written_to(
    alloc: Global,
    process: u32,
    descriptor: u32,
    outputs: &[Output],
) -> Result<Bytes, NoMemory>
    ensures { IfOk result (λ bytes. bytes ≡ spec.written_to process descriptor outputs.now) }
{
    let mut bytes = Bytes::new(alloc);
    for output in outputs {
        if output.process == process && output.descriptor == descriptor {
            bytes.extend_from_slice(output.bytes.as_slice())?;
        }
    }
    Ok(bytes)
}

pub(crate) fn expected_state(expected: FinalState) -> State
    ensures { result ≡ spec.expected_state expected }
{
    match expected {
        FinalState::Exited(status) => State::Exited(status),
        FinalState::Signaled(signal) => State::Signaled(signal),
        FinalState::Running => State::Running,
    }
}

/// A file of a process.
pub fn file_piece(
    alloc: Global,
    host: &str,
    program: &str,
    pid: u32,
    kind: FileKind,
    bytes: Bytes,
) -> Result<Piece, NoMemory>
    ensures { IfOk result (λ p. put_of p ≡ (target.File (file_name host.now program.now pid kind), bytes)) }
{
    let mut name = Text::new(alloc);
    out_text::file_name(alloc, &mut name, host, program, pid, kind)?;
    Ok(Piece {
        target: SinkTarget::File(Name::from(name.into_string())),
        bytes,
    })
}

/// A capture of a host.
pub fn capture_piece(
    alloc: Global,
    host: &str,
    loopback: bool,
    bytes: Bytes,
) -> Result<Piece, NoMemory>
    ensures { IfOk result (λ p. put_of p ≡ (target.File (capture_name host.now loopback), bytes)) }
{
    let mut name = Text::new(alloc);
    out_text::capture_name(alloc, &mut name, host, loopback)?;
    Ok(Piece {
        target: SinkTarget::File(Name::from(name.into_string())),
        bytes,
    })
}

/// A text's bytes, without a copy.
pub fn bytes_of(text: Text) -> Bytes
    ensures { result ≡ text }
{
    Bytes::from(text.into_string().into_bytes())
}

/// The file of the packet log, with a text.
pub fn log_piece(alloc: Global, text: Text) -> Result<Piece, NoMemory>
    ensures { IfOk result (λ p. put_of p ≡ (target.File (spec.log_name), text)) }
{
    Ok(Piece {
        target: SinkTarget::File(Name::from_str(alloc, "packets.log")?),
        bytes: bytes_of(text),
    })
}

/// The number of a process and its id, by its place. More processes than have ids have no room.
pub fn numbers(place: usize) -> Result<(u32, u32), NoMemory>
    ensures { IfOk result (λ n. (n.0 ≡ place) × (n.1 ≡ first_id + place)) }
{
    if place < 4_000_000_000 {
        let process = place as u32;
        Ok((process, FIRST_ID + process))
    } else {
        Err(NoMemory)
    }
}
