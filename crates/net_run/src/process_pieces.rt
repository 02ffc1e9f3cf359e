//! The pieces of one process.

ghost use Rattle.std.specs.Prelude.{◌≡◌, ◌++◌, ◌∷◌, [], ◌+◌, ◌<◌, ◌^◌, List, IfOk, OnOk, map};
ghost use Rattle.run_outside.specs.declared.sink.SinkTarget.TheVariants as target;
ghost use Rattle.out_text.specs.Files.{file_name, state_line};
ghost use Rattle.run_files.specs.Files.{put_of};
ghost use Rattle.net_run.specs.Shown as spec;

use base_texts::Text;
use out_text::{FaultText, FileKind};
use run_files::{Piece, bytes_of, file_piece};
use run_outside::SinkTarget;
use sim_base::{Bytes, NoMemory, State};
use std::alloc::Global;

/// Whether a process ended as it is expected to.
fn meets(expected: State, state: State) -> bool
    ensures { result ≡ spec.meets expected state }
{
    match (expected, state) {
        (_, State::NotStarted) => true,
        (State::Running, State::Running) => true,
        (State::Exited(a), State::Exited(b)) => a == b,
        (State::Signaled(a), State::Signaled(b)) => a.number() == b.number(),
        _ => false,
    }
}

/// A file of a process, behind other pieces.
fn push_file(
    alloc: Global,
    pieces: &mut Vec<Piece>,
    host: &str,
    program: &str,
    pid: u32,
    kind: FileKind,
    bytes: Bytes,
) -> Result<(), NoMemory>
    ensures { OnOk result (map put_of pieces.new.items ≡ map put_of pieces.old.items ++ (target.File (file_name host.now program.now pid kind), bytes) ∷ []) }
{
    pieces.push(file_piece(alloc, host, program, pid, kind, bytes)?)?;
    Ok(())
}

/// The three files of a process, behind other pieces.
pub(crate) fn push_named(
    alloc: Global,
    pieces: &mut Vec<Piece>,
    host: &str,
    program: &str,
    pid: u32,
    stdout: Bytes,
    stderr: Bytes,
    exit: Bytes,
) -> Result<(), NoMemory>
    ensures { OnOk result (map put_of pieces.new.items ≡ map put_of pieces.old.items ++ spec.files_named host.now program.now pid stdout stderr exit) }
{
    push_file(alloc, pieces, host, program, pid, FileKind::Stdout, stdout)?;
    push_file(alloc, pieces, host, program, pid, FileKind::Stderr, stderr)?;
    push_file(alloc, pieces, host, program, pid, FileKind::Exit, exit)
}

/// The line of a process if its final state is another one, behind other pieces.
pub(crate) fn push_line(
    alloc: Global,
    pieces: &mut Vec<Piece>,
    host: &str,
    program: &str,
    pid: u32,
    expected: State,
    state: State,
) -> Result<(), NoMemory>
    ensures { OnOk result (map put_of pieces.new.items ≡ map put_of pieces.old.items ++ spec.unmet_by host.now program.now pid expected state) }
{
    if meets(expected, state) {
        return Ok(());
    }
    let mut line = Text::new(alloc);
    let unmet = FaultText::Unmet {
        host,
        program,
        pid,
        state,
        expected,
    };
    out_text::fault_line(alloc, &mut line, &unmet)?;
    pieces.push(Piece {
        target: SinkTarget::Err,
        bytes: bytes_of(line),
    })?;
    Ok(())
}
