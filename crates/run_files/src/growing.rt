//! What a round gained, as bytes for the files that grow: what processes wrote, the captures of hosts, and the packet log.

ghost use Rattle.std.specs.Prelude.{◌≡◌, ◌++◌, ◌∷◌, [], IfOk, OnOk, map, flat_map, length, slice_get};
ghost use Rattle.run_outside.specs.declared.sink.SinkTarget.TheVariants as target;
ghost use Rattle.out_text.specs.Files.{file_name};
ghost use Rattle.out_text.specs.Log.{log_line};
ghost use Rattle.run_files.specs.Files.{put_of};
ghost use Rattle.run_files.specs.Grown as spec;
ghost use Rattle.run_files.specs.LinesFit.{AllFit};
ghost use Rattle.run_files.specs.Listed.{said, names_of};
ghost use Rattle.run_files.specs.Written.{written_in};
ghost use Rattle.host_link.specs.Logs.{kept_lines};

use crate::capture::push_captures;
use crate::fitting::lines_fit;
use crate::listed::{HostListing, Listing, ProcessListing};
use crate::log_text::log_text;
use crate::piece::{Piece, file_piece, log_piece, numbers, written_to};
use crate::written::Written;
use file_calls::Output;
use host_link::Logged;
use out_text::FileKind;
use sim_base::{Bytes, NoMemory};
use std::alloc::Global;
use std::thread::Threads;

/// Bytes for a file of a process, behind other pieces, where there are any.
fn push_bytes(
    alloc: Global,
    pieces: &mut Vec<Piece>,
    host: &str,
    program: &str,
    pid: u32,
    kind: FileKind,
    bytes: Bytes,
) -> Result<(), NoMemory>
    ensures { OnOk result (map put_of pieces.new.items ≡ map put_of pieces.old.items ++ spec.with_bytes ((target.File (file_name host.now program.now pid kind), bytes) ∷ [])) }
{
    if bytes.is_empty() {
        return Ok(());
    }
    pieces.push(file_piece(alloc, host, program, pid, kind, bytes)?)?;
    Ok(())
}

/// What a process wrote to descriptors 1 and 2, behind other pieces.
fn push_process(
    alloc: Global,
    pieces: &mut Vec<Piece>,
    host: &str,
    place: usize,
    process: &ProcessListing,
    outputs: &[Output],
) -> Result<(), NoMemory>
    ensures { OnOk result (map put_of pieces.new.items ≡ map put_of pieces.old.items ++ spec.with_bytes (spec.process_grown host.now outputs.now place process.now)) }
{
    let (number, pid) = numbers(place)?;
    let program = process.program.as_str();
    let stdout = written_to(alloc, number, 1, outputs)?;
    let stderr = written_to(alloc, number, 2, outputs)?;
    push_bytes(alloc, pieces, host, program, pid, FileKind::Stdout, stdout)?;
    push_bytes(alloc, pieces, host, program, pid, FileKind::Stderr, stderr)?;
    Ok(())
}

/// What all processes of a host wrote, behind other pieces.
fn push_processes(
    alloc: Global,
    pieces: &mut Vec<Piece>,
    host: &HostListing,
    outputs: &[Output],
) -> Result<(), NoMemory>
    ensures { OnOk result (map put_of pieces.new.items ≡ map put_of pieces.old.items ++ spec.with_bytes (spec.host_grown (said host.now) outputs.now)) }
{
    let name = host.name.as_str();
    let processes = host.processes.as_slice();
    for place in 0..processes.len() {
        push_process(alloc, pieces, name, place, &processes[place], outputs)?;
    }
    Ok(())
}

/// The same, where the host wrote anything.
fn push_outputs(
    alloc: Global,
    pieces: &mut Vec<Piece>,
    host: &HostListing,
    outputs: &[Output],
) -> Result<(), NoMemory>
    ensures { OnOk result (map put_of pieces.new.items ≡ map put_of pieces.old.items ++ spec.with_bytes (spec.host_grown (said host.now) outputs.now)) }
{
    if outputs.is_empty() {
        return Ok(());
    }
    push_processes(alloc, pieces, host, outputs)
}

/// What the processes of all hosts wrote, each host's by its place.
fn output_pieces(
    alloc: Global,
    listing: &Listing,
    written: &Written,
) -> Result<Vec<Piece>, NoMemory>
    requires { length (written_in written.now) ≡ length (names_of listing.now) }
    ensures { IfOk result (λ pieces. map put_of pieces.items ≡ spec.with_bytes (spec.hosts_grown (names_of listing.now) (written_in written.now))) }
{
    let hosts = listing.hosts.as_slice();
    let mut pieces = Vec::new(alloc);
    let mut place = 0;
    for host in written.hosts.as_slice() {
        let at = place + host.silent;
        push_outputs(alloc, &mut pieces, &hosts[at], host.outputs.as_slice())?;
        place = at + 1;
    }
    Ok(pieces)
}

/// The text of lines for the packet log, behind other pieces, where there are any.
fn push_lines<R: Threads + Sync>(
    rt: &R,
    alloc: Global,
    pieces: &mut Vec<Piece>,
    hosts: &[HostListing],
    lines: Vec<Logged>,
    threads: usize,
) -> Result<(), NoMemory>
    ensures { OnOk result (map put_of pieces.new.items ≡ map put_of pieces.old.items ++ spec.with_bytes (spec.log_grown (map said hosts.now) (kept_lines lines.items) ∷ [])) }
{
    let text = log_text(rt, alloc, hosts, lines, threads)?;
    if text.is_empty() {
        return Ok(());
    }
    pieces.push(log_piece(alloc, text)?)?;
    Ok(())
}

/// The targets and bytes that a round gained: what the processes of all hosts wrote, each host's by
/// its place, the records of its captures, and the lines of the packet log. So many threads may make the text of
/// the lines.
pub fn round_pieces<R: Threads + Sync>(
    rt: &R,
    alloc: Global,
    listing: &Listing,
    written: &Written,
    lines: Vec<Logged>,
    threads: usize,
) -> Result<Vec<Piece>, NoMemory>
    requires { length (written_in written.now) ≡ length (names_of listing.now) }
    ensures pieces { IfOk result (λ pieces. map put_of pieces.items ≡ spec.with_bytes (spec.all_grown (names_of listing.now) (written_in written.now) (kept_lines lines.items))) }

    // The numbers of the lines' packets fit their types.
    ensures fit { AllFit (kept_lines lines.items) }
{
    lines_fit(&lines);
    let hosts = listing.hosts.as_slice();
    let mut pieces = output_pieces(alloc, listing, written)?;
    push_captures(alloc, &mut pieces, listing, &lines)?;
    push_lines(rt, alloc, &mut pieces, hosts, lines, threads)?;
    Ok(pieces)
}
