//! What is put when a run is over and its files have grown.

ghost use Rattle.std.specs.Prelude.{◌≡◌, ◌+◌, ◌++◌, ◌∷◌, [], IfOk, OnOk, OnErr, map, length, option_map};
ghost use Rattle.run_outside.specs.Tally.{CountsWrites};
ghost use Rattle.out_text.specs.Files.{state_line};
ghost use Rattle.run_files.specs.Listed.{said, names_of};
ghost use Rattle.run_files.specs.Files.{put_of};
ghost use Rattle.file_calls.specs.Guest.{first_id};
ghost use Rattle.net_run.specs.Pieces.{with_pieces, PutsFront};
ghost use Rattle.net_run.specs.Rest as spec;
ghost use Rattle.net_run.specs.Shown.{files_named, unmet_by, status_by};

use crate::output::put_pieces;
use crate::process_pieces::{push_line, push_named};
use base_texts::Text;
use out_text::Summary;
use run_files::{HostListing, Listing, Piece, ProcessListing, bytes_of, log_piece, numbers};
use run_outside::{Sink, SinkTarget, WriteError};
use sim_base::{Bytes, NoMemory, State};
use std::alloc::Global;

/// The state of the process at a place. One that isn't told has not started.
fn state_at(states: &[State], place: usize) -> State
    ensures { result ≡ spec.state_at states.now place }
{
    match states.get(place) {
        Some(state) => *state,
        None => State::NotStarted,
    }
}

/// The files of a process, that of its final state with its line, behind other pieces.
fn push_rest(
    alloc: Global,
    pieces: &mut Vec<Piece>,
    host: &str,
    place: usize,
    process: &ProcessListing,
    state: State,
) -> Result<(), NoMemory>
    ensures { OnOk result (map put_of pieces.new.items ≡ map put_of pieces.old.items ++ files_named host.now process.now.program (first_id + place) [] [] (state_line state)) }
{
    let (_, pid) = numbers(place)?;
    let mut exit = Text::new(alloc);
    out_text::state_line(alloc, &mut exit, state)?;
    push_named(
        alloc,
        pieces,
        host,
        process.program.as_str(),
        pid,
        Bytes::new(alloc),
        Bytes::new(alloc),
        bytes_of(exit),
    )
}

/// The files of all processes of a host.
fn rest_pieces(alloc: Global, host: &HostListing, states: &[State]) -> Result<Vec<Piece>, NoMemory>
    ensures { IfOk result (λ pieces. map put_of pieces.items ≡ spec.host_rest (said host.now) states.now) }
{
    let mut pieces = Vec::new(alloc);
    let name = host.name.as_str();
    let processes = host.processes.as_slice();
    for place in 0..processes.len() {
        let state = state_at(states, place);
        push_rest(alloc, &mut pieces, name, place, &processes[place], state)?;
    }
    Ok(pieces)
}

/// Puts the files of the processes of a host.
fn put_states<K: Sink>(
    alloc: Global,
    sink: &mut K,
    host: &HostListing,
    states: &[State],
) -> Result<(), WriteError>
    ensures ok { OnOk result (K.content sink.new ≡ option_map (with_pieces (spec.host_rest (said host.now) states.now)) (K.content sink.old)) }
    ensures err { OnErr result (PutsFront (spec.host_rest (said host.now) states.now) (K.content sink.old) (K.content sink.new)) }
    ensures count { CountsWrites result (K.tally sink.old) (K.tally sink.new) }
{
    let pieces = match rest_pieces(alloc, host, states) {
        Ok(pieces) => pieces,
        Err(NoMemory) => return Err(WriteError::NoMemory),
    };
    put_pieces(sink, &pieces)?;
    Ok(())
}

/// Puts the files of all processes, each host's states by its place.
fn put_all_states<K: Sink>(
    alloc: Global,
    sink: &mut K,
    hosts: &[HostListing],
    states: &[Vec<State>],
) -> Result<(), WriteError>
    requires { length states.now ≡ length hosts.now }
    ensures ok { OnOk result (K.content sink.new ≡ option_map (with_pieces (spec.hosts_rest (map said hosts.now) (map (λ v. v.items) states.now))) (K.content sink.old)) }
    ensures err { OnErr result (PutsFront (spec.hosts_rest (map said hosts.now) (map (λ v. v.items) states.now)) (K.content sink.old) (K.content sink.new)) }
    ensures count { CountsWrites result (K.tally sink.old) (K.tally sink.new) }
{
    for place in 0..hosts.len() {
        put_states(alloc, sink, &hosts[place], states[place].as_slice())?;
    }
    Ok(())
}

/// The line of a process if its final state is another one than is expected, behind other pieces.
fn push_unmet(
    alloc: Global,
    pieces: &mut Vec<Piece>,
    host: &str,
    place: usize,
    process: &ProcessListing,
    state: State,
) -> Result<(), NoMemory>
    ensures { OnOk result (map put_of pieces.new.items ≡ map put_of pieces.old.items ++ unmet_by host.now process.now.program (first_id + place) process.now.expected state) }
{
    let (_, pid) = numbers(place)?;
    let program = process.program.as_str();
    push_line(alloc, pieces, host, program, pid, process.expected, state)?;
    Ok(())
}

/// Those of all processes of a host.
fn push_host_unmet(
    alloc: Global,
    pieces: &mut Vec<Piece>,
    host: &HostListing,
    states: &[State],
) -> Result<(), NoMemory>
    ensures { OnOk result (map put_of pieces.new.items ≡ map put_of pieces.old.items ++ spec.unmet_of_host (said host.now) states.now) }
{
    let name = host.name.as_str();
    let processes = host.processes.as_slice();
    for place in 0..processes.len() {
        let state = state_at(states, place);
        push_unmet(alloc, pieces, name, place, &processes[place], state)?;
    }
    Ok(())
}

/// Those of all hosts.
fn unmet(
    alloc: Global,
    hosts: &[HostListing],
    states: &[Vec<State>],
) -> Result<Vec<Piece>, NoMemory>
    requires { length states.now ≡ length hosts.now }
    ensures { IfOk result (λ pieces. map put_of pieces.items ≡ spec.unmet_of_hosts (map said hosts.now) (map (λ v. v.items) states.now)) }
{
    let mut pieces = Vec::new(alloc);
    for place in 0..hosts.len() {
        push_host_unmet(alloc, &mut pieces, &hosts[place], states[place].as_slice())?;
    }
    Ok(pieces)
}

/// The line of a summary, where there is one, behind other pieces.
fn push_summary(
    alloc: Global,
    pieces: &mut Vec<Piece>,
    summary: Option<Summary>,
) -> Result<(), NoMemory>
    ensures { OnOk result (map put_of pieces.new.items ≡ map put_of pieces.old.items ++ spec.summary_rest summary) }
{
    let Some(summary) = summary else {
        return Ok(());
    };
    let mut line = Text::new(alloc);
    out_text::summary_line(alloc, &mut line, &summary)?;
    pieces.push(Piece {
        target: SinkTarget::Out,
        bytes: bytes_of(line),
    })?;
    Ok(())
}

fn status(unmet: &[Piece]) -> u8
    ensures { result ≡ status_by (map put_of unmet.now) }
{
    if unmet.is_empty() { 0 } else { 1 }
}

/// The pieces behind the files of processes, and the status.
#[derive(Drop)]
pub struct Ending {
    pub(crate) pieces: Vec<Piece>,
    pub(crate) status: u8,
}

/// The packet log, the lines of unmet expectations and the summary.
fn make_ending(
    alloc: Global,
    hosts: &[HostListing],
    states: &[Vec<State>],
    summary: Option<Summary>,
) -> Result<Ending, NoMemory>
    requires { length states.now ≡ length hosts.now }
    ensures pieces { IfOk result (λ e. map put_of e.pieces.items ≡ spec.ending (map said hosts.now) (map (λ v. v.items) states.now) summary) }
    ensures status { IfOk result (λ e. e.status ≡ status_by (spec.unmet_of_hosts (map said hosts.now) (map (λ v. v.items) states.now))) }
{
    let mut unmet = unmet(alloc, hosts, states)?;
    let status = status(&unmet);
    let mut pieces = Vec::new(alloc);
    pieces.push(log_piece(alloc, Text::new(alloc))?)?;
    pieces.append(&mut unmet)?;
    push_summary(alloc, &mut pieces, summary)?;
    Ok(Ending { pieces, status })
}

/// Puts what is left when the files have grown: the final states, the lines of unmet expectations
/// and, where there is one, the summary. It gives the status.
pub fn put_rest<K: Sink>(
    alloc: Global,
    sink: &mut K,
    listing: &Listing,
    states: &[Vec<State>],
    summary: Option<Summary>,
) -> Result<u8, WriteError>
    requires { length states.now ≡ length (names_of listing.now) }
    ensures status { IfOk result (λ s. s ≡ status_by (spec.unmet_of_hosts (names_of listing.now) (map (λ v. v.items) states.now))) }
    ensures ok { OnOk result (K.content sink.new ≡ option_map (with_pieces (spec.all_rest (names_of listing.now) (map (λ v. v.items) states.now) summary)) (K.content sink.old)) }
    ensures err { OnErr result (PutsFront (spec.all_rest (names_of listing.now) (map (λ v. v.items) states.now) summary) (K.content sink.old) (K.content sink.new)) }
    ensures count { CountsWrites result (K.tally sink.old) (K.tally sink.new) }
{
    let hosts = listing.hosts.as_slice();
    put_all_states(alloc, sink, hosts, states)?;
    let ending = match make_ending(alloc, hosts, states, summary) {
        Ok(ending) => ending,
        Err(NoMemory) => return Err(WriteError::NoMemory),
    };
    put_pieces(sink, &ending.pieces)?;
    Ok(ending.status)
}
