//! The top call.

ghost use Rattle.std.specs.Prelude.{◌≡◌, ◌≢◌, ◌+◌, ◌<◌, ◌≤◌, ◌⊎◌, map, string_bytes, IfSome, IfOk};
ghost use Rattle.run_outside.specs.Faults.{Rose};
ghost use Rattle.run_outside.specs.Tally.{CountsWrites};
ghost use Rattle.opened_run.specs.Opened.{HasOpened};
ghost use Rattle.run_plan.specs.Limits.{KeepsToLimits, AreLimitsKept};
ghost use Rattle.run_plan.specs.Names.{AreRowsApart, AreNamesApart};
ghost use Rattle.run_plan.specs.Routed.{IsRouted, IsRoutedIfRun};
ghost use Rattle.run_answers.specs.Answers.{IsSmall};
ghost use Rattle.shadow_top.specs.Contract.{AddsLine, Shows, TellsReadFailed, ShowsPart, TellsPart};
ghost use Rattle.shadow_top.specs.Input.{input};
ghost use Rattle.shadow_top.specs.inside.Outcome.{Outcome};
ghost use Rattle.shadow_top.specs.inside.Steps.{Keeps, Runs, CarriesOut, RunsPlan, RunsOpened, RunsNoted};
ghost use Rattle.shadow_top.specs.inside.Stop.{CountsSource, CountsSink};

use crate::ending::put_ending;
use crate::laws::one_shown;
use crate::rounds::put_run;
use net_run::{parts_are_between, put_notes};
use opened_run::{Opened, prepare};
use round_lookahead::{World, one_result};
use run_answers::{Answer, Stop, ended, list_capture, show_config, tell_stop};
use run_outside::{Sink, Source, WriteError};
use run_plan::laws::one_plan;
use run_plan::{Planned, Run, read_plan, worker_count};
use std::alloc::AllocGlobal;
use std::thread::Threads;
use steal_workers::Gate;

/// Makes a run whose notes were written, and writes what it shows: the heads of captures, what a round
/// gains as soon as the round is over, and the rest at the end.
fn run_noted<K: Sink, G: Gate + Sync, R: Threads + Sync + AllocGlobal>(
    rt: &R,
    cores: u32,
    gate: &G,
    opened: Opened,
    sink: &mut K,
) -> Result<u8, WriteError>
    requires { HasOpened opened }
    ensures told { IfSome (K.content sink.old) (λ c. RunsNoted opened c (K.content sink.new) result) }
    ensures status { IfOk result (λ status. status ≤ 1) }
    ensures count { CountsWrites result (K.tally sink.old) (K.tally sink.new) }
{
    one_result();
    parts_are_between();
    let alloc = rt.alloc();
    let Opened {
        is_self_load,
        streams,
        parallelism,
        lookahead,
        rows,
        net,
        ..
    } = opened;
    let hosts = rows.len() as u32;
    let workers = worker_count(parallelism, cores, hosts);
    let mut world = World::start(alloc, rows, net, lookahead)?;
    put_run(rt, workers, gate, &mut world, sink)?;
    put_ending(alloc, &world, is_self_load, streams, sink)
}

/// Makes a run whose data directory was made, and writes what it shows.
fn run_begun<K: Sink, G: Gate + Sync, R: Threads + Sync + AllocGlobal>(
    rt: &R,
    cores: u32,
    gate: &G,
    opened: Opened,
    sink: &mut K,
) -> Result<u8, WriteError>
    requires { HasOpened opened }
    ensures told { IfSome (K.content sink.old) (λ c. RunsOpened opened c (K.content sink.new) result) }
    ensures status { IfOk result (λ status. status ≤ 1) }
    ensures count { CountsWrites result (K.tally sink.old) (K.tally sink.new) }
{
    one_result();
    parts_are_between();
    put_notes(rt.alloc(), sink, opened.notes.as_slice())?;
    run_noted(rt, cores, gate, opened, sink)
}

/// Makes the data directory, where it isn't there, and a run, and writes what it shows.
fn run_plan<K: Sink, G: Gate + Sync, R: Threads + Sync + AllocGlobal>(
    rt: &R,
    cores: u32,
    gate: &G,
    run: Run,
    sink: &mut K,
) -> Result<Answer, WriteError>
    requires limits { KeepsToLimits run.plan }
    requires routed { IsRouted run.plan }
    requires apart { AreRowsApart run.plan }
    ensures told { IfSome (K.content sink.old) (λ c. RunsPlan run c (K.content sink.new) result) }
    ensures status { IfOk result IsSmall }
    ensures count { CountsWrites result (K.tally sink.old) (K.tally sink.new) }
{
    let (opened, directory) = prepare(rt.alloc(), run)?;
    if !sink.begin(directory.as_str())? {
        return Ok(Answer::Exists(directory));
    }
    let status = run_begun(rt, cores, gate, opened, sink)?;
    Ok(Answer::Status(status))
}

/// Carries out what was planned, and writes what it shows.
fn carry_out<K: Sink, G: Gate + Sync, R: Threads + Sync + AllocGlobal>(
    rt: &R,
    cores: u32,
    gate: &G,
    planned: Planned,
    sink: &mut K,
) -> Result<Answer, WriteError>
    requires limits { AreLimitsKept planned }
    requires routed { IsRoutedIfRun planned }
    requires apart { AreNamesApart planned }
    ensures told { IfSome (K.content sink.old) (λ c. CarriesOut planned c (K.content sink.new) result) }
    ensures status { IfOk result IsSmall }
    ensures count { CountsWrites result (K.tally sink.old) (K.tally sink.new) }
{
    match planned {
        Planned::Shows(config) => show_config(rt.alloc(), sink, &config),
        Planned::Runs(run) => run_plan(rt, cores, gate, run, sink),
        Planned::Lists(capture) => list_capture(rt.alloc(), sink, &capture),
    }
}

/// Reads what is asked, does it, and writes what it shows.
fn run<S: Source, K: Sink, G: Gate + Sync, R: Threads + Sync + AllocGlobal>(
    rt: &R,
    cores: u32,
    gate: &G,
    words: &[String],
    source: &mut S,
    sink: &mut K,
) -> Result<u8, Stop>
    ensures told { IfSome (S.held source.old) (λ held. IfSome (K.content sink.old)
        (λ c. Runs (input (map string_bytes words.now) held c) c (K.content sink.new) result)) }
    ensures kept { IfSome (K.content sink.old) (λ c. Keeps c (K.content sink.new) result) }
    ensures status { IfOk result (λ status. status ≤ 1) }
    ensures reads { CountsSource result (S.faults source.old) (S.faults source.new) }
    ensures writes { CountsSink result (K.tally sink.old) (K.tally sink.new) }
{
    one_plan();
    one_result();
    one_shown();
    match read_plan(rt, rt.alloc(), words, source, cores) {
        Ok(planned) => ended(carry_out(rt, cores, gate, planned, sink)),
        Err(stop) => Err(Stop::from(stop)),
    }
}

/// The same, and tells why it stopped before its end.
fn run_and_tell<S: Source, K: Sink, G: Gate + Sync, R: Threads + Sync + AllocGlobal>(
    rt: &R,
    cores: u32,
    gate: &G,
    words: &[String],
    source: &mut S,
    sink: &mut K,
) -> u8
    ensures outcome { Outcome (map string_bytes words.now) (S.held source.old) (K.content sink.old) (K.content sink.new)
        (S.faults source.old) (S.faults source.new) (K.tally sink.old) (K.tally sink.new) result }
    ensures untouched { IfSome (K.content sink.old) (λ c. 2 ≤ result → result ≤ 3 → AddsLine c (K.content sink.new)) }
{
    one_plan();
    one_result();
    one_shown();
    match run(rt, cores, gate, words, source, sink) {
        Ok(status) => status,
        Err(stop) => tell_stop(rt.alloc(), sink, &stop),
    }
}

/// Runs the experiment that the words name, over the files of a source, and writes what it shows to a sink.
///
/// `words[0]` is the program's name. Where the configuration names no number of workers, there are as many as cores.
/// Neither their number nor the gate, which each tells before it runs a host, changes what is shown. The status is
/// 0 where the run was made and each expectation was met, 1 where one was not, 2 where the input was refused, 3 where
/// a read failed, 4 where a write failed and 5 where memory ran out.
pub fn shadow<S: Source, K: Sink, G: Gate + Sync, R: Threads + Sync + AllocGlobal>(
    rt: &R,
    words: &[String],
    cores: u32,
    source: &mut S,
    sink: &mut K,
    gate: &G,
) -> u8
    // Where no call of source and sink failed and memory sufficed, what stands there is what the input shows.
    ensures headline { IfSome (S.held source.old) (λ held. IfSome (K.content sink.old)
        (λ c. ¬ (Rose (S.faults source.old) (S.faults source.new)) → ¬ (Rose (K.tally sink.old).faults (K.tally sink.new).faults) → result ≢ 5
        → Shows (input (map string_bytes words.now) held c) c (K.content sink.new) result)) }

    // Then the status is one of those that tell what was shown, or 5.
    ensures known { ¬ (Rose (S.faults source.old) (S.faults source.new)) → ¬ (Rose (K.tally sink.old).faults (K.tally sink.new).faults)
        → (result ≤ 2) ⊎ (result ≡ 5) }

    // A status of 0, 1 or 2 tells what was shown, whatever failed.
    ensures shown { IfSome (S.held source.old) (λ held. IfSome (K.content sink.old)
        (λ c. result ≤ 2 → Shows (input (map string_bytes words.now) held c) c (K.content sink.new) result)) }

    // 3: a read failed, and the line that says so was added, and nothing else.
    ensures read_failed { result ≡ 3 → Rose (S.faults source.old) (S.faults source.new) }
    ensures told_read_failed { IfSome (S.held source.old) (λ held. IfSome (K.content sink.old)
        (λ c. result ≡ 3 → TellsReadFailed (input (map string_bytes words.now) held c) c (K.content sink.new))) }

    // After 2 and 3 a line was added, and all else stands as it stood, whatever the source tells of its files.
    ensures untouched { IfSome (K.content sink.old) (λ c. 2 ≤ result → result ≤ 3 → AddsLine c (K.content sink.new)) }

    // 4: a write failed.
    ensures write_failed { result ≡ 4 → Rose (K.tally sink.old).faults (K.tally sink.new).faults }

    // After 4 and 5 each target holds a front of what it would.
    ensures part { IfSome (S.held source.old) (λ held. IfSome (K.content sink.old)
        (λ c. 4 ≤ result → ShowsPart (input (map string_bytes words.now) held c) c (K.content sink.new)
        ⊎ (Rose (S.faults source.old) (S.faults source.new) × TellsPart (input (map string_bytes words.now) held c) c (K.content sink.new)))) }

    // A call that failed is never hidden.
    ensures after_read { S.faults source.old < S.faults source.new → 3 ≤ result }
    ensures after_write { (K.tally sink.old).faults < (K.tally sink.new).faults → result ≡ 4 }

    // After a call of the sink that answered an error, want of memory among them, no call of it is made: none other
    // answered one, none was made since, and the status says so.
    ensures quiet_after_error { (K.tally sink.old).errors < (K.tally sink.new).errors
        → ((K.tally sink.new).errors ≡ (K.tally sink.old).errors + 1) × ((K.tally sink.new).since ≡ 0) × (4 ≤ result) }
    ensures quiet_after_4 { result ≡ 4 → (K.tally sink.new).since ≡ 0 }
    ensures within { result ≤ 5 }
{
    run_and_tell(rt, cores, gate, words, source, sink)
}
