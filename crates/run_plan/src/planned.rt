//! What is asked by the words of a call.

ghost use Rattle.std.specs.Prelude.{◌≡◌, ◌<◌, ◌≤◌, map, string_bytes, IfSome, IfOk};
ghost use Rattle.sim_base.specs.Limits.{most_ring_hosts};
ghost use Rattle.command_line.specs.Asked.{asked};
ghost use Rattle.run_plan.specs.Reading.{gives, Meets, CountsSource};
ghost use Rattle.run_plan.specs.Planned.{or_words_fault, shown_or_run, file_planned, self_load_planned, capture_planned, planned_of, planned};
ghost use Rattle.run_plan.specs.InRange.{IsInRange, overrides_of};
ghost use Rattle.run_plan.specs.Limits.{AreLimitsKept};
ghost use Rattle.run_plan.specs.Names.{AreNamesApart};
ghost use Rattle.run_plan.specs.Routed.{IsRoutedIfRun};
ghost use Rattle.shd_config.specs.Limits.{MayOverride};

use crate::captured::parse_capture;
use crate::configured::configure;
use crate::fault::{Fault, ReadStop};
use crate::file::read_file;
use crate::one_file::OneFile;
use crate::plan::{Plan, read_plan_of, read_run};
use crate::ring::ring_bytes;
use crate::self_load::{self_load_config, self_load_graph};
use base_texts::Name;
use command_line::{Asked, Subject, WordsError, read_words};
use pcap_text::Capture;
use run_outside::Source;
use shd_config::{Config, Overrides};
use sim_base::NoMemory;
use std::alloc::Global;
use std::thread::Threads;

/// A plan and how it is run.
#[derive(Drop)]
pub struct Run {
    pub plan: Plan,
    /// How many instructions a process may run from one call to the next.
    pub budget: u32,
    /// Whether the counts of packets are told at the end.
    pub is_self_load: bool,
    /// Whether what became of each connection is told at the end.
    pub streams: bool,
}

/// What is asked for.
#[derive(Drop)]
pub enum Planned {
    /// The configuration is shown.
    Shows(Config),
    /// The plan is run.
    Runs(Run),
    /// The records of the capture are listed.
    Lists(Capture),
}

/// What the words ask for.
fn parse_words(alloc: Global, words: &[String]) -> Result<Asked, ReadStop>
    ensures told { Meets (λ a. a) (gives (or_words_fault (asked (map string_bytes words.now)))) result }
    ensures range { IfOk result (λ a. IsInRange a.subject) }
    ensures overrides { IfOk result (λ a. MayOverride (overrides_of a)) }
{
    match read_words(alloc, words) {
        Ok(asked) => Ok(asked),
        Err(WordsError::Refused(fault)) => Err(ReadStop::Refused(Fault::Words(fault))),
        Err(WordsError::NoMemory) => Err(ReadStop::NoMemory),
    }
}

/// What is asked of a configuration that is to run, and how.
#[derive(Drop)]
pub struct Manner {
    pub overrides: Overrides,
    pub budget: u32,
    pub streams: bool,
    pub shows_config: bool,
}

/// The plan of the configuration in a file.
#[tactic(auto, unfolding(crate::specs::Planned::file_planned))]
fn plan_file<R: Threads + Sync, S: Source>(
    rt: &R,
    alloc: Global,
    source: &mut S,
    manner: &Manner,
    name: &Name,
    cores: u32,
) -> Result<Planned, ReadStop>
    requires { MayOverride manner.now.overrides }
    ensures told { IfSome (S.held source.old) (λ held. Meets (λ p. p) (file_planned manner.now held name.now) result) }
    ensures limits { IfOk result AreLimitsKept }
    ensures routed { IfOk result IsRoutedIfRun }
    ensures apart { IfOk result AreNamesApart }
    ensures same { S.held source.new ≡ S.held source.old }
    ensures count { CountsSource result (S.faults source.old) (S.faults source.new) }
{
    let text = read_file(alloc, source, name.as_str())?;
    let config = configure(alloc, name.as_str(), &text, &manner.overrides)?;
    if manner.shows_config {
        return Ok(Planned::Shows(config));
    }
    let plan = read_plan_of(rt, alloc, source, name.as_str(), config, cores)?;
    Ok(Planned::Runs(Run {
        plan,
        budget: manner.budget,
        is_self_load: false,
        streams: manner.streams,
    }))
}

/// The plan of a self-load, of which only the guest is read, from memory.
#[tactic(auto, unfolding(crate::specs::Planned::self_load_planned))]
fn plan_self_load<R: Threads + Sync>(
    rt: &R,
    alloc: Global,
    manner: &Manner,
    hosts: u32,
    cores: u32,
) -> Result<Planned, ReadStop>
    requires some { 0 < hosts }
    requires few { hosts ≤ most_ring_hosts }
    requires overrides { MayOverride manner.now.overrides }
    ensures told { Meets (λ p. p) (self_load_planned manner.now hosts) result }
    ensures limits { IfOk result AreLimitsKept }
    ensures routed { IfOk result IsRoutedIfRun }
    ensures apart { IfOk result AreNamesApart }
    ensures count { CountsSource result 0 0 }
{
    let config = self_load_config(alloc, &manner.overrides, hosts)?;
    if manner.shows_config {
        return Ok(Planned::Shows(config));
    }
    let graph = self_load_graph(alloc, hosts)?;
    let mut files = OneFile {
        name: "ring",
        bytes: ring_bytes(alloc)?,
    };
    let plan = read_run(rt, alloc, &mut files, "self-load", &graph, config, cores)?;
    Ok(Planned::Runs(Run {
        plan,
        budget: manner.budget,
        is_self_load: true,
        streams: manner.streams,
    }))
}

/// The capture in a file.
#[tactic(auto, unfolding(crate::specs::Planned::capture_planned))]
fn plan_capture<S: Source>(alloc: Global, source: &mut S, name: &Name) -> Result<Planned, ReadStop>
    ensures told { IfSome (S.held source.old) (λ held. Meets (λ p. p) (capture_planned held name.now) result) }
    ensures limits { IfOk result AreLimitsKept }
    ensures routed { IfOk result IsRoutedIfRun }
    ensures apart { IfOk result AreNamesApart }
    ensures same { S.held source.new ≡ S.held source.old }
    ensures count { CountsSource result (S.faults source.old) (S.faults source.new) }
{
    let bytes = read_file(alloc, source, name.as_str())?;
    let capture = parse_capture(alloc, name.as_str(), &bytes)?;
    Ok(Planned::Lists(capture))
}

/// The plan of a call with these words, or its first fault, on a machine of so many cores, which
/// changes nothing of it.
#[tactic(auto, unfolding(crate::specs::Planned::planned))]
pub fn read_plan<R: Threads + Sync, S: Source>(
    rt: &R,
    alloc: Global,
    words: &[String],
    source: &mut S,
    cores: u32,
) -> Result<Planned, ReadStop>
    ensures told { IfSome (S.held source.old) (λ held. Meets (λ p. p) (planned (map string_bytes words.now) held) result) }
    ensures limits { IfOk result AreLimitsKept }
    ensures routed { IfOk result IsRoutedIfRun }
    ensures apart { IfOk result AreNamesApart }
    ensures same { S.held source.new ≡ S.held source.old }
    ensures count { CountsSource result (S.faults source.old) (S.faults source.new) }
{
    let asked = parse_words(alloc, words)?;
    let manner = Manner {
        overrides: Overrides {
            seed: asked.seed,
            parallelism: asked.parallelism,
            data_directory: asked.data_directory,
            stop_time: asked.stop_time,
        },
        budget: asked.budget,
        streams: asked.streams,
        shows_config: asked.shows_config,
    };
    match asked.subject {
        Subject::File(name) => plan_file(rt, alloc, source, &manner, &name, cores),
        Subject::SelfLoad(hosts) => plan_self_load(rt, alloc, &manner, hosts, cores),
        Subject::Capture(name) => plan_capture(alloc, source, &name),
    }
}
