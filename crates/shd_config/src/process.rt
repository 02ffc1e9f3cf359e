//! The processes of a host.

ghost use Rattle.std.specs.Prelude.{◌≡◌, ◌≤◌, ◌+◌, [], length, sum_by, min, nat_le};
ghost use Rattle.sim_base.specs.Limits.{most_text_bytes};
ghost use Rattle.shd_config.specs.Steps.{Gives, Sets, GivesSeen, optional, through, item};
ghost use Rattle.shd_config.specs.Values.{text_at, text_with, scalar_at};
ghost use Rattle.yaml_merge.specs.Plain.{line_of};
ghost use Rattle.shd_values.specs.Word.{names_program};
ghost use Rattle.shd_values.specs.Words.{words_of};
ghost use Rattle.shd_config.specs.Process.{argument_row, arguments_in, arguments_at, variable_row, environment_at, zero_time, start_of, start_in, start_in_row, is_behind, shutdown_at, new_process, process_key, process_row, finished_process, process_of, texts_size, process_in, process_at, process_item, processes_at};

use crate::config::{ProcessConfig, Variable};
use crate::fault::{ConfigError, ConfigKind};
use crate::key::{Key, key_of};
use crate::lists::{Processes, Variables};
use crate::optional::{optional_signal, optional_time};
use crate::setting::{set, set_or, set_some};
use crate::state::optional_state;
use crate::steps::{below, checked, fault, item_path, mapping_line, needed, refused, valued};
use crate::value::{read_mapping, read_sequence, read_text, read_time};
use base_texts::{Name, Text};
use host_rows::FinalState;
use shd_values::{Texts, has_program, read_words};
use sim_base::{MOST_PROCESSES, Signal, Time};
use std::alloc::Global;
use yaml_merge::{Pair, Plain};

/// What was read of a process.
#[derive(Drop)]
pub struct ProcessDraft {
    pub path: Option<Name>,
    pub args: Texts,
    pub environment: Variables,
    pub start_time: Option<Time>,
    pub shutdown_time: Option<Time>,
    pub shutdown_signal: Option<Signal>,
    pub expected_final_state: Option<FinalState>,
}

/// The text of an item.
fn read_item<'a>(
    alloc: Global,
    key: &str,
    index: usize,
    value: &'a Plain,
) -> Result<&'a str, ConfigError>
    ensures { GivesSeen (λ text. text.now) result (text_at (item key.now index value.now)) }
{
    match value.as_text() {
        Some(text) => Ok(text),
        None => {
            let path = item_path(alloc, key, index)?;
            Err(fault(alloc, ConfigKind::WrongType, value.line(), path.as_str()))
        }
    }
}

fn read_items(alloc: Global, key: &str, items: &[Plain]) -> Result<Texts, ConfigError>
    ensures { Gives result (through (argument_row key.now) [] items.now) }
{
    let mut texts = Texts::new(alloc);
    for value in items {
        let text = read_item(alloc, key, texts.len(), value)?;
        texts.push(Text::from_str(alloc, text)?)?;
    }
    Ok(texts)
}

fn split(alloc: Global, pair: &Pair) -> Result<Texts, ConfigError>
    ensures { Gives result (scalar_at words_of pair.now) }
{
    let text = read_text(alloc, pair)?;
    valued(alloc, ConfigKind::BadValue, pair, read_words(alloc, text)?)
}

/// Reads arguments: a list of scalars, or a text that is split into words.
#[tactic(auto, unfolding(crate::specs::Process::arguments_at))]
fn read_arguments(alloc: Global, pair: &Pair) -> Result<Texts, ConfigError>
    ensures { Gives result (arguments_at pair.now) }
{
    match pair.value.as_sequence() {
        Some(items) => read_items(alloc, pair.key.as_str(), items),
        None => split(alloc, pair),
    }
}

fn optional_arguments(alloc: Global, pair: &Pair) -> Result<Option<Texts>, ConfigError>
    ensures { Gives result (optional pair.now (arguments_at pair.now)) }
{
    if pair.value.is_null() {
        return Ok(None);
    }
    Ok(Some(read_arguments(alloc, pair)?))
}

fn read_variables(alloc: Global, pairs: &[Pair]) -> Result<Vec<Variable>, ConfigError>
    ensures { GivesSeen (λ v. v.items) result (through variable_row [] pairs.now) }
{
    let mut variables = Vec::new(alloc);
    for pair in pairs {
        let text = read_text(alloc, pair)?;
        variables.push(Variable {
            name: pair.key.clone()?,
            value: Text::from_str(alloc, text)?,
        })?;
    }
    Ok(variables)
}

#[tactic(auto, unfolding(crate::specs::Process::environment_at))]
fn read_environment(alloc: Global, pair: &Pair) -> Result<Variables, ConfigError>
    ensures { Gives result (environment_at pair.now) }
{
    let pairs = read_mapping(alloc, pair)?;
    match read_variables(alloc, pairs) {
        Ok(variables) => Ok(Variables::from(variables)),
        Err(error) => Err(below(alloc, pair.key.as_str(), error)),
    }
}

fn optional_environment(alloc: Global, pair: &Pair) -> Result<Option<Variables>, ConfigError>
    ensures { Gives result (optional pair.now (environment_at pair.now)) }
{
    if pair.value.is_null() {
        return Ok(None);
    }
    Ok(Some(read_environment(alloc, pair)?))
}

/// The start that the value of a key means, if it can be read.
fn start_of(pair: &Pair) -> Option<Time>
    ensures { result ≡ start_of pair.now }
{
    if pair.value.is_null() {
        return Some(Time { nanos: 0 });
    }
    match pair.value.as_text() {
        Some(text) => base_texts::read_time(text),
        None => None,
    }
}

/// The start that a mapping gives, or 0 where it gives none; nothing where it can't be read.
fn start_in(pairs: &[Pair]) -> Option<Time>
    ensures { result ≡ start_in pairs.now }
{
    for pair in pairs {
        if let Some(Key::StartTime) = key_of(pair.key.as_str()) {
            return start_of(pair);
        }
    }
    Some(Time { nanos: 0 })
}

fn is_behind(start: Option<Time>, time: Time) -> bool
    ensures { result ≡ is_behind start time }
{
    match start {
        Some(start) => start.nanos < time.nanos,
        None => true,
    }
}

/// A shutdown behind the start, which is known or not.
fn read_shutdown(alloc: Global, start: Option<Time>, pair: &Pair) -> Result<Time, ConfigError>
    ensures { Gives result (shutdown_at start pair.now) }
{
    let time = read_time(alloc, pair)?;
    if is_behind(start, time) {
        return Ok(time);
    }
    Err(refused(alloc, ConfigKind::OutOfRange, pair))
}

fn optional_shutdown(
    alloc: Global,
    start: Option<Time>,
    pair: &Pair,
) -> Result<Option<Time>, ConfigError>
    ensures { Gives result (optional pair.now (shutdown_at start pair.now)) }
{
    if pair.value.is_null() {
        return Ok(None);
    }
    Ok(Some(read_shutdown(alloc, start, pair)?))
}

/// The path of a program.
fn read_path(alloc: Global, pair: &Pair) -> Result<Name, ConfigError>
    ensures { Gives result (text_with names_program pair.now) }
{
    let text = read_text(alloc, pair)?;
    checked(alloc, ConfigKind::BadValue, pair, has_program(text))?;
    Ok(Name::from_str(alloc, text)?)
}

fn read_key(
    alloc: Global,
    start: Option<Time>,
    key: Option<Key>,
    draft: &mut ProcessDraft,
    pair: &Pair,
) -> Result<(), ConfigError>
    ensures { Sets result draft.new (process_key start key draft.old pair.now) }
{
    match key {
        Some(Key::Path) => set_some(&mut draft.path, read_path(alloc, pair)),
        Some(Key::Args) => {
            let none = Texts::new(alloc);
            set_or(&mut draft.args, optional_arguments(alloc, pair), none)
        }
        Some(Key::Environment) => {
            let none = Variables::from(Vec::new(alloc));
            set_or(
                &mut draft.environment,
                optional_environment(alloc, pair),
                none,
            )
        }
        Some(Key::StartTime) => set(&mut draft.start_time, optional_time(alloc, pair)),
        Some(Key::ShutdownTime) => {
            let shutdown_time = optional_shutdown(alloc, start, pair);
            set(&mut draft.shutdown_time, shutdown_time)
        }
        Some(Key::ShutdownSignal) => set(&mut draft.shutdown_signal, optional_signal(alloc, pair)),
        Some(Key::ExpectedFinalState) => {
            set(&mut draft.expected_final_state, optional_state(alloc, pair))
        }
        _ => Err(refused(alloc, ConfigKind::UnknownKey, pair)),
    }
}

fn new_process(alloc: Global) -> ProcessDraft
    ensures { result ≡ new_process }
{
    ProcessDraft {
        path: None,
        args: Texts::new(alloc),
        environment: Variables::from(Vec::new(alloc)),
        start_time: None,
        shutdown_time: None,
        shutdown_signal: None,
        expected_final_state: None,
    }
}

fn read_pairs(
    alloc: Global,
    start: Option<Time>,
    pairs: &[Pair],
) -> Result<ProcessDraft, ConfigError>
    ensures { Gives result (through (process_row start) new_process pairs.now) }
{
    let mut draft = new_process(alloc);
    for pair in pairs {
        read_key(alloc, start, key_of(pair.key.as_str()), &mut draft, pair)?;
    }
    Ok(draft)
}

fn finish_process(
    alloc: Global,
    line: usize,
    draft: ProcessDraft,
) -> Result<ProcessConfig, ConfigError>
    ensures { Gives result (finished_process line draft) }
{
    Ok(ProcessConfig {
        path: needed(alloc, "path", line, draft.path)?,
        args: draft.args,
        environment: draft.environment,
        start_time: draft.start_time.unwrap_or(Time { nanos: 0 }),
        shutdown_time: draft.shutdown_time,
        shutdown_signal: draft.shutdown_signal.unwrap_or(Signal::SigTerm),
        expected_final_state: draft.expected_final_state.unwrap_or(FinalState::Exited(0)),
    })
}

#[tactic(auto, unfolding(crate::specs::Process::process_of))]
fn process_of(alloc: Global, line: usize, pairs: &[Pair]) -> Result<ProcessConfig, ConfigError>
    ensures { Gives result (process_of line pairs.now) }
{
    let draft = read_pairs(alloc, start_in(pairs), pairs)?;
    finish_process(alloc, mapping_line(line, pairs), draft)
}

/// More bytes than the texts of a process may take.
const TOO_MANY: usize = 65_537;

/// The sum of two sizes, cut at too many bytes.
fn add(size: usize, more: usize) -> usize
    requires { size ≤ TOO_MANY }
    ensures { result ≡ min (size + more) TOO_MANY }
{
    if more >= TOO_MANY {
        return TOO_MANY;
    }
    (size + more).min(TOO_MANY)
}

fn with_arguments(size: usize, args: &[Text]) -> usize
    requires { size ≤ TOO_MANY }
    ensures { result ≡ min (size + sum_by (λ a. length a + 1) args.now) TOO_MANY }
{
    let mut size = size;
    for arg in args {
        size = add(size, arg.len());
        size = add(size, 1);
    }
    size
}

fn with_variables(size: usize, variables: &[Variable]) -> usize
    requires { size ≤ TOO_MANY }
    ensures { result ≡ min (size + sum_by (λ v. length v.name + length v.value + 2) variables.now) TOO_MANY }
{
    let mut size = size;
    for variable in variables {
        size = add(size, variable.name.len());
        size = add(size, variable.value.len());
        size = add(size, 2);
    }
    size
}

/// Whether the texts of a process, each with a zero byte behind it, take at most 65,536 bytes.
fn texts_fit(process: &ProcessConfig) -> bool
    ensures { result ≡ nat_le (texts_size process.now) most_text_bytes }
{
    let size = add(add(0, process.path.len()), 1);
    let size = with_arguments(size, process.args.as_slice());
    with_variables(size, process.environment.as_slice()) < TOO_MANY
}

/// What the mapping of a process says.
#[tactic(auto, unfolding(crate::specs::Process::process_in))]
fn process_in(alloc: Global, path: &str, value: &Plain) -> Result<ProcessConfig, ConfigError>
    ensures { Gives result (process_in (record { line = line_of value.now; key = path.now; value = value.now })) }
{
    let line = value.line();
    let Some(pairs) = value.as_mapping() else {
        return Err(fault(alloc, ConfigKind::WrongType, line, path));
    };
    match process_of(alloc, line, pairs) {
        Ok(process) => Ok(process),
        Err(error) => Err(below(alloc, path, error)),
    }
}

#[tactic(auto, unfolding(crate::specs::Process::process_at))]
fn read_process_at(alloc: Global, path: &str, value: &Plain) -> Result<ProcessConfig, ConfigError>
    ensures { Gives result (process_at (record { line = line_of value.now; key = path.now; value = value.now })) }
{
    let process = process_in(alloc, path, value)?;
    if texts_fit(&process) {
        return Ok(process);
    }
    Err(fault(alloc, ConfigKind::OutOfRange, value.line(), path))
}

/// Reads a process, an item of the sequence of this key.
fn read_process(
    alloc: Global,
    key: &str,
    index: usize,
    value: &Plain,
) -> Result<ProcessConfig, ConfigError>
    ensures { Gives result (process_at (item key.now index value.now)) }
{
    let path = item_path(alloc, key, index)?;
    read_process_at(alloc, path.as_str(), value)
}

fn read_list(alloc: Global, key: &str, items: &[Plain]) -> Result<Vec<ProcessConfig>, ConfigError>
    ensures { GivesSeen (λ v. v.items) result (through (process_item key.now) [] items.now) }
{
    let mut processes = Vec::new(alloc);
    for value in items {
        processes.push(read_process(alloc, key, processes.len(), value)?)?;
    }
    Ok(processes)
}

#[tactic(auto, unfolding(crate::specs::Process::processes_at))]
fn read_processes(alloc: Global, pair: &Pair) -> Result<Processes, ConfigError>
    ensures { Gives result (processes_at pair.now) }
{
    let items = read_sequence(alloc, pair)?;
    checked(
        alloc,
        ConfigKind::OutOfRange,
        pair,
        items.len() <= MOST_PROCESSES,
    )?;
    Ok(Processes::from(read_list(alloc, pair.key.as_str(), items)?))
}

pub fn optional_processes(alloc: Global, pair: &Pair) -> Result<Option<Processes>, ConfigError>
    ensures { Gives result (optional pair.now (processes_at pair.now)) }
{
    if pair.value.is_null() {
        return Ok(None);
    }
    Ok(Some(read_processes(alloc, pair)?))
}
