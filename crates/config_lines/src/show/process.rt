//! How a process is shown.

ghost use Rattle.std.specs.Prelude.{◌≡◌, ◌++◌, codes, string_bytes, IfOk};
ghost use Rattle.std.specs.List.{flat_map};
ghost use Rattle.config_lines.specs.Quoted.{quoted};
ghost use Rattle.config_lines.specs.Shown.{listed, shown_args, shown_variable, shown_environment, shown_state, shown_time, line_if, end_lines, shown_end, process_lines, shown_process, shown_processes};

use crate::show::quoted::quoted;
use crate::show::value::time_string;
use base_texts::Text;
use host_rows::FinalState;
use shd_config::{ProcessConfig, Variable};
use sim_base::Time;
use std::alloc::{AllocError, Global};

/// More arguments behind those so far.
fn more_args(alloc: Global, before: String, args: &[Text]) -> Result<String, AllocError>
    ensures { IfOk result (λ s. string_bytes s ≡ string_bytes before ++ flat_map (λ y. codes ", " ++ quoted y) args.now) }
{
    let mut out = before;
    for arg in args {
        let arg = quoted(alloc, arg.as_str())?;
        write!(out, ", {arg}")?;
    }
    Ok(out)
}

/// The arguments, with a comma and a space between them.
fn args_string(alloc: Global, args: &[Text]) -> Result<String, AllocError>
    ensures { IfOk result (λ s. string_bytes s ≡ listed quoted args.now) }
{
    match args {
        [] => Ok(String::new(alloc)),
        [first, rest @ ..] => more_args(alloc, quoted(alloc, first.as_str())?, rest),
    }
}

fn variable_string(alloc: Global, variable: &Variable) -> Result<String, AllocError>
    ensures { IfOk result (λ s. string_bytes s ≡ shown_variable variable.now) }
{
    let name = quoted(alloc, variable.name.as_str())?;
    let value = quoted(alloc, variable.value.as_str())?;
    format!(in alloc; "{name}: {value}")
}

/// More variables behind those so far.
fn more_variables(
    alloc: Global,
    before: String,
    variables: &[Variable],
) -> Result<String, AllocError>
    ensures { IfOk result (λ s. string_bytes s ≡ string_bytes before ++ flat_map (λ y. codes ", " ++ shown_variable y) variables.now) }
{
    let mut out = before;
    for variable in variables {
        let variable = variable_string(alloc, variable)?;
        write!(out, ", {variable}")?;
    }
    Ok(out)
}

/// The variables, with a comma and a space between them.
fn variables_string(alloc: Global, variables: &[Variable]) -> Result<String, AllocError>
    ensures { IfOk result (λ s. string_bytes s ≡ listed shown_variable variables.now) }
{
    match variables {
        [] => Ok(String::new(alloc)),
        [first, rest @ ..] => more_variables(alloc, variable_string(alloc, first)?, rest),
    }
}

/// The arguments in brackets.
fn bracketed_args(alloc: Global, args: &[Text]) -> Result<String, AllocError>
    ensures { IfOk result (λ s. string_bytes s ≡ shown_args args.now) }
{
    let args = args_string(alloc, args)?;
    format!(in alloc; "[{args}]")
}

/// The variables in braces.
fn braced_variables(alloc: Global, variables: &[Variable]) -> Result<String, AllocError>
    ensures { IfOk result (λ s. string_bytes s ≡ shown_environment variables.now) }
{
    let variables = variables_string(alloc, variables)?;
    format!(in alloc; "{{{variables}}}")
}

fn shutdown_line(alloc: Global, time: Option<Time>) -> Result<String, AllocError>
    ensures { IfOk result (λ s. string_bytes s ≡ line_if (codes "      shutdown_time") shown_time time) }
{
    match time {
        Some(time) => {
            let time = time_string(alloc, time)?;
            format!(in alloc; "      shutdown_time: {time}\n")
        }
        None => Ok(String::new(alloc)),
    }
}

fn state_string(alloc: Global, state: FinalState) -> Result<String, AllocError>
    ensures { IfOk result (λ s. string_bytes s ≡ shown_state state) }
{
    match state {
        FinalState::Exited(status) => format!(in alloc; "{{exited: {status}}}"),
        FinalState::Signaled(signal) => {
            let name = signal.name();
            format!(in alloc; "{{signaled: {name}}}")
        }
        FinalState::Running => String::from_str(alloc, "running"),
    }
}

/// The lines that end a process, behind that of its shutdown.
#[tactic(auto, unfolding(crate::specs::Shown::end_lines))]
fn end_lines(alloc: Global, shutdown: &str, signal: &str, state: &str) -> Result<String, AllocError>
    ensures { IfOk result (λ s. string_bytes s ≡ end_lines shutdown.now signal.now state.now) }
{
    format!(in alloc;
        "{shutdown}      shutdown_signal: {signal}\n      expected_final_state: {state}\n"
    )
}

fn end_string(alloc: Global, process: &ProcessConfig) -> Result<String, AllocError>
    ensures { IfOk result (λ s. string_bytes s ≡ shown_end process.now) }
{
    let shutdown = shutdown_line(alloc, process.shutdown_time)?;
    let signal = process.shutdown_signal.name();
    let state = state_string(alloc, process.expected_final_state)?;
    end_lines(alloc, shutdown.as_str(), signal, state.as_str())
}

/// The lines of a process, before those that end it.
#[tactic(auto, unfolding(crate::specs::Shown::process_lines))]
fn process_lines(
    alloc: Global,
    path: &str,
    args: &str,
    environment: &str,
    start: &str,
    rest: &str,
) -> Result<String, AllocError>
    ensures { IfOk result (λ s. string_bytes s ≡ process_lines path.now args.now environment.now start.now rest.now) }
{
    format!(in alloc;
        "    - path: {path}\n      args: {args}\n      environment: {environment}\n      start_time: {start}\n{rest}"
    )
}

#[tactic(auto, unfolding(crate::specs::Shown::shown_process))]
fn process_string(alloc: Global, process: &ProcessConfig) -> Result<String, AllocError>
    ensures { IfOk result (λ s. string_bytes s ≡ shown_process process.now) }
{
    let path = quoted(alloc, process.path.as_str())?;
    let args = bracketed_args(alloc, process.args.as_slice())?;
    let environment = braced_variables(alloc, process.environment.as_slice())?;
    let start = time_string(alloc, process.start_time)?;
    let end = end_string(alloc, process)?;
    process_lines(
        alloc,
        path.as_str(),
        args.as_str(),
        environment.as_str(),
        start.as_str(),
        end.as_str(),
    )
}

/// Processes behind the text so far.
fn more_processes(
    alloc: Global,
    before: String,
    processes: &[ProcessConfig],
) -> Result<String, AllocError>
    ensures { IfOk result (λ s. string_bytes s ≡ string_bytes before ++ flat_map shown_process processes.now) }
{
    let mut out = before;
    for process in processes {
        let process = process_string(alloc, process)?;
        write!(out, "{process}")?;
    }
    Ok(out)
}

/// The processes of a host.
pub fn processes_string(alloc: Global, processes: &[ProcessConfig]) -> Result<String, AllocError>
    ensures { IfOk result (λ s. string_bytes s ≡ shown_processes processes.now) }
{
    if processes.is_empty() {
        return String::from_str(alloc, "    processes: []\n");
    }
    let head = String::from_str(alloc, "    processes:\n")?;
    more_processes(alloc, head, processes)
}
