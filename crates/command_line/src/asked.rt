//! What a command line asks for.

ghost use Rattle.std.specs.Prelude.{◌≡◌, ◌-◌, ◌^◌, map, string_bytes, option_map};
ghost use Rattle.clap.specs.Words.{found_of, rows_of};
ghost use Rattle.command_line.specs.Asked.{asked, chosen, choice_of, subject_of, data_directory_of, stop_of, read_option, number_within, Meets};
ghost use Rattle.command_line.specs.Command.{value_of};

use crate::fault::{WordsError, WordsFault};
use crate::name::OptionName;
use crate::{command, value};
use base_texts::Name;
use clap::ArgMatches;
use sim_base::Time;
use std::alloc::Global;

/// The instructions that a guest may run from one call to the next, where no budget is given.
const DEFAULT_BUDGET: u32 = 10_000_000;

const MOST_BUDGET: u32 = 1_000_000_000;

/// The most hosts of a self-load.
const MOST_HOSTS: u32 = 4096;

/// What is to be read.
#[derive(Drop)]
pub enum Subject {
    /// A configuration; `-` is standard input.
    File(Name),
    /// The configuration that is made for so many hosts.
    SelfLoad(u32),
    /// A capture; `-` is standard input.
    Capture(Name),
}

/// What a command line asks for.
#[derive(Drop)]
pub struct Asked {
    pub subject: Subject,
    pub seed: Option<u32>,
    pub parallelism: Option<u32>,
    /// Not empty.
    pub data_directory: Option<Name>,
    /// From 1 ns to 2^61 ns.
    pub stop_time: Option<Time>,
    /// From 1 to 10^9.
    pub budget: u32,
    /// What became of each connection is told at the end of a run.
    pub streams: bool,
    /// The configuration is shown, and nothing is run.
    pub shows_config: bool,
}

/// What is to be read, as it is written.
#[derive(Clone, Copy)]
enum Choice<'a> {
    Config(&'a str),
    SelfLoad(&'a str),
    Capture(&'a str),
}

/// Exactly one of a configuration's name, a self-load's size and a capture's name.
fn choose<'a>(
    config: Option<&'a str>,
    self_load: Option<&'a str>,
    capture: Option<&'a str>,
) -> Result<Choice<'a>, WordsError>
    ensures { Meets choice_of (chosen (option_map (λ s. s.now) config.entry) (option_map (λ s. s.now) self_load.entry) (option_map (λ s. s.now) capture.entry)) result }
{
    match (config, self_load, capture) {
        (Some(name), None, None) => Ok(Choice::Config(name)),
        (None, Some(size), None) => Ok(Choice::SelfLoad(size)),
        (None, None, Some(name)) => Ok(Choice::Capture(name)),
        _ => Err(WordsError::Refused(WordsFault::Usage)),
    }
}

fn bad(name: OptionName) -> WordsError
    ensures { result ≡ WordsError.Refused (WordsFault.BadOption name) }
{
    WordsError::Refused(WordsFault::BadOption(name))
}

/// The number that an option gives, from `least` to `most`.
fn number_option(
    matches: &ArgMatches<'_>,
    name: OptionName,
    least: u32,
    most: u32,
) -> Result<Option<u32>, WordsError>
    ensures { Meets (λ n. n) (read_option name (number_within least most) (value_of name (rows_of (found_of matches.now)))) result }
{
    let Some(text) = command::value(matches, name) else {
        return Ok(None);
    };
    match value::number(text, least, most) {
        Some(n) => Ok(Some(n)),
        None => Err(bad(name)),
    }
}

fn read_data_directory(alloc: Global, matches: &ArgMatches<'_>) -> Result<Option<Name>, WordsError>
    ensures { Meets (λ d. d) (data_directory_of (rows_of (found_of matches.now))) result }
{
    let Some(text) = command::value(matches, OptionName::DataDirectory) else {
        return Ok(None);
    };
    if text.is_empty() {
        return Err(bad(OptionName::DataDirectory));
    }
    let name = Name::from_str(alloc, text)?;
    Ok(Some(name))
}

fn read_stop_time(matches: &ArgMatches<'_>) -> Result<Option<Time>, WordsError>
    ensures { Meets (λ t. t) (stop_of (rows_of (found_of matches.now))) result }
{
    let Some(text) = command::value(matches, OptionName::StopTime) else {
        return Ok(None);
    };
    match value::stop_time(text) {
        Some(time) => Ok(Some(time)),
        None => Err(bad(OptionName::StopTime)),
    }
}

fn read_subject(alloc: Global, choice: Choice<'_>) -> Result<Subject, WordsError>
    ensures { Meets (λ s. s) (subject_of (choice_of choice.entry)) result }
{
    match choice {
        Choice::Config(name) => {
            let name = Name::from_str(alloc, name)?;
            Ok(Subject::File(name))
        }
        Choice::SelfLoad(size) => match value::number(size, 2, MOST_HOSTS) {
            Some(hosts) => Ok(Subject::SelfLoad(hosts)),
            None => Err(bad(OptionName::SelfLoad)),
        },
        Choice::Capture(name) => {
            let name = Name::from_str(alloc, name)?;
            Ok(Subject::Capture(name))
        }
    }
}

/// What the words ask for; the first of them is the program's name. The faults come in this order:
/// the words, what is to be read, and the values of seed, parallelism, data directory, stop time,
/// budget and self-load.
#[tactic(auto, unfolding(crate::specs::Asked::asked))]
pub fn read_words(alloc: Global, words: &[String]) -> Result<Asked, WordsError>
    ensures { Meets (λ a. a) (asked (map string_bytes words.now)) result }
{
    let matches = command::find(alloc, words)?;
    let config = command::config(&matches);
    let self_load = command::value(&matches, OptionName::SelfLoad);
    let capture = command::value(&matches, OptionName::ReadCapture);
    let choice = choose(config, self_load, capture)?;
    let seed = number_option(&matches, OptionName::Seed, 0, u32::MAX)?;
    let parallelism = number_option(&matches, OptionName::Parallelism, 0, u32::MAX)?;
    let data_directory = read_data_directory(alloc, &matches)?;
    let stop_time = read_stop_time(&matches)?;
    let budget = number_option(&matches, OptionName::Budget, 1, MOST_BUDGET)?;
    let subject = read_subject(alloc, choice)?;
    Ok(Asked {
        subject,
        seed,
        parallelism,
        data_directory,
        stop_time,
        budget: budget.unwrap_or(DEFAULT_BUDGET),
        streams: command::is_given(&matches, "streams"),
        shows_config: command::is_given(&matches, "show-config"),
    })
}
