//! The command as clap reads it.

ghost use Rattle.std.specs.Prelude.{◌≡◌, false, IfOk, map, string_bytes, option_map};
ghost use Rattle.clap.specs.Words.{app_of, found_of, rows_of, rule_of};
ghost use Rattle.command_line.specs.Asked.{Meets};
ghost use Rattle.command_line.specs.Command.{shadow_command, option_rule, short_option_rule, flag_rule, config_rule, found, value_of, config_of, is_given};

use crate::fault::{WordsError, WordsFault};
use crate::name::OptionName;
use clap::error::ErrorKind;
use clap::{Arg, ArgAction, ArgMatches, Command};
use std::alloc::{AllocError, Global};

/// An option by its long name, with a value.
fn option<'a>(alloc: Global, name: &'a str) -> Arg<'a>
    ensures rule { rule_of result ≡ option_rule name.entry.now }
    ensures local { result.global ≡ false }
{
    Arg::new(alloc, name).long(name).action(ArgAction::Set)
}

/// An option by its long name or a letter, with a value.
fn short_option<'a>(alloc: Global, letter: char, name: &'a str) -> Arg<'a>
    ensures rule { rule_of result ≡ short_option_rule letter name.entry.now }
    ensures local { result.global ≡ false }
{
    option(alloc, name).short(letter)
}

/// A flag by its long name.
fn flag<'a>(alloc: Global, name: &'a str) -> Arg<'a>
    ensures rule { rule_of result ≡ flag_rule name.entry.now }
    ensures local { result.global ≡ false }
{
    Arg::new(alloc, name).long(name).action(ArgAction::SetTrue)
}

fn config_word<'a>(alloc: Global) -> Arg<'a>
    ensures rule { rule_of result ≡ config_rule }
    ensures local { result.global ≡ false }
{
    Arg::new(alloc, "CONFIG").action(ArgAction::Set)
}

fn command<'a>(alloc: Global) -> Result<Command<'a>, AllocError>
    ensures { IfOk result (λ c. app_of c ≡ shadow_command) }
{
    // Each is made where it is taken, so that no other one is held where memory lacks.
    let seed = option(alloc, "seed");
    let one = Command::new(alloc, "shadow").arg(seed)?;
    let parallelism = short_option(alloc, 'p', "parallelism");
    let two = one.arg(parallelism)?;
    let data_directory = short_option(alloc, 'd', "data-directory");
    let three = two.arg(data_directory)?;
    let stop_time = option(alloc, "stop-time");
    let four = three.arg(stop_time)?;
    let budget = option(alloc, "budget");
    let five = four.arg(budget)?;
    let self_load = option(alloc, "self-load");
    let six = five.arg(self_load)?;
    let streams = flag(alloc, "streams");
    let seven = six.arg(streams)?;
    let read_capture = option(alloc, "read-capture");
    let eight = seven.arg(read_capture)?;
    let show_config = flag(alloc, "show-config");
    let nine = eight.arg(show_config)?;
    let config_word = config_word(alloc);
    nine.arg(config_word)
}

/// What clap finds in the words.
pub fn find<'a>(alloc: Global, words: &'a [String]) -> Result<ArgMatches<'a>, WordsError>
    ensures { Meets (λ m. rows_of (found_of m)) (found (map string_bytes words.now)) result }
{
    let command = command(alloc)?;
    match command.try_get_matches_from(words) {
        Ok(matches) => Ok(matches),
        Err(error) => match error.kind() {
            ErrorKind::OutOfMemory => Err(WordsError::NoMemory),
            _ => Err(WordsError::Refused(WordsFault::Usage)),
        },
    }
}

/// The value of an option, if it is given.
pub fn value<'a>(matches: &ArgMatches<'a>, name: OptionName) -> Option<&'a str>
    ensures { option_map (λ s. s.now) result ≡ value_of name (rows_of (found_of matches.now)) }
{
    matches.get_str(name.text())
}

/// The configuration's name, if it is given.
pub fn config<'a>(matches: &ArgMatches<'a>) -> Option<&'a str>
    ensures { option_map (λ s. s.now) result ≡ config_of (rows_of (found_of matches.now)) }
{
    matches.get_str("CONFIG")
}

/// Whether the flag of this name is given.
pub fn is_given(matches: &ArgMatches<'_>, name: &str) -> bool
    ensures { result ≡ is_given name.now (rows_of (found_of matches.now)) }
{
    match matches.get_str(name) {
        Some(text) => text == "true",
        None => false,
    }
}
