//! The values of options.

ghost use Rattle.std.specs.Prelude.{◌≡◌};
ghost use Rattle.std.specs.Char.{is_ascii_digit};
ghost use Rattle.std.specs.List.{list_all};
ghost use Rattle.command_line.specs.Asked.{if_within, is_decimal, number_within, stop_time_of};

use base_texts::read_time;
use sim_base::Time;

/// The latest stop time.
const LATEST_STOP: u64 = 1 << 61;

fn all_digits(text: &str) -> bool
    ensures { result ≡ list_all is_ascii_digit text.now }
{
    text.as_bytes().iter().all(|b| b.is_ascii_digit())
}

fn is_decimal(text: &str) -> bool
    ensures { result ≡ is_decimal text.now }
{
    if text.is_empty() {
        return false;
    }
    all_digits(text)
}

fn if_within(n: u32, least: u32, most: u32) -> Option<u32>
    ensures { result ≡ if_within least most n }
{
    if least <= n && n <= most {
        Some(n)
    } else {
        None
    }
}

/// A number from `least` to `most`, in decimal digits.
pub fn number(text: &str, least: u32, most: u32) -> Option<u32>
    ensures { result ≡ number_within least most text.now }
{
    if !is_decimal(text) {
        return None;
    }
    match text.parse::<u32>() {
        Ok(n) => if_within(n, least, most),
        Err(_) => None,
    }
}

/// A time from 1 ns to 2^61 ns.
pub fn stop_time(text: &str) -> Option<Time>
    ensures { result ≡ stop_time_of text.now }
{
    match read_time(text) {
        Some(time) if 1 <= time.nanos && time.nanos <= LATEST_STOP => Some(time),
        _ => None,
    }
}
