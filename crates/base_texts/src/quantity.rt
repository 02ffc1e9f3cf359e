//! Times and rates as texts: a number and a unit, as `10 ms` and `1 Gbit`.

ghost use Rattle.std.specs.Prelude.{◌≡◌, ◌+◌, ◌*◌, ◌<◌, ◌≤◌, ◌^◌, ◌==◌, ℕ, length, option_map};
ghost use Rattle.std.specs.Char.{digit_value, is_ascii_digit};
ghost use Rattle.std.specs.Int.{IsInRange};
ghost use Rattle.std.specs.List.{prefix_len};
ghost use Rattle.std.specs.Option.{SomeIff};
ghost use Rattle.std.specs.Str.Parse.{AllDigits, digits_value};
ghost use Rattle.sim_base.specs.Ascii.{space, digit_0, digit_9};
ghost use Rattle.base_texts.specs.Quantity.{factor_in, quantity, table, same_name, time_of_text, rate_of_text};

use sim_base::Time;

/// How names of units are compared.
#[derive(Clone, Copy)]
enum Letters {
    AsWritten,
    InEitherCase,
}

/// The names of units of time, with their nanoseconds. Without a name it is seconds.
const TIME_UNITS: [(&[u8], u64); 26] = [
    (b"", 1_000_000_000),
    (b"ns", 1),
    (b"nanosecond", 1),
    (b"nanoseconds", 1),
    (b"us", 1_000),
    (b"\xce\xbcs", 1_000),
    (b"microsecond", 1_000),
    (b"microseconds", 1_000),
    (b"ms", 1_000_000),
    (b"millisecond", 1_000_000),
    (b"milliseconds", 1_000_000),
    (b"s", 1_000_000_000),
    (b"sec", 1_000_000_000),
    (b"secs", 1_000_000_000),
    (b"second", 1_000_000_000),
    (b"seconds", 1_000_000_000),
    (b"m", 60_000_000_000),
    (b"min", 60_000_000_000),
    (b"mins", 60_000_000_000),
    (b"minute", 60_000_000_000),
    (b"minutes", 60_000_000_000),
    (b"h", 3_600_000_000_000),
    (b"hr", 3_600_000_000_000),
    (b"hrs", 3_600_000_000_000),
    (b"hour", 3_600_000_000_000),
    (b"hours", 3_600_000_000_000),
];

/// The names of units of rate, with their bits a second. Without a name it is bits.
const RATE_UNITS: [(&[u8], u64); 14] = [
    (b"", 1),
    (b"bit", 1),
    (b"kbit", 1_000),
    (b"kilobit", 1_000),
    (b"mbit", 1_000_000),
    (b"megabit", 1_000_000),
    (b"gbit", 1_000_000_000),
    (b"gigabit", 1_000_000_000),
    (b"kibit", 1_024),
    (b"kibibit", 1_024),
    (b"mibit", 1_048_576),
    (b"mebibit", 1_048_576),
    (b"gibit", 1_073_741_824),
    (b"gibibit", 1_073_741_824),
];

fn digits_len(text: &[u8]) -> usize
    ensures len { result ≡ prefix_len is_ascii_digit text.now }
    ensures within { result ≤ length text.now }
{
    text.iter().take_while(|b| b.is_ascii_digit()).count()
}

fn spaces_len(text: &[u8]) -> usize
    ensures len { result ≡ prefix_len (λ c. c == space) text.now }
    ensures within { result ≤ length text.now }
{
    text.iter().take_while(|b| **b == b' ').count()
}

/// A number with one more digit behind it, if it fits 64 bits.
fn with_digit(number: u64, digit: u8) -> Option<u64>
    requires { IsInRange digit_0 digit_9 digit }
    ensures { SomeIff result (number * 10 + digit_value digit < 2 ^ 64) (number * 10 + digit_value digit) }
{
    number.checked_mul(10)?.checked_add(u64::from(digit - b'0'))
}

/// The number that decimal digits write, if it fits 64 bits.
fn number(digits: &[u8]) -> Option<u64>
    requires { AllDigits 10 digits.now }
    ensures { SomeIff result (digits_value 10 digits.now < 2 ^ 64) (digits_value 10 digits.now) }
{
    let mut value = 0;
    for digit in digits {
        value = with_digit(value, *digit)?;
    }
    Some(value)
}

fn is_same(name: &[u8], unit: &[u8], letters: Letters) -> bool
    ensures { result ≡ same_name letters name.now unit.now }
{
    match letters {
        Letters::AsWritten => name == unit,
        Letters::InEitherCase => name.eq_ignore_ascii_case(unit),
    }
}

/// The factor of a unit, if the table has its name.
fn factor(units: &[(&[u8], u64)], letters: Letters, unit: &[u8]) -> Option<u64>
    ensures { result ≡ factor_in (same_name letters) (table units.now) unit.now }
{
    for (name, factor) in units {
        if is_same(name, unit, letters) {
            return Some(*factor);
        }
    }
    None
}

/// A number of units, if the text is one and fits 64 bits.
fn read_quantity(units: &[(&[u8], u64)], letters: Letters, text: &[u8]) -> Option<u64>
    ensures { result ≡ quantity (same_name letters) (table units.now) text.now }
{
    let (digits, behind) = text.split_at(digits_len(text));
    if digits.is_empty() {
        return None;
    }
    let (_, unit) = behind.split_at(spaces_len(behind));
    let number = number(digits)?;
    let factor = factor(units, letters, unit)?;
    number.checked_mul(factor)
}

/// Reads a time: a whole number, spaces, and `ns`, `us`, `μs`, `ms`, `s`, `m`, `h` or one of their
/// longer names. Without a unit it is seconds. There is none where the text is something else or
/// passes 64 bits of nanoseconds.
pub fn read_time(text: &str) -> Option<Time>
    ensures { option_map (λ t. t.nanos) result ≡ time_of_text text.now }
{
    let nanos = read_quantity(&TIME_UNITS, Letters::AsWritten, text.as_bytes())?;
    Some(Time { nanos })
}

/// Reads a rate in bits a second: a whole number, spaces, and in letters of either case `bit`,
/// `kbit`, `Mbit`, `Gbit`, `Kibit`, `Mibit`, `Gibit` or one of their longer names. Without a unit
/// it is bits. There is none where the text is something else or passes 64 bits.
pub fn read_rate(text: &str) -> Option<u64>
    ensures { result ≡ rate_of_text text.now }
{
    read_quantity(&RATE_UNITS, Letters::InEitherCase, text.as_bytes())
}
