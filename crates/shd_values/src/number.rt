//! Whole numbers, and sizes in bytes.

ghost use Rattle.std.specs.Prelude.{◌≡◌, ◌+◌, ◌*◌, ◌<◌, ◌≤◌, ◌^◌, ◌==◌, ℕ, length};
ghost use Rattle.std.specs.Char.{digit_value, is_ascii_digit, IsAsciiDigit};
ghost use Rattle.std.specs.List.{prefix_len, list_all};
ghost use Rattle.std.specs.Option.{SomeIff};
ghost use Rattle.std.specs.Str.Parse.{AllDigits, digits_value};
ghost use Rattle.sim_base.specs.Ascii.{space};
ghost use Rattle.shd_values.specs.Number.{digits_number, number_of, size_unit, size_of};

/// A number with one more digit behind it, if it fits 128 bits.
fn with_digit(number: u128, digit: u8) -> Option<u128>
    requires { IsAsciiDigit digit }
    ensures { SomeIff result (number * 10 + digit_value digit < 2 ^ 128) (number * 10 + digit_value digit) }
{
    number
        .checked_mul(10)?
        .checked_add(u128::from(digit - b'0'))
}

/// The number that decimal digits write, if it fits 128 bits.
fn number(digits: &[u8]) -> Option<u128>
    requires { AllDigits 10 digits.now }
    ensures { SomeIff result (digits_value 10 digits.now < 2 ^ 128) (digits_value 10 digits.now) }
{
    let mut value = 0;
    for digit in digits {
        value = with_digit(value, *digit)?;
    }
    Some(value)
}

fn digits_len(text: &[u8]) -> usize
    ensures len { result ≡ prefix_len is_ascii_digit text.now }
    ensures within { result ≤ length text.now }
{
    text.iter().take_while(|b| b.is_ascii_digit()).count()
}

fn spaces_len(text: &[u8]) -> usize
    ensures len { result ≡ prefix_len (λ c. c == space) text.now }
    ensures within { result ≤ length text.now }
{
    text.iter().take_while(|b| **b == b' ').count()
}

/// The number of the digits that a text begins with, of which there is one at least.
fn leading_number(text: &[u8]) -> Option<u128>
    ensures { result ≡ digits_number text.now }
{
    let (digits, _) = text.split_at(digits_len(text));
    if digits.is_empty() {
        return None;
    }
    number(digits)
}

/// The number that bytes write, if all of them are digits.
pub(crate) fn whole_number(bytes: &[u8]) -> Option<u128>
    ensures { result ≡ number_of bytes.now }
{
    if digits_len(bytes) < bytes.len() {
        return None;
    }
    leading_number(bytes)
}

/// Reads a whole number: decimal digits, which may begin with zeros. There is none where the text is
/// something else or passes 128 bits.
pub fn read_number(text: &str) -> Option<u128>
    ensures { result ≡ number_of text.now }
{
    whole_number(text.as_bytes())
}

/// The bytes that a unit of sizes stands for.
fn unit(name: &[u8]) -> Option<u128>
    ensures { result ≡ size_unit name.now }
{
    if name == b"".as_slice() || name == b"B".as_slice() {
        Some(1)
    } else if name == b"kB".as_slice() {
        Some(1000)
    } else if name == b"KiB".as_slice() {
        Some(1024)
    } else {
        None
    }
}

/// Reads a size in bytes: a whole number, spaces, and `B`, `kB`, `KiB` or none, which is bytes. There
/// is none where the text is something else or passes 128 bits.
pub fn read_size(text: &str) -> Option<u128>
    ensures { result ≡ size_of text.now }
{
    let bytes = text.as_bytes();
    let (_, behind) = bytes.split_at(digits_len(bytes));
    let (_, name) = behind.split_at(spaces_len(behind));
    let number = leading_number(bytes)?;
    let factor = unit(name)?;
    number.checked_mul(factor)
}
