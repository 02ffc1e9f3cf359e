//! Numbers: an optional sign, digits with an optional point, an optional exponent.

ghost use Rattle.std.specs.Prelude.{◌≡◌, ◌+◌, ◌*◌, ◌/◌, ◌^◌, ◌<◌, ◌≤◌, length, true, Some, None, if◌then◌else◌, nat_le, IfSome};
ghost use Rattle.std.specs.List.{list_all, prefix_len};
ghost use Rattle.std.specs.Char.{is_ascii_digit};
ghost use Rattle.gml_graph.specs.Number.{decimal, begins_with, is_minus, after_sign, digits, after_digits, fraction, after_fraction, is_power, exponent, natural_after, natural, is_part, units};

/// The most digits of a number before its exponent.
const MOST_DIGITS: usize = 36;

/// The most digits of an exponent.
const MOST_EXPONENT_DIGITS: usize = 4;

/// A number: `digits` times 10^`up` over 10^`down`, below 0 where it is negative.
#[derive(Clone, Copy)]
pub struct Decimal {
    pub digits: u128,
    pub up: u32,
    pub down: u32,
    pub negative: bool,
    /// Whether it was written without a point and without an exponent.
    pub is_whole: bool,
}

/// The power of ten behind a number's `e`.
#[derive(Clone, Copy)]
pub struct Exponent {
    pub negative: bool,
    pub size: u32,
}

fn is_negative(bytes: &[u8]) -> bool
    ensures { result ≡ begins_with is_minus bytes.now }
{
    matches!(bytes, [b'-', ..])
}

fn without_sign(bytes: &[u8]) -> &[u8]
    ensures { result.now ≡ after_sign bytes.now }
{
    match bytes {
        [b'+' | b'-', rest @ ..] => rest,
        _ => bytes,
    }
}

/// How many digits stand at the front.
fn count_digits(bytes: &[u8]) -> usize
    ensures value { result ≡ prefix_len is_ascii_digit bytes.now }
    ensures within { result ≤ length bytes.now }
{
    let mut count = 0;
    while count < bytes.len() && bytes[count].is_ascii_digit() {
        count += 1;
    }
    count
}

/// The digits at the front, and what stands behind them.
fn split_digits(bytes: &[u8]) -> (&[u8], &[u8])
    ensures front { result.0.now ≡ digits bytes.now }
    ensures back { result.1.now ≡ after_digits bytes.now }
    ensures all { list_all is_ascii_digit result.0.now ≡ true }
{
    let count = count_digits(bytes);
    bytes.split_at(count)
}

/// The digits behind a point, if there is one, and what stands behind them.
fn split_fraction(bytes: &[u8]) -> (&[u8], &[u8])
    ensures front { result.0.now ≡ fraction bytes.now }
    ensures back { result.1.now ≡ after_fraction bytes.now }
    ensures all { list_all is_ascii_digit result.0.now ≡ true }
{
    match bytes {
        [b'.', rest @ ..] => split_digits(rest),
        _ => (&[], bytes),
    }
}

/// The number that digits spell behind those of `start`.
fn append_digits(start: u128, digits: &[u8]) -> u128
    requires digits { list_all is_ascii_digit digits.now ≡ true }
    requires room { (start + 1) * 10 ^ length digits.now ≤ 10 ^ MOST_DIGITS }
    ensures value { result ≡ natural_after start digits.now }
    ensures below { result + 1 ≤ (start + 1) * 10 ^ length digits.now }
{
    let mut number = start;
    for digit in digits {
        number = 10 * number + u128::from(*digit - b'0');
    }
    number
}

fn are_digits(bytes: &[u8]) -> bool
    ensures { result ≡ list_all is_ascii_digit bytes.now }
{
    bytes.iter().all(|b| b.is_ascii_digit())
}

fn is_power_of_ten(bytes: &[u8]) -> bool
    ensures { result ≡ is_power bytes.now }
{
    let count = bytes.len();
    if count == 0 || count > MOST_EXPONENT_DIGITS {
        return false;
    }
    are_digits(bytes)
}

/// The exponent that all of the bytes spell; no bytes spell 0.
fn exponent_of(bytes: &[u8]) -> Option<Exponent>
    ensures value { result ≡ exponent bytes.now }
    ensures small { IfSome result (λ e. e.size < 10 ^ MOST_EXPONENT_DIGITS) }
{
    match bytes {
        [] => Some(Exponent {
            negative: false,
            size: 0,
        }),
        [b'e' | b'E', rest @ ..] => {
            let power = without_sign(rest);
            if !is_power_of_ten(power) {
                return None;
            }
            Some(Exponent {
                negative: is_negative(rest),
                size: append_digits(0, power) as u32,
            })
        }
        _ => None,
    }
}

/// The number that all bytes of a word spell.
#[tactic(auto, unfolding(crate::specs::Number::decimal))]
pub fn read_decimal(word: &[u8]) -> Option<Decimal>
    ensures { result ≡ decimal word.now }
{
    let (whole, rest) = split_digits(without_sign(word));
    let (part, behind) = split_fraction(rest);
    let count = whole.len() + part.len();
    if count == 0 || count > MOST_DIGITS {
        return None;
    }
    let exponent = exponent_of(behind)?;
    let (up, down) = if exponent.negative {
        (0, exponent.size)
    } else {
        (exponent.size, 0)
    };
    Some(Decimal {
        negative: is_negative(word),
        digits: append_digits(append_digits(0, whole), part),
        up,
        down: part.len() as u32 + down,
        is_whole: rest.is_empty(),
    })
}

impl Decimal {
    /// The natural number, where it is one and was written as one.
    pub fn natural(&self) -> Option<u128>
        ensures { result ≡ natural self.now }
    {
        if self.is_whole && (self.digits == 0 || !self.negative) {
            Some(self.digits)
        } else {
            None
        }
    }

    /// The number of whole units of 10^-9, where it is from 0 to 1.
    pub fn units(&self) -> Option<u32>
        ensures { result ≡ (if is_part self.now then Some (units self.now) else None) }
    {
        if self.digits == 0 {
            return Some(0);
        }
        if self.negative {
            return None;
        }
        if self.down < self.up {
            return None;
        }
        let places = self.down - self.up;
        if !is_at_most_power(self.digits, places) {
            return None;
        }
        Some(units_of(self.digits, places))
    }
}

/// The greatest power of ten that fits.
const GREATEST_POWER: u32 = 38;

fn is_at_most_power(digits: u128, places: u32) -> bool
    ensures { result ≡ nat_le digits (10 ^ places) }
{
    if places > GREATEST_POWER {
        return true;
    }
    digits <= 10u128.pow(places)
}

/// The number of whole units of 10^-9 in `digits` over 10^`places`.
fn units_of(digits: u128, places: u32) -> u32
    requires { digits ≤ 10 ^ places }
    ensures { result ≡ digits * 10 ^ 9 / 10 ^ places }
{
    if places <= 9 {
        return (digits * 10u128.pow(9 - places)) as u32;
    }
    if places - 9 > GREATEST_POWER {
        return 0;
    }
    (digits / 10u128.pow(places - 9)) as u32
}
