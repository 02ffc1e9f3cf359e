//! Escapes between double quotes.

ghost use Rattle.std.specs.Prelude.{◌≡◌, ◌<◌, ◌++◌, ◌^◌, List, ℕ, [], length, IfSome, IfOk, IsSome};
ghost use Rattle.yaml_tokens.specs.Scalars.{escaped_byte, hex_value, number_step, escape_step, added_bytes, unescaped};
ghost use Rattle.yaml_tokens.specs.inside.Escapes.{IsInRange};
ghost use Rattle.yaml_tokens.specs.declared.escapes.Escape.TheVariants.{Outside};

use crate::scalar::Scalar;
use sim_base::NoMemory;
use std::alloc::Global;

/// Where a reader of escapes is.
#[derive(Clone, Copy)]
pub enum Escape {
    Outside,
    /// Behind a backslash.
    Behind,
    /// Before this many more digits of a number, and the number so far.
    Digits(u32, u32),
}

/// What a byte adds to the text.
#[derive(Clone, Copy)]
pub enum Added {
    Nothing,
    Byte(u8),
    Character(char),
}

fn escaped_byte(b: u8) -> Option<u8>
    ensures { result ≡ escaped_byte b }
{
    match b {
        b'"' | b'\\' | b'/' => Some(b),
        b'n' => Some(b'\n'),
        b'r' => Some(b'\r'),
        b't' => Some(b'\t'),
        b'0' => Some(0),
        _ => None,
    }
}

fn hex_value(b: u8) -> Option<u32>
    ensures value { result ≡ hex_value b }
    ensures small { IfSome result (λ d. d < 16) }
{
    match b {
        b'0'..=b'9' => Some(u32::from(b - b'0')),
        b'A'..=b'F' => Some(u32::from(b - b'A') + 10),
        b'a'..=b'f' => Some(u32::from(b - b'a') + 10),
        _ => None,
    }
}

/// The step at a digit, with the number that it makes.
fn number_step(left: u32, number: u32) -> Option<(Escape, Added)>
    requires { number < 2 ^ 16 }
    ensures { result ≡ number_step left number }
{
    if left > 1 {
        return Some((Escape::Digits(left - 1, number), Added::Nothing));
    }
    let c = char::from_u32(number)?;
    Some((Escape::Outside, Added::Character(c)))
}

/// Where the reader is after a byte more, and what the byte adds.
fn escape_step(place: Escape, b: u8) -> Option<(Escape, Added)>
    requires { IsInRange place }
    ensures value { result ≡ escape_step place b }
    ensures range { IfSome result (λ s. IsInRange s.0) }
{
    match place {
        Escape::Outside => {
            if b == b'\\' {
                Some((Escape::Behind, Added::Nothing))
            } else {
                Some((Escape::Outside, Added::Byte(b)))
            }
        }
        Escape::Behind => match b {
            b'x' => Some((Escape::Digits(2, 0), Added::Nothing)),
            b'u' => Some((Escape::Digits(4, 0), Added::Nothing)),
            _ => {
                let c = escaped_byte(b)?;
                Some((Escape::Outside, Added::Byte(c)))
            }
        },
        Escape::Digits(left, number) => {
            let digit = hex_value(b)?;
            number_step(left, number * 16 + digit)
        }
    }
}

fn add(text: &mut Vec<u8>, added: Added) -> Result<(), NoMemory>
    ensures { IfOk result (λ _. text.new.items ≡ text.old.items ++ added_bytes added) }
{
    match added {
        Added::Nothing => Ok(()),
        Added::Byte(b) => {
            text.push(b)?;
            Ok(())
        }
        Added::Character(c) => {
            let mut buffer = [0; 4];
            let encoded = c.encode_utf8(&mut buffer);
            text.extend_from_slice(encoded.as_bytes())?;
            Ok(())
        }
    }
}

/// The text that the bytes between double quotes spell.
pub(crate) fn unescaped(alloc: Global, bytes: &[u8]) -> Result<Option<Scalar>, NoMemory>
    ensures { IfOk result (λ text. text ≡ unescaped Outside bytes.now) }
{
    let mut text = Vec::new(alloc);
    let mut place = Escape::Outside;
    for b in bytes {
        let Some((next, added)) = escape_step(place, *b) else {
            return Ok(None);
        };
        place = next;
        add(&mut text, added)?;
    }
    match place {
        Escape::Outside => Ok(Some(Scalar::from_vec(text)?)),
        _ => Ok(None),
    }
}
