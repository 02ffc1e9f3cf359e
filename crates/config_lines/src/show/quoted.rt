//! Texts in double quotes.

ghost use Rattle.std.specs.Prelude.{◌≡◌, ◌<◌, ◌++◌, ◌==◌, ◌||◌, nat_lt, if◌then◌else◌, encode_utf8, string_bytes, IfOk, OnOk};
ghost use Rattle.sim_base.specs.Ascii.{space, delete};
ghost use Rattle.config_lines.specs.Quoted.{hex_digit, hex_escape, escaped, quoted};

use std::alloc::{AllocError, Global};

/// A digit of base 16, in upper case.
fn hex_digit(digit: u8) -> char
    requires { digit < 16 }
    ensures { result ≡ hex_digit digit }
{
    if digit < 10 {
        char::from(b'0' + digit)
    } else {
        char::from(b'A' + (digit - 10))
    }
}

/// Adds a character that has no escape of its own.
fn escape_other(out: &mut String, character: char) -> Result<(), AllocError>
    ensures { OnOk result (string_bytes out.new ≡ string_bytes out.old
        ++ (if nat_lt character space || character == delete then hex_escape character else encode_utf8 character)) }
{
    let code = character as u32;
    if code < 32 || code == 127 {
        let code = code as u8;
        out.push_str("\\x")?;
        out.push(hex_digit(code / 16))?;
        return out.push(hex_digit(code % 16));
    }
    out.push(character)
}

/// Adds a character as it stands between double quotes.
fn escape(out: &mut String, character: char) -> Result<(), AllocError>
    ensures { OnOk result (string_bytes out.new ≡ string_bytes out.old ++ escaped character) }
{
    match character {
        '"' => out.push_str("\\\""),
        '\\' => out.push_str("\\\\"),
        '\n' => out.push_str("\\n"),
        '\r' => out.push_str("\\r"),
        '\t' => out.push_str("\\t"),
        _ => escape_other(out, character),
    }
}

/// A text between double quotes.
#[tactic(auto, unfolding(crate::specs::Quoted::quoted))]
pub fn quoted(alloc: Global, text: &str) -> Result<String, AllocError>
    ensures { IfOk result (λ s. string_bytes s ≡ quoted text.now) }
{
    let mut out = String::from_str(alloc, "\"")?;
    for character in text.chars() {
        escape(&mut out, character)?;
    }
    out.push_str("\"")?;
    Ok(out)
}
