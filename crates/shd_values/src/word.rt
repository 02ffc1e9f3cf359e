//! Words with a meaning of their own.

ghost use Rattle.std.specs.Prelude.{◌≡◌, find};
ghost use Rattle.std.specs.List.{list_all};
ghost use Rattle.std.specs.Str.{bytes_eq};
ghost use Rattle.sim_base.specs.Signal.{signal_name};
ghost use Rattle.shd_values.specs.Word.{signal_of, truth_of, is_name_byte, is_name_of_host, names_program};

use sim_base::Signal;

/// The signals that end a process.
const SIGNALS: [Signal; 16] = [
    Signal::SigHup,
    Signal::SigInt,
    Signal::SigQuit,
    Signal::SigIll,
    Signal::SigTrap,
    Signal::SigAbrt,
    Signal::SigBus,
    Signal::SigFpe,
    Signal::SigKill,
    Signal::SigUsr1,
    Signal::SigSegv,
    Signal::SigUsr2,
    Signal::SigPipe,
    Signal::SigAlrm,
    Signal::SigTerm,
    Signal::SigXcpu,
];

/// The first of these signals that has a name.
fn find_signal(signals: &[Signal], name: &str) -> Option<Signal>
    ensures { result ≡ find (λ s. bytes_eq (signal_name s) name.now) signals.now }
{
    for signal in signals {
        if signal.name() == name {
            return Some(*signal);
        }
    }
    None
}

/// Reads the name of a signal in upper case, as `SIGTERM`.
pub fn read_signal(text: &str) -> Option<Signal>
    ensures { result ≡ signal_of text.now }
{
    find_signal(&SIGNALS, text)
}

/// Reads a truth value: `true` or `false`, in lower case, capitalised or in upper case.
pub fn read_truth(text: &str) -> Option<bool>
    ensures { result ≡ truth_of text.now }
{
    if text == "true" || text == "True" || text == "TRUE" {
        Some(true)
    } else if text == "false" || text == "False" || text == "FALSE" {
        Some(false)
    } else {
        None
    }
}

fn is_name_byte(byte: u8) -> bool
    ensures { result ≡ is_name_byte byte }
{
    byte.is_ascii_alphanumeric() || byte == b'-' || byte == b'_' || byte == b'.'
}

fn are_name_bytes(bytes: &[u8]) -> bool
    ensures { result ≡ list_all is_name_byte bytes.now }
{
    bytes.iter().all(|b| is_name_byte(*b))
}

/// Whether a text is a host's name: 1 to 63 letters, digits, `-`, `_` and `.`, the first of them a
/// letter or a digit.
pub fn is_host_name(text: &str) -> bool
    ensures { result ≡ is_name_of_host text.now }
{
    match text.as_bytes() {
        [] => false,
        [first, rest @ ..] => {
            first.is_ascii_alphanumeric() && rest.len() < 63 && are_name_bytes(rest)
        }
    }
}

/// Whether the last part of a path, behind its last `/`, isn't empty.
pub fn has_program(path: &str) -> bool
    ensures { result ≡ names_program path.now }
{
    match path.as_bytes() {
        [] => false,
        [.., last] => *last != b'/',
    }
}
