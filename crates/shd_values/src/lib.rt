//! The values of a configuration as texts: numbers, sizes, truth values, addresses, signals, names
//! of hosts and the words of a command line. The grammars are this project's own profile.
#![tactic(auto)]

mod address;
mod number;
mod texts;
mod word;
mod words;

pub use address::read_address;
pub use number::{read_number, read_size};
pub use texts::Texts;
pub use word::{has_program, is_host_name, read_signal, read_truth};
pub use words::read_words;
