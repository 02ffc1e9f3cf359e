//! The command line of the simulator.
#![tactic(auto)]

mod asked;
mod command;
mod fault;
mod name;
mod value;

pub use asked::{Asked, Subject, read_words};
pub use fault::{WordsError, WordsFault};
pub use name::OptionName;
