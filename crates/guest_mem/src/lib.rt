//! The memory of a guest: a map from address to byte with rights, over pages.
#![tactic(auto)]

mod bad;
mod code;
mod entry;
mod hint;
pub mod laws;
mod listing;
mod mem;
mod pages;
mod right;
mod table;

pub use bad::Bad;
pub use code::{CodePage, word_in};
pub use hint::FetchHint;
pub use mem::Mem;
pub use right::Right;
