//! The text that shows a configuration.
#![tactic(auto)]

mod show;

pub use show::show_into;
