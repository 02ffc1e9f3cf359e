//! The experiment of a self-load as files that a user can keep and change.
#![tactic(auto)]

mod config_text;
mod files;
mod generated;
mod graph_text;

pub use files::{File, Files};
pub use generated::{SelfLoad, generate};
