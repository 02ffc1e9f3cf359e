//! The text that shows a configuration: what it says. Definitions and laws, and no code that runs.
#![tactic(auto)]

pub mod laws;
