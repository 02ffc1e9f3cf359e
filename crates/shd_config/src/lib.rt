//! The configuration of a tree, or its first fault, and the notes of a configuration.
#![tactic(auto)]

mod config;
mod fault;
mod general;
mod graph;
mod host;
mod key;
mod lists;
mod network;
mod notes;
mod optional;
mod options;
mod overrides;
mod process;
mod reading;
mod setting;
mod state;
mod steps;
mod value;

pub use config::{Config, GraphSource, HostConfig, ProcessConfig, Variable};
pub use fault::{ConfigError, ConfigFault, ConfigKind};
pub use host::CAPTURE_SIZE;
pub use lists::{Hosts, Processes, Variables};
pub use overrides::Overrides;
pub use reading::config_of;
