//! Rounds: all hosts are run up to the end of a window, by workers side by side.
#![tactic(auto)]

mod laws;
mod workers;
mod world;

pub use laws::{one_result, rounds_reach_the_result};
pub use workers::host_task::HostTask;
pub use workers::worked::{Done, Worked};
pub use workers::working::work;
pub use world::pieces::Pieces;
pub use world::took::Took;
pub use world::world_state::World;
