//! The simulator's top call.
//!
//! Laws, as `runs_grow()`, are called first in a body: they do nothing when it runs, and bring what they
//! ensure into its proof. So it is proved by the public contracts of the crates below alone.
#![tactic(auto)]

mod ending;
pub mod laws;
mod rounds;
mod simulation;
mod streams;

pub use simulation::shadow;
pub use steal_workers::{Gate, OpenGate};
