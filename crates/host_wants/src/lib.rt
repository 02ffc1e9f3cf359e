//! What the acts of a host want done, and why a call does not answer.
#![tactic(auto)]

mod error;
mod outlet;

pub use error::{CallError, Refusal};
pub use outlet::{Outlet, Want};
