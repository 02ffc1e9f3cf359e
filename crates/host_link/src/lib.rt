//! A host's row, its link to the network and what it sends there, and what the firings of its events make and hand out.
#![tactic(auto)]

mod beginning;
mod handing;
mod line;
mod link;
mod net;
mod outbox;
mod sending;
mod wanting;

pub use handing::hand_made_on;
pub use line::{Line, Logged};
pub use link::{Link, later};
pub use net::{Images, Net, Nodes};
pub use outbox::{Made, Outbox};
