//! Inboxes that threads share: parcels for hosts, put by carriers.
#![tactic(auto)]

mod boards;
mod carrier;
mod closing;
mod draining;
mod entry;
mod joining;
pub mod laws;
mod opening;
mod put;
mod rule;
mod steps;

pub use boards::Boards;
pub use carrier::{Carrier, Full};
pub use closing::{CloseRefused, Drained};
pub use entry::Entry;
