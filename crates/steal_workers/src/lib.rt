//! Tasks dealt over the deques of seats that steal from one another.
#![tactic(auto)]

mod back;
mod column;
mod dealing;
mod deck;
mod gate;
mod gathering;
mod hand;
mod handle;
mod item;
pub mod laws;
mod row;
mod seat;
mod share;
mod sweep;

pub use dealing::{DealFailed, deal};
pub use gate::{Gate, OpenGate};
pub use gathering::{GatherRefused, Gathered, gather};
pub use item::Numbered;
pub use seat::{Next, Seat};
