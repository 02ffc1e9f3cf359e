//! The files that grow while a run goes on: whose they are, and what outputs and lines put there.
#![tactic(auto)]

mod capture;
mod fitting;
mod growing;
mod listed;
mod listing;
mod log_text;
mod piece;
mod written;

pub use capture::Captured;
pub use growing::round_pieces;
pub use listed::{HostListing, Listing, ProcessListing};
pub use piece::{Piece, bytes_of, capture_piece, file_piece, log_piece, numbers};
pub use written::{HostWritten, Written};
