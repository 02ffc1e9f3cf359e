//! Parts of a round that know no host's tasks: packets into inboxes, the spill and rows, when the first of some is due, what the
//! lines of a log come to, and whether a round is worth threads.
#![tactic(auto)]

mod arriving;
mod counts;
mod delivery;
mod load;
mod posting;

pub use arriving::{earlier, first_arrival, first_spilled};
pub use counts::Counts;
pub use delivery::deliver;
pub use load::{Load, RoundLoad, Spread};
pub use posting::post_all;
