//! The world, round by round.

pub(crate) mod backs;
pub(crate) mod due;
pub(crate) mod gained;
pub(crate) mod in_place;
pub(crate) mod load;
pub(crate) mod merging;
pub(crate) mod opening;
pub(crate) mod pieces;
pub(crate) mod retasking;
pub(crate) mod rounds;
pub(crate) mod settling;
pub(crate) mod settling_in_place;
pub(crate) mod share;
pub(crate) mod sharing;
pub(crate) mod showing;
pub(crate) mod streams;
pub(crate) mod took;
pub(crate) mod waiting;
pub(crate) mod world_state;
