//! The workers of a round.

pub(crate) mod bench;
pub(crate) mod busy;
pub(crate) mod fork;
pub(crate) mod host_task;
pub(crate) mod round;
pub(crate) mod running;
pub(crate) mod worked;
pub(crate) mod working;
