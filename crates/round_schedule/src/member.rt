//! The hosts and the workers of a round.

use file_calls::Output;
use host_state::Host;
use sim_base::Parcel;

/// How far a host has come in a round.
#[derive(Clone, Copy, Drop)]
pub(crate) enum Stage {
    Waits,
    /// It is in the hand of the worker with this number.
    InHand(u32),
    Done,
}

/// A host of a round.
#[derive(Drop)]
pub(crate) struct Member {
    pub(crate) host: Host,
    pub(crate) stage: Stage,
    /// The places for packets that other hosts made for it in this round.
    pub(crate) places: Vec<Option<Parcel>>,
    /// What its processes wrote in this round, in order.
    pub(crate) outputs: Vec<Output>,
}

/// A worker of a round.
#[derive(Drop)]
pub(crate) struct Worker {
    /// The packets that the host in its hand made and that aren't put yet, in order.
    pub(crate) hand: Vec<Parcel>,
    /// The packets that it put into no place.
    pub(crate) spill: Vec<Parcel>,
}
