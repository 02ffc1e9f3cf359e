//! The UDP socket in a place of a host's, which is free or has one: what calls and datagrams do there.
#![tactic(auto)]

pub mod slot;

pub use slot::NOWHERE;
