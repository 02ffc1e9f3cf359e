//! Pipes: what a reader may rely on, over any writes, reads and ends that are let go; eventfds: their
//! rises; epolls: the order of their entries. Definitions and laws, and no code that runs.
#![tactic(auto)]

pub mod laws;
