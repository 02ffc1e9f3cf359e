//! Streams of TCP: what a reader may rely on, over the records of connections and the packets on their
//! way. Definitions and laws, and no code that runs.
#![tactic(auto)]

pub mod laws;
