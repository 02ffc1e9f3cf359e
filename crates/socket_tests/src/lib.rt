//! Tests of sockets over the public calls of their crates: what no run of the program shows. Runs
//! are in `cases`.
#![tactic(auto)]

#[cfg(test)]
mod connections;
#[cfg(test)]
mod hosts;
#[cfg(test)]
mod listeners;
#[cfg(test)]
mod segments;
