//! Tests of the parts below a guest's calls, of what no run shows: memory that may be written and not read, calls that are
//! made again, numbers of files, and expiries that are far away. The cases show the rest.
#![tactic(auto)]

#[cfg(test)]
mod arguments;
#[cfg(test)]
mod made_again;
#[cfg(test)]
mod memory;
#[cfg(test)]
mod numbers;
