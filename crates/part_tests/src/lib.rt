//! Tests of parts of the simulator over their public calls: what no run of the program shows. A part's
//! other tests are the cases in files.
#![tactic(auto)]

#[cfg(test)]
mod boards;
#[cfg(test)]
mod lanes;
#[cfg(test)]
mod machine;
#[cfg(test)]
mod order;
#[cfg(test)]
mod outside;
#[cfg(test)]
mod paths;
#[cfg(test)]
mod rows;
#[cfg(test)]
mod seats;
