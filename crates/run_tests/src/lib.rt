//! Tests of whole runs that no experiment in files can show: calls of the outside that fail, and workers that are held.
#![tactic(auto)]

#[cfg(test)]
mod failures;
#[cfg(test)]
mod inputs;
#[cfg(test)]
mod workers;
