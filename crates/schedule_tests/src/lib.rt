//! Tests of a round that is played step by step over the hosts of a run, which no run of the program shows: the program plays
//! no round so.
#![tactic(auto)]

#[cfg(test)]
mod beginning;
#[cfg(test)]
mod inputs;
#[cfg(test)]
mod playing;
#[cfg(test)]
mod schedules;
