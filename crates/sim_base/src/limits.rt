//! The limits of an experiment.

/// How many processes a host may have.
pub const MOST_PROCESSES: usize = 64;
