//! Who took which host in a round.

use sim_base::HostId;

/// The hosts that each worker of a round took, in order.
#[derive(Drop)]
pub enum Took {
    /// The first of so many workers took so many hosts, all, in the order of their numbers, and the others none.
    First { workers: u32, hosts: usize },
    /// Each worker took the hosts of its list.
    Each(Vec<Vec<HostId>>),
}

/// How many lines of a round are worth a thread for their text at least.
const TEXT_LINES: usize = 2_048;

impl Took {
    /// How many threads may make the text of so many lines of the round: as many as it had workers side by side, where the lines are many.
    pub(crate) fn threads(&self, lines: usize) -> usize {
        match self {
            Took::First { .. } => 1,
            Took::Each(lists) => lists.len().min(lines / TEXT_LINES),
        }
    }
}
