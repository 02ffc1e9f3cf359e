//! What hosts had to do in a round.

use crate::workers::host_task::HostTask;
use round_parts::RoundLoad;
use sim_base::NoMemory;
use std::alloc::Global;

/// What each host had to do so far.
pub(crate) fn works_of(alloc: Global, tasks: &[HostTask]) -> Result<Vec<u64>, NoMemory> {
    let mut works = Vec::with_capacity(alloc, tasks.len())?;
    for task in tasks {
        works.push(task.work)?;
    }
    Ok(works)
}

/// What all hosts had to do in a round, each of which had so much to do before it.
pub(crate) fn load_since(tasks: &[HostTask], before: &[u64]) -> RoundLoad {
    let mut load = RoundLoad::new();
    let mut works = before.iter();
    for task in tasks {
        let Some(before) = works.next() else {
            break;
        };
        load.add(task.work.saturating_sub(*before));
    }
    load
}
