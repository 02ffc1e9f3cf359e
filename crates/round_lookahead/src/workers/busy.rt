//! How many threads could run a round.
ghost use Rattle.std.specs.Prelude.{◌≡◌, ◌≤◌, ◌<◌, ◌↔◌, false, count_by};
ghost use Rattle.round_lookahead.specs.inside.Idles.{IsIdle, is_busy, most_threads};

use crate::workers::host_task::HostTask;
use sim_base::Time;

impl HostTask {
    /// Whether the host holds an event that is due before the end, or a packet waits for it.
    pub(crate) fn is_busy(&self, end: Time) -> bool
        ensures { (result ≡ false) ↔ IsIdle end.nanos self.now }
    {
        if !self.parcels.is_empty() {
            return true;
        }
        match self.due {
            Some(due) => due.nanos < end.nanos,
            None => false,
        }
    }
}

/// How many tasks have something to do before the end.
pub(crate) fn busy_count(tasks: &[HostTask], end: Time) -> usize
    ensures { result ≡ count_by (is_busy end.nanos) tasks.now }
{
    let mut busy = 0;
    for task in tasks {
        if task.is_busy(end) {
            busy += 1;
        }
    }
    busy
}

/// How many threads could run a round of so many workers in which so many hosts have something to do: no more than there are such
/// hosts, and one at least.
pub(crate) fn most_threads(busy: usize, workers: u32) -> u32
    requires { 0 < workers }
    ensures count { result ≡ most_threads busy workers }
    ensures within { (0 < result) × (result ≤ workers) }
{
    let busy = busy.max(1);
    if busy < workers as usize {
        busy as u32
    } else {
        workers
    }
}
