//! How many workers there are.

ghost use Rattle.std.specs.Prelude.{◌≡◌, ◌≤◌};
ghost use Rattle.sim_base.specs.Limits.{most_workers};
ghost use Rattle.run_plan.specs.Workers.{worker_count};

/// More workers than these do not help.
const MOST: u32 = 64;

/// As many as are asked for, or as there are cores where 0 are; at most 64 and one for each host,
/// and one at least.
pub fn worker_count(parallelism: u32, cores: u32, hosts: u32) -> u32
    ensures count { result ≡ worker_count parallelism cores hosts }
    ensures some { 1 ≤ result }
    ensures most { result ≤ most_workers }
{
    let asked = if parallelism == 0 { cores } else { parallelism };
    asked.min(MOST).min(hosts).max(1)
}
