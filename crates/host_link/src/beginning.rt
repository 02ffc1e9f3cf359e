//! The events that a host begins with.

ghost use Rattle.std.specs.Prelude.{◌≡◌, ◌≤◌, ◌^◌, [], length, IfOk, OnOk};
ghost use Rattle.host_link.specs.Beginning.{begins_process, begins_all};
ghost use Rattle.host_link.specs.Handing.{with_events};
ghost use Rattle.host_link.specs.Link.{without_made};

use crate::handing::hold_all;
use crate::link::Link;
use event_order::Queue;
use host_rows::ProcessRow;
use sim_base::{NoMemory, What};
use std::alloc::Global;

impl Link {
    /// The start of a process, and its shutdown, where there is one.
    fn begin_process(&mut self, process: u32, row: &ProcessRow) -> Result<(), NoMemory>
        ensures { OnOk result (self.new ≡ begins_process process row.now self.old) }
    {
        self.number_event(row.start, What::Start(process))?;
        match row.shutdown {
            Some(due) => self.number_event(due, What::Shutdown(process)),
            None => Ok(()),
        }
    }

    /// The starts and shutdowns of all processes.
    #[tactic(auto, unfolding(crate::specs::Beginning::begins_all))]
    fn begin_all(&mut self, rows: &[ProcessRow]) -> Result<(), NoMemory>
        requires { length rows.now ≤ 2 ^ 32 }
        ensures { OnOk result (self.new ≡ begins_all 0 rows.now self.old) }
    {
        for (process, row) in rows.iter().enumerate() {
            self.begin_process(process as u32, row)?;
        }
        Ok(())
    }

    /// The events that the host holds at the beginning: the starts and shutdowns of all processes.
    pub fn begin(&mut self, alloc: Global, rows: &[ProcessRow]) -> Result<Queue, NoMemory>
        requires { length rows.now ≤ 2 ^ 32 }
        ensures rest { OnOk result (self.new ≡ without_made (begins_all 0 rows.now self.old)) }
        ensures made { IfOk result (λ queue. queue ≡ with_events (begins_all 0 rows.now self.old).made []) }
    {
        self.begin_all(rows)?;
        let (events, _) = self.hand_out();
        let mut queue = Queue::new(alloc);
        hold_all(&mut queue, events)?;
        Ok(queue)
    }
}
