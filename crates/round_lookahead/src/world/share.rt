//! Hosts in shares, each of which one worker has for itself.
ghost use Rattle.std.specs.Prelude.{◌≡◌, ◌+◌, ◌++◌, ◌∷◌, [], ◌<◌, IfOk, OnOk, length};
ghost use Rattle.round_lookahead.specs.inside.Shares.{dealt_in, tasks_in};

use crate::workers::host_task::HostTask;
use crate::world::in_place::Alone;
use sim_base::{NoMemory, Time};
use std::alloc::Global;
use std::mem;

/// Hosts that one worker runs in their places, in the order of their numbers, and what they made once they are run.
#[derive(Drop)]
pub(crate) struct Share {
    pub(crate) tasks: Vec<HostTask>,
    pub(crate) made: Option<Alone>,
}

/// Hosts that are dealt out in their order: the shares that are whole, and the one that is being dealt, with how many of its hosts have
/// something to do.
#[derive(Drop)]
struct Dealing {
    shares: Vec<Share>,
    tasks: Vec<HostTask>,
    busy: usize,
}

impl Dealing {
    /// The share that is being dealt is whole, and another one begins.
    fn next_share(&mut self, alloc: Global) -> Result<(), NoMemory>
        ensures shares { OnOk result (tasks_in self.new.shares.items ≡ dealt_in self.old) }
        ensures begun { OnOk result (self.new.tasks.items ≡ []) }
        ensures count { OnOk result (length self.new.shares.items ≡ length self.old.shares.items + 1) }
    {
        let tasks = mem::replace(&mut self.tasks, Vec::new(alloc));
        self.shares.push(Share { tasks, made: None })?;
        self.busy = 0;
        Ok(())
    }

    /// Another one begins where the share that is being dealt has as many hosts with something to do as it may, and there is a worker for it.
    fn make_room(&mut self, alloc: Global, most: usize, workers: u32) -> Result<(), NoMemory>
        requires { length self.old.shares.items < workers }
        ensures tasks { OnOk result (dealt_in self.new ≡ dealt_in self.old) }
        ensures count { OnOk result (length self.new.shares.items < workers) }
    {
        if self.busy < most || self.shares.len() + 1 >= workers as usize {
            return Ok(());
        }
        self.next_share(alloc)
    }

    /// A host is dealt.
    fn add(
        &mut self,
        alloc: Global,
        task: HostTask,
        end: Time,
        most: usize,
        workers: u32,
    ) -> Result<(), NoMemory>
        requires { length self.old.shares.items < workers }
        ensures tasks { OnOk result (dealt_in self.new ≡ dealt_in self.old ++ task ∷ []) }
        ensures count { OnOk result (length self.new.shares.items < workers) }
    {
        if task.is_busy(end) {
            self.make_room(alloc, most, workers)?;
            self.busy = self.busy.saturating_add(1);
        }
        self.tasks.push(task)?;
        Ok(())
    }
}

/// Hosts in the order of their numbers, all dealt.
fn dealt(
    alloc: Global,
    tasks: Vec<HostTask>,
    end: Time,
    most: usize,
    workers: u32,
) -> Result<Dealing, NoMemory>
    requires { 0 < workers }
    ensures tasks { IfOk result (λ dealing. dealt_in dealing ≡ tasks.items) }
    ensures count { IfOk result (λ dealing. length dealing.shares.items < workers) }
{
    let mut dealing = Dealing {
        shares: Vec::new(alloc),
        tasks: Vec::new(alloc),
        busy: 0,
    };
    for task in tasks {
        dealing.add(alloc, task, end, most, workers)?;
    }
    Ok(dealing)
}

/// A share for each of so many workers, of hosts in the order of their numbers. At most so many hosts of each share but the last one with
/// any have something to do before the end.
pub(crate) fn shares_of(
    alloc: Global,
    tasks: Vec<HostTask>,
    end: Time,
    most: usize,
    workers: u32,
) -> Result<Vec<Share>, NoMemory>
    requires { 0 < workers }
    ensures tasks { IfOk result (λ shares. tasks_in shares.items ≡ tasks.items) }
    ensures count { IfOk result (λ shares. length shares.items ≡ workers) }
{
    let mut dealing = dealt(alloc, tasks, end, most, workers)?;
    let first = dealing.shares.len();
    for _ in first..workers as usize {
        dealing.next_share(alloc)?;
    }
    Ok(dealing.shares)
}
