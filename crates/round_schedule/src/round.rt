//! The state of a round.

ghost use Rattle.std.specs.Prelude.{◌≡◌, ◌≤◌, IfOk, None, replicate};
ghost use Rattle.sim_base.specs.Limits.{most_workers};
ghost use Rattle.host_state.specs.HostRecord.{HostRecord};
ghost use Rattle.host_link.specs.declared.line.Line.{Line};
ghost use Rattle.host_link.specs.Net.{Net};
ghost use Rattle.world_order.specs.World.{World};
ghost use Rattle.round_schedule.specs.Opening.{MayOpen};
ghost use Rattle.round_schedule.specs.Reaching.{round_on};
ghost use Rattle.round_schedule.specs.Standing.{EachStands, HostsStand, RoundStands, AreIdle, IsWaiting};

use crate::member::{Member, Stage, Worker};
use host_link::{Logged, Net};
use host_state::Host;
use sim_base::{NoMemory, Parcel};
use std::alloc::Global;
use world_order::Window;

/// How many places a host has.
const PLACES: u32 = 16;

/// A round over hosts: the window, the hosts by number, the workers by number, and the lines of the
/// log that were made in it. Once it is closed, the hosts hold all packets.
#[derive(Drop)]
pub struct Round {
    pub(crate) window: Window,
    pub(crate) members: Vec<Member>,
    pub(crate) workers: Vec<Worker>,
    pub(crate) lines: Vec<Logged>,
    pub(crate) closed: bool,
}

/// Places that are free.
fn free_places(alloc: Global) -> Result<Vec<Option<Parcel>>, NoMemory>
    ensures { IfOk result (λ places. places.items ≡ replicate 16 None) }
{
    let mut places = Vec::new(alloc);
    for _place in 0..PLACES {
        places.push(None)?;
    }
    Ok(places)
}

/// A host that waits.
fn waiting(alloc: Global, host: Host) -> Result<Member, NoMemory>
    ensures { IfOk result (IsWaiting host) }
{
    Ok(Member {
        host,
        stage: Stage::Waits,
        places: free_places(alloc)?,
        outputs: Vec::new(alloc),
    })
}

/// Workers with nothing in their hands.
fn idle_workers(alloc: Global, count: u32) -> Result<Vec<Worker>, NoMemory>
    ensures { IfOk result (λ workers. AreIdle count workers.items) }
{
    let mut workers = Vec::new(alloc);
    for _worker in 0..count {
        workers.push(Worker {
            hand: Vec::new(alloc),
            spill: Vec::new(alloc),
        })?;
    }
    Ok(workers)
}

/// All hosts, each of which waits.
fn waiting_all(alloc: Global, hosts: Vec<Host>) -> Result<Vec<Member>, NoMemory>
    ensures { IfOk result (λ members. EachStands (λ i. IsWaiting) hosts.items members.items) }
{
    let mut members = Vec::new(alloc);
    for host in hosts {
        members.push(waiting(alloc, host)?)?;
    }
    Ok(members)
}

impl Round {
    /// Opens a round for so many workers, on hosts that hold all events, and for a window that begins
    /// no later than they are due. No packet that is made in it arrives before the window's end. The
    /// error is want of memory.
    pub fn open(
        hosts: Vec<Host>,
        net: &Net,
        window: Window,
        workers: u32,
    ) -> Result<Round, NoMemory>
        requires may { MayOpen net.now window hosts.items }
        requires workers { (1 ≤ workers) × (workers ≤ most_workers) }
        ensures stands { IfOk result (λ round. (w : World HostRecord Line) → HostsStand net.now hosts.items w → RoundStands net.now w round (round_on net.now window workers w)) }
        ensures window { IfOk result (λ round. round.window ≡ window) }
    {
        let alloc = *net.nodes.allocator();
        Ok(Round {
            window,
            members: waiting_all(alloc, hosts)?,
            workers: idle_workers(alloc, workers)?,
            lines: Vec::new(alloc),
            closed: false,
        })
    }
}
