//! What a wait for an epoll is asked for, and how it tells what is due.

ghost use Rattle.std.specs.Prelude.{◌≡◌, ◌+◌, ◌≤◌, ◌&&◌, not, min, nat_lt, [], ◌∷◌, ◌++◌, length, flat_map, IfOk, IfSome, OnOk};
ghost use Rattle.sim_base.specs.Refusals.{refuse_if};
ghost use Rattle.sim_base.specs.Units.{latest_time};
ghost use Rattle.host_wants.specs.declared.error.Refusal.TheVariants.{Wait};
ghost use Rattle.host_files.specs.Epolls.{epoll_at, told_by, entries_reported};
ghost use Rattle.call_parts.specs.Epoll as spec;
ghost use Rattle.call_parts.specs.Polling.{has_come as came};

use crate::polling::has_come;
use file_calls::{Shared, Task, epoll_number, kept_or, look_up};
use guest_args::{deadline_after, fill};
use guest_mem::Right;
use host_fds::{Entry, Rises, Seen};
use host_files::Epolls;
use host_timers::Moment;
use host_wants::Refusal;
use sim_base::{Errno, NoMemory, Time};
use std::alloc::Global;

fn is_negative(word: u32) -> bool
    ensures { result ≡ spec.is_negative word }
{
    word >= 1 << 31
}

fn time_of_ms(ms: u32) -> Moment
    ensures { result ≡ spec.time_of_ms ms }
{
    Moment {
        seconds: u64::from(ms / 1000),
        nanos: ms % 1000 * 1_000_000,
    }
}

/// Until when an `epoll_pwait(2)` waits.
pub fn wait_deadline(now: Time, ms: u32, task: &Task) -> Option<Time>
    requires { now.nanos ≤ latest_time }
    ensures { result ≡ spec.wait_deadline now ms task.now }
{
    if is_negative(ms) {
        return None;
    }
    Some(kept_or(task.kept, deadline_after(now, time_of_ms(ms))))
}

/// The most entries that a call tells.
const MOST: u32 = 256;

/// The number of an epoll, where its entries are told, and how many there may be.
#[derive(Clone, Copy)]
pub struct WaitPlan {
    pub place: usize,
    pub at: u32,
    pub room: u32,
}

/// What refuses an `epoll_pwait(2)`, or where it tells.
pub fn wait_place(
    epfd: u32,
    at: u32,
    count: u32,
    task: &Task,
    shared: &Shared,
) -> Result<WaitPlan, Refusal>
    ensures { result ≡ spec.wait_place epfd at count (task.now, shared.now) }
{
    let d = look_up(epfd, task, &shared.files)?;
    let place = epoll_number(d.file.object)?;
    if count == 0 || is_negative(count) {
        return Err(Refusal::Errno(Errno::Einval));
    }
    let room = count.min(MOST);
    if !task.memory.is_open(Right::Write, at, 16 * room as usize) {
        return Err(Refusal::Errno(Errno::Efault));
    }
    Ok(WaitPlan { place, at, room })
}

/// It waits unless an entry is due or its deadline has come.
pub fn waits_unless(now: Time, deadline: Option<Time>, has_due: bool) -> Result<(), Refusal>
    ensures { result ≡ refuse_if (not has_due && not (came now deadline)) (Wait deadline) }
{
    if !has_due && !has_come(now, deadline) {
        return Err(Refusal::Wait(deadline));
    }
    Ok(())
}

/// A `struct epoll_event`.
fn event_bytes(entry: Entry) -> [u8; 16]
    ensures { result ≡ spec.event_bytes entry }
{
    let [a, b, c, d] = entry.events.to_le_bytes();
    let [e, f, g, h, i, j, k, l] = entry.data.to_le_bytes();
    [a, b, c, d, 0, 0, 0, 0, e, f, g, h, i, j, k, l]
}

fn all_bytes(alloc: Global, entries: &[Entry]) -> Result<Vec<u8>, NoMemory>
    ensures { IfOk result (λ bytes. bytes.items ≡ flat_map spec.event_bytes entries.now) }
{
    let mut bytes = Vec::new(alloc);
    for place in 0..entries.len() {
        bytes.extend_from_slice(&event_bytes(entries[place]))?;
    }
    Ok(bytes)
}

/// What is seen of a descriptor that is ready for nothing.
fn nothing_seen() -> Seen
    ensures { result ≡ spec.nothing_seen }
{
    Seen {
        fd: 0,
        bits: 0,
        rises: Rises::none(),
    }
}

/// Puts what is seen of an entry at its place, behind nothing that is seen of those before it that are not in yet.
pub fn put_seen(all: &mut Vec<Seen>, place: usize, seen: Seen) -> Result<(), NoMemory>
    requires { length all.old.items ≤ place }
    ensures seen { OnOk result (all.new.items ≡ spec.up_to place all.old.items ++ seen ∷ []) }
    ensures size { OnOk result (length all.new.items ≡ place + 1) }
{
    all.resize(place, nothing_seen())?;
    all.push(seen)?;
    Ok(())
}

/// No more entries are told than are seen.
fn room_used(room: u32, all: &[Seen]) -> usize
    ensures { result ≡ min room (length all.now) }
{
    all.len().min(room as usize)
}

/// Reports what is due of what is seen, as many entries as there may be.
fn report(
    alloc: Global,
    place: usize,
    room: u32,
    all: &[Seen],
    epolls: &mut Epolls,
) -> Result<Vec<Entry>, NoMemory>
    requires { IfSome (epoll_at place epolls.old) (λ entries. length all.now ≤ length entries) }
    ensures told { IfOk result (λ told. told.items ≡ told_by room all.now (epoll_at place epolls.old)) }
    ensures few { IfOk result (λ told. length told.items ≤ room) }
    ensures left { OnOk result (epolls.new ≡ entries_reported room all.now place epolls.old) }
{
    let nothing = Entry { events: 0, data: 0 };
    let mut told = vec![in alloc; nothing; room_used(room, all)]?;
    let found = epolls.report(place, all, told.as_mut_slice());
    told.truncate(found);
    Ok(told)
}

/// Tells what is due of what is seen, and answers how many entries that are.
pub fn tell(
    alloc: Global,
    waiting: WaitPlan,
    all: &[Seen],
    task: &mut Task,
) -> Result<u32, NoMemory>
    requires { IfSome (epoll_at waiting.place task.old.epolls) (λ entries. length all.now ≤ length entries) }
    ensures count { IfOk result (λ found. found ≡ length (told_by waiting.room all.now (epoll_at waiting.place task.old.epolls))) }
    ensures told { OnOk result (task.new ≡ spec.telling waiting all.now task.old) }
{
    let WaitPlan { place, at, room } = waiting;
    let told = report(alloc, place, room, all, &mut task.epolls)?;
    let bytes = all_bytes(alloc, told.as_slice())?;
    fill(&mut task.memory, at, bytes.as_slice());
    Ok(told.len() as u32)
}

/// Whether anything is seen.
pub fn is_any_seen(all: &[Seen]) -> bool
    ensures { result ≡ nat_lt 0 (length all.now) }
{
    !all.is_empty()
}
