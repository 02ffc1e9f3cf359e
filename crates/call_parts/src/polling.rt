//! The entries of a poll, and its deadline.

ghost use Rattle.std.specs.Prelude.{◌≡◌, ◌+◌, ◌*◌, ◌≤◌, length, take, drop, Ok, Err, IfErr, OnOk};
ghost use Rattle.sim_base.specs.Units.{latest_time};
ghost use Rattle.call_parts.specs.Polling as spec;

use file_calls::{Task, kept_or};
use guest_args::{deadline_after, sixteen, timespec};
use guest_mem::{Bad, Mem, Right};
use host_timers::Moment;
use host_wants::Refusal;
use sim_base::{Errno, Time};

/// The descriptor in an entry.
pub fn asked_fd(entry: [u8; 8]) -> u32
    ensures { result ≡ spec.asked_fd entry }
{
    let mut fd = [0; 4];
    fd.copy_from_slice(&entry[..4]);
    u32::from_le_bytes(fd)
}

/// The events in an entry that are asked for.
pub fn asked_events(entry: [u8; 8]) -> u16
    ensures { result ≡ spec.asked_events entry }
{
    let mut events = [0; 2];
    events.copy_from_slice(&entry[4..6]);
    u16::from_le_bytes(events)
}

/// An entry of some.
pub fn entry_at(entries: &[u8], place: usize) -> [u8; 8]
    requires { spec.entry_size * place + spec.entry_size ≤ length entries.now }
    ensures { result ≡ take spec.entry_size (drop (spec.entry_size * place) entries.now) }
{
    let mut entry = [0; 8];
    entry.copy_from_slice(&entries[8 * place..8 * place + 8]);
    entry
}

/// An entry that tells of these events.
pub fn with_events(entry: [u8; 8], events: u16) -> [u8; 8]
    ensures { result ≡ spec.with_events entry events }
{
    let [a, b, c, d, e, f, _g, _h] = entry;
    let [g, h] = events.to_le_bytes();
    [a, b, c, d, e, f, g, h]
}

/// Whether an entry tells of something, as a number.
pub fn count_one(events: u16) -> u32
    ensures count { result ≡ spec.count_one events }
    ensures most { result ≤ 1 }
{
    if events == 0 { 0 } else { 1 }
}

fn poll_time(at: u32, memory: &Mem) -> Result<Moment, Refusal>
    ensures { result ≡ spec.poll_time at memory.now }
{
    let Some(bytes) = sixteen(memory, at) else {
        return Err(Refusal::Errno(Errno::Efault));
    };
    match timespec(&bytes, 0) {
        Some(time) => Ok(time),
        None => Err(Refusal::Errno(Errno::Einval)),
    }
}

/// Until when a `ppoll(2)` waits.
pub fn poll_deadline(now: Time, at: u32, task: &Task) -> Result<Option<Time>, Refusal>
    requires { now.nanos ≤ latest_time }
    ensures { result ≡ spec.poll_deadline now at task.now }
{
    if at == 0 {
        return Ok(None);
    }
    let time = poll_time(at, &task.memory)?;
    Ok(Some(kept_or(task.kept, deadline_after(now, time))))
}

/// Whether a deadline has come.
pub fn has_come(now: Time, deadline: Option<Time>) -> bool
    ensures { result ≡ spec.has_come now deadline }
{
    match deadline {
        Some(deadline) => deadline.nanos <= now.nanos,
        None => false,
    }
}

/// Fills `entries` from the guest's memory, which must be able to take them back.
pub fn poll_entries(at: u32, entries: &mut [u8], memory: &Mem) -> Result<(), Refusal>
    ensures ok { OnOk result (spec.poll_entries at (length entries.old) memory.now ≡ Ok entries.new) }
    ensures refused { IfErr result (λ r. spec.poll_entries at (length entries.old) memory.now ≡ Err r) }
{
    match memory.copy_out(at, entries) {
        Ok(()) => {}
        Err(Bad) => return Err(Refusal::Errno(Errno::Efault)),
    }
    if !memory.is_open(Right::Write, at, entries.len()) {
        return Err(Refusal::Errno(Errno::Efault));
    }
    Ok(())
}
