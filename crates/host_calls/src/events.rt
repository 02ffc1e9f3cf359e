//! What a host does with a packet that arrives, an alarm, and the end of a process.

ghost use Rattle.std.specs.Prelude.{◌≡◌, ◌<◌, ◌≤◌, vec_len, IfOk, OnOk};
ghost use Rattle.sim_base.specs.Units.{latest_time};
ghost use Rattle.host_sockets.specs.Sockets.{SocketsRecord};
ghost use Rattle.host_sockets.specs.StandsFor.{Stand};
ghost use Rattle.host_calls.specs.Events as spec;
ghost use Rattle.host_calls.specs.Parts.{PartsRecord, PartsStand, SlotStands};
ghost use Rattle.host_calls.specs.Parts.{slot as slot_at};

use crate::all::Parts;
use crate::calling::end_task;
use file_calls::{Shared, Task, ring};
use host_sockets::Sockets;
use sim_base::{Act, AlarmTarget, NoMemory, Packet, Time};

/// A packet arrives: it is handed to the sockets. Answers what the packet log tells of it.
pub fn deliver(parts: &mut Parts, now: Time, packet: &Packet) -> Result<Act, NoMemory>
    requires { now.nanos ≤ latest_time }
    ensures { IfOk result (λ act. (h : PartsRecord) → PartsStand parts.old h → spec.Delivered (spec.arrives now packet.now h) act parts.new) }
{
    parts.sockets.deliver(&mut parts.shared.outlet, now, packet)
}

/// An alarm: of a process's deadline, a timer or a TCP socket. A stale serial does nothing.
pub fn alarm(parts: &mut Parts, now: Time, target: AlarmTarget, serial: u64) -> Result<(), NoMemory>
    requires { now.nanos ≤ latest_time }
    ensures { OnOk result ((h : PartsRecord) → PartsStand parts.old h → PartsStand parts.new (spec.alarmed now target serial h)) }
{
    match target {
        AlarmTarget::Process(_) => Ok(()),
        AlarmTarget::Timer(place) => ring(now, place, serial, &mut parts.shared),
        AlarmTarget::Socket(place) => {
            parts
                .sockets
                .expire(&mut parts.shared.outlet, now, place, serial)
        }
    }
}

fn end_slot(
    now: Time,
    slot: &mut Option<Task>,
    shared: &mut Shared,
    sockets: &mut Sockets,
) -> Result<(), NoMemory>
    ensures { OnOk result ((t : SocketsRecord) → Stand sockets.old t → SlotStands slot.new shared.new sockets.new (spec.ended_slot now (slot_at slot.old shared.old t))) }
{
    match slot {
        Some(task) => end_task(now, task, shared, sockets),
        None => Ok(()),
    }
}

/// The end of a process: its descriptors are closed in rising order, and it waits in no call.
pub fn close_all(parts: &mut Parts, now: Time, process: u32) -> Result<(), NoMemory>
    requires now { now.nanos ≤ latest_time }
    requires process { process < vec_len parts.old.tasks }
    ensures { OnOk result ((h : PartsRecord) → PartsStand parts.old h → PartsStand parts.new (spec.ended now process h)) }
{
    end_slot(
        now,
        &mut parts.tasks[process as usize],
        &mut parts.shared,
        &mut parts.sockets,
    )
}
