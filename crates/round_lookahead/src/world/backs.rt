//! Hosts come back from workers.
ghost use Rattle.std.specs.Prelude.{◌≡◌, ◌++◌, ◌∷◌, ◌<◌, [], Some, None, All, OnOk, IfOk, length, replicate, slice_set};
ghost use Rattle.round_lookahead.specs.inside.Backs as spec;

use crate::workers::worked::{Done, Worked};
use file_calls::Output;
use host_link::Logged;
use host_state::Host;
use sim_base::{HostId, NoMemory, Parcel};
use std::alloc::Global;

/// A host that was run, and what its processes wrote.
#[derive(Drop)]
pub(crate) struct Back {
    pub(crate) id: HostId,
    pub(crate) host: Box<Host>,
    pub(crate) outputs: Vec<Output>,
}

/// The hosts that came back, by their numbers; the lines of the log that they made and the hosts that each worker took, in the order in
/// which they were taken; and the packets that are in no inbox.
#[derive(Drop)]
pub(crate) struct Returned {
    pub(crate) slots: Vec<Option<Back>>,
    pub(crate) lines: Vec<Logged>,
    pub(crate) took: Vec<Vec<HostId>>,
    pub(crate) spill: Vec<Parcel>,
}

/// So many empty slots.
fn empty_slots(alloc: Global, count: usize) -> Result<Vec<Option<Back>>, NoMemory>
    ensures { IfOk result (λ slots. slots.items ≡ replicate count None) }
{
    let mut slots = Vec::with_capacity(alloc, count)?;
    for _slot in 0..count {
        slots.push(None)?;
    }
    Ok(slots)
}

/// A host comes back.
fn put_done(
    slots: &mut Vec<Option<Back>>,
    lines: &mut Vec<Logged>,
    took: &mut Vec<HostId>,
    done: Done,
) -> Result<(), NoMemory>
    requires { done.id.index < length slots.old.items }
    ensures slots { OnOk result (slots.new.items ≡ slice_set slots.old.items done.id.index (Some (spec.back_of done))) }
    ensures lines { OnOk result (lines.new.items ≡ lines.old.items ++ done.lines.items) }
    ensures took { OnOk result (took.new.items ≡ took.old.items ++ done.id ∷ []) }
{
    let mut done = done;
    took.push(done.id)?;
    lines.append(&mut done.lines)?;
    let Done {
        id,
        host,
        outputs,
        ..
    } = done;
    slots[id.index as usize] = Some(Back { id, host, outputs });
    Ok(())
}

/// The hosts that a worker ran come back.
fn put_all_done(
    slots: &mut Vec<Option<Back>>,
    lines: &mut Vec<Logged>,
    took: &mut Vec<HostId>,
    all: Vec<Done>,
) -> Result<(), NoMemory>
    requires { All (λ d. d.id.index < length slots.old.items) all.items }
    ensures slots { OnOk result (slots.new.items ≡ spec.with_done all.items slots.old.items) }
    ensures lines { OnOk result (lines.new.items ≡ lines.old.items ++ spec.lines_done all.items) }
    ensures took { OnOk result (took.new.items ≡ took.old.items ++ spec.ids_of all.items) }
{
    for done in all {
        put_done(slots, lines, took, done)?;
    }
    Ok(())
}

/// A worker's hosts come back, and what it spilled.
fn put_worked(alloc: Global, returned: &mut Returned, worked: Worked) -> Result<(), NoMemory>
    requires { All (λ d. d.id.index < length returned.old.slots.items) worked.done.items }
    ensures { OnOk result (spec.Returns (worked ∷ []) returned.old returned.new) }
{
    let Worked { done, mut spill } = worked;
    let mut took = Vec::with_capacity(alloc, done.len())?;
    put_all_done(&mut returned.slots, &mut returned.lines, &mut took, done)?;
    returned.took.push(took)?;
    returned.spill.append(&mut spill)?;
    Ok(())
}

/// What all workers ran and spilled comes back, for so many hosts.
pub(crate) fn put_back(
    alloc: Global,
    count: usize,
    works: Vec<Worked>,
) -> Result<Returned, NoMemory>
    requires { All (λ w. All (λ d. d.id.index < count) w.done.items) works.items }
    ensures { IfOk result (λ returned. spec.AreReturned count works.items returned) }
{
    let mut returned = Returned {
        slots: empty_slots(alloc, count)?,
        lines: Vec::new(alloc),
        took: Vec::new(alloc),
        spill: Vec::new(alloc),
    };
    for worked in works {
        put_worked(alloc, &mut returned, worked)?;
    }
    Ok(returned)
}
