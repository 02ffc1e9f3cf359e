//! Things by number.

ghost use Rattle.std.specs.Prelude.{◌≡◌, is_none, position, IfOk, option_copied};
ghost use Rattle.host_files.specs.Slots as spec;

use sim_base::NoMemory;

/// What has a number, if it is taken.
pub(crate) fn at<T>(slots: &[Option<T>], place: usize) -> Option<&T>
    ensures { option_copied result ≡ spec.at place slots.now }
{
    match slots.get(place) {
        Some(Some(thing)) => Some(thing),
        Some(None) => None,
        None => None,
    }
}

fn first_free<T>(slots: &[Option<T>]) -> Option<usize>
    ensures { result ≡ position is_none slots.now }
{
    slots.iter().position(|slot| slot.is_none())
}

/// The least free number.
fn free_place<T>(slots: &[Option<T>]) -> usize
    ensures { result ≡ spec.free_place slots.now }
{
    first_free(slots).unwrap_or(slots.len())
}

/// Gives a new thing the least free number.
pub(crate) fn add<T: Drop>(slots: &mut Vec<Option<T>>, thing: T) -> Result<usize, NoMemory>
    ensures place { IfOk result (λ place. place ≡ spec.free_place slots.old.items) }
    ensures added { IfOk result (λ place. slots.new.items ≡ spec.added thing slots.old.items) }
{
    let place = free_place(slots.as_slice());
    put(slots, place, thing)?;
    Ok(place)
}

fn put<T: Drop>(slots: &mut Vec<Option<T>>, place: usize, thing: T) -> Result<(), NoMemory>
    ensures { IfOk result (λ _. slots.new.items ≡ spec.with_at place (Some thing) slots.old.items) }
{
    if place < slots.len() {
        slots[place] = Some(thing);
    } else {
        slots.push(Some(thing))?;
    }
    Ok(())
}

/// Gives a number back.
pub(crate) fn free<T: Drop>(slots: &mut [Option<T>], place: usize)
    ensures { slots.new ≡ spec.without place slots.old }
{
    if place < slots.len() {
        slots[place] = None;
    }
}
