//! What lies in the places of boards that are closed is taken out.
ghost use Rattle.std.specs.Prelude.{◌≡◌, ◌+◌, ◌*◌, ◌<◌, ◌≤◌, [], IfOk, All, length, vec_capacity};
ghost use Rattle.std.specs.Mem.Slots.{slots_items, slots_filled, slots_len, IsFull};
ghost use Rattle.list_weights.specs.Places.{EachAt};
ghost use Rattle.host_inbox.specs.Entries.{inbox_places};
ghost use Rattle.host_inbox.specs.inside.Slots.{IsRoom, IsTakenTo, row_of};

use atomic_table::Closed;
use std::alloc::{AllocError, Global};

/// Room for what is drained: an empty row for each host, and room for so many rows.
#[derive(Drop)]
pub struct Room<T> {
    pub empty: Vec<Vec<T>>,
    pub rows: Vec<Vec<T>>,
}

pub fn reserved<T: Drop>(alloc: Global, hosts: u32) -> Result<Room<T>, AllocError>
    ensures empty { IfOk result (λ room. (length room.empty.items ≡ hosts) × All IsRoom room.empty.items) }
    ensures rows { IfOk result (λ room. (room.rows.items ≡ []) × (hosts ≤ vec_capacity room.rows)) }
{
    let mut empty = Vec::with_capacity(alloc, hosts as usize)?;
    for _ in 0..hosts {
        empty.push_reserved(Vec::with_capacity(alloc, 16)?);
    }
    Ok(Room {
        empty,
        rows: Vec::with_capacity(alloc, hosts as usize)?,
    })
}

// The parcels of one host, in the order of their places.
fn drained_row<T>(closed: &mut Closed<Option<T>, Global>, host: usize, mut row: Vec<T>) -> Vec<T>
    requires within { host * inbox_places + inbox_places ≤ slots_len closed.old.slots }
    requires taken { IsTakenTo (host * inbox_places) (slots_filled closed.old.slots) }
    requires room { IsRoom row }
    ensures parcels { result.items ≡ row_of (slots_items closed.old.slots) host }
    ensures taken { IsTakenTo (host * inbox_places + inbox_places) (slots_filled closed.new.slots) }
    ensures same { (slots_items closed.new.slots ≡ slots_items closed.old.slots) × (slots_len closed.new.slots ≡ slots_len closed.old.slots) }
{
    for number in 0..16usize {
        match closed.take(host * 16 + number) {
            Some(parcel) => row.push_reserved(parcel),
            None => {}
        }
    }
    row
}

/// A row for each host.
pub fn drained_rows<T: Drop>(
    mut closed: Closed<Option<T>, Global>,
    mut empty: Vec<Vec<T>>,
    mut rows: Vec<Vec<T>>,
) -> Vec<Vec<T>>
    requires places { slots_len closed.slots ≡ length empty.items * inbox_places }
    requires full { IsFull closed.slots }
    requires empty { All IsRoom empty.items }
    requires rows { (rows.items ≡ []) × (length empty.items ≤ vec_capacity rows) }
    ensures count { length result.items ≡ length empty.items }
    ensures each { EachAt (λ host row. row.items ≡ row_of (slots_items closed.slots) host) result.items }
{
    while let Some(row) = empty.pop() {
        let host = rows.len();
        rows.push_reserved(drained_row(&mut closed, host, row));
    }
    closed.free();
    rows
}
