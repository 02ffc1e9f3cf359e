//! Closing boards.
ghost use Rattle.std.specs.Prelude.{◌≡◌, ◌≤◌, [], IfOk, IfErr, All, length, vec_capacity};
ghost use Rattle.host_inbox.specs.CarrierViews.{AreAllOf};
ghost use Rattle.host_inbox.specs.Drains.{all_entries, IsDrained};
ghost use Rattle.host_inbox.specs.Kept.{AreKept};
ghost use Rattle.host_inbox.specs.inside.Slots.{IsRoom};

use crate::boards::Boards;
use crate::carrier::Carrier;
use crate::draining::{Room, drained_rows, reserved};
use sim_base::Parcel;

/// What lay in the inboxes: for each host its parcels, in the order of their places.
#[derive(Drop)]
pub struct Drained<T = Parcel> {
    pub rows: Vec<Vec<T>>,
}

/// There was no memory for what would be drained. The boards and the carriers are as they were.
#[derive(Drop)]
pub struct CloseRefused<T: Drop = Parcel> {
    pub boards: Boards<T>,
    pub carriers: Vec<Carrier<T>>,
}

impl<T: Drop> Boards<T> {
    fn drained(self, carriers: Vec<Carrier<T>>, room: Room<T>) -> Vec<Vec<T>>
        requires carriers { AreAllOf self carriers.items }
        requires empty { (length room.empty.items ≡ self.hosts) × All IsRoom room.empty.items }
        requires rows { (room.rows.items ≡ []) × (self.hosts ≤ vec_capacity room.rows) }
        ensures drained { IsDrained self.hosts (all_entries carriers.items) result.items }
        ensures kept { AreKept (all_entries carriers.items) result.items }
    {
        let Room { empty, rows } = room;
        drained_rows(self.closed(carriers), empty, rows)
    }

    /// Closes the boards, given all their carriers, and gives what lies in the inboxes. Refused for want of memory alone: the
    /// boards and the carriers then come back as they were.
    pub fn close(self, carriers: Vec<Carrier<T>>) -> Result<Drained<T>, CloseRefused<T>>
        requires { AreAllOf self carriers.items }
        ensures drained { IfOk result (λ drained. IsDrained self.hosts (all_entries carriers.items) drained.rows.items) }
        ensures kept { IfOk result (λ drained. AreKept (all_entries carriers.items) drained.rows.items) }
        ensures refused { IfErr result (λ refused. (refused.boards ≡ self) × (refused.carriers.items ≡ carriers.items)) }
    {
        match reserved(*carriers.allocator(), self.hosts()) {
            Ok(room) => Ok(Drained {
                rows: self.drained(carriers, room),
            }),
            Err(_) => Err(CloseRefused {
                boards: self,
                carriers,
            }),
        }
    }
}
