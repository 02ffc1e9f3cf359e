//! Descriptors.

ghost use Rattle.std.specs.Prelude.{◌≡◌, ◌+◌, ◌<◌, None, is_none, count_by, IfOk, IfSome, IfNone, IsSome};
ghost use Rattle.std.specs.FinMap as map;
ghost use Rattle.host_fds.specs.Descriptors.{IsLowestFree, IsFull, limit};

use crate::file_id::FileId;
use sim_base::NoMemory;
use std::alloc::Global;
use std::marker::Model;

/// The descriptors of a process: numbers 0 to 255, each free or naming an open file.
///
/// Contracts see it as a finite map from numbers to open files.
#[derive(Drop)]
pub struct Table {
    slots: Vec<Option<FileId>>,
}

impl Model for Table {
    ghost use Rattle.std.specs.Prelude.{◌≡◌, vec_len};
    ghost use Rattle.host_fds.specs.Descriptors.{Descriptors, descriptors_code, descriptors_of, limit};

    ghost Value = { Descriptors };

    ghost coded = { descriptors_code };

    ghost view = { λ t. descriptors_of t.slots.items };

    ghost invariant = { λ t. vec_len t.slots ≡ limit };
}

/// How many slots are empty.
fn count_free(slots: &[Option<FileId>]) -> usize
    ensures { result ≡ count_by is_none slots.now }
{
    slots.iter().filter(|slot| slot.is_none()).count()
}

impl Table {
    /// How many descriptors there may be.
    pub const LIMIT: usize = 256;

    /// A table with every number free, and with room for all of them: no later call takes memory.
    pub fn new(alloc: Global) -> Result<Table, NoMemory>
        ensures { IfOk result (λ table. table ≡ map.empty) }
    {
        Ok(Table {
            slots: Vec::from_slice(alloc, &[None; Self::LIMIT])?,
        })
    }

    /// The open file that a number names. A number above 255 names none.
    pub fn get(&self, fd: u32) -> Option<FileId>
        ensures file { result ≡ map.get self.now fd }
        ensures in_range { IsSome result → fd < limit }
    {
        self.slots.get(fd as usize).copied().flatten()
    }

    /// The least free number. None is free exactly where all 256 are taken.
    pub fn lowest_free(&self) -> Option<u32>
        ensures found { IfSome result (IsLowestFree self.now) }
        ensures full { IfNone result (IsFull self.now) }
    {
        for (fd, slot) in self.slots.iter().enumerate() {
            if slot.is_none() {
                return Some(fd as u32);
            }
        }
        None
    }

    /// How many numbers are free.
    pub fn free(&self) -> usize
        ensures { result + map.len self.now ≡ limit }
    {
        count_free(&self.slots)
    }

    /// Gives a free number to an open file.
    pub fn install(&mut self, fd: u32, file: FileId)
        requires in_range { fd < limit }
        requires is_free { map.get self.old fd ≡ None }
        ensures { self.new ≡ map.insert self.old fd file }
    {
        self.slots[fd as usize] = Some(file);
    }

    /// Frees a number, and answers what it named.
    pub fn close(&mut self, fd: u32) -> Option<FileId>
        ensures file { result ≡ map.get self.old fd }
        ensures freed { self.new ≡ map.remove self.old fd }
    {
        let file = self.get(fd)?;
        self.slots[fd as usize] = None;
        Some(file)
    }
}
