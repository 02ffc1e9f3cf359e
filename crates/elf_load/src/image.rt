//! The image that a load makes.

ghost use Rattle.std.specs.Prelude.{◌≡◌, ◌+◌, ◌*◌, ◌≤◌, IfOk, vec_len, All};
ghost use Rattle.std.specs.Arc.{arc_value};
ghost use Rattle.elf_load.specs.Cells.{cells_of};
ghost use Rattle.elf_load.specs.Room.{page_size, room_end, max_program_pages};

use crate::shared::SharedPages;
use std::alloc::{AllocError, Global};
use std::marker::Model;
use std::sync::Arc;

/// What a loader lays into a guest's memory: the touched pages, the entry and the first break.
///
/// Contracts see it as a finite map from addresses to cells, the entry, the first break and the number of pages.
#[derive(Drop)]
pub struct Image {
    shared: Arc<SharedPages, Global>,
    entry: u32,
    start: u32,
}

impl Model for Image {
    ghost use Rattle.std.specs.Prelude.{◌+◌, ◌*◌, ◌≤◌, vec_len, All};
    ghost use Rattle.elf_load.specs.ProgramImage.{ProgramImage, program_image_code};

    ghost Value = { ProgramImage };

    ghost coded = { program_image_code };

    ghost use Rattle.elf_load.specs.Cells.{cells_of};
    ghost use Rattle.elf_load.specs.Room.{page_size, room_end, max_program_pages};

    ghost view = { λ i. record { cells = cells_of i.shared.value.pages.items; entry = i.entry; start = i.start; pages = vec_len i.shared.value.pages } };

    ghost invariant = { λ i. (vec_len i.shared.value.pages ≤ max_program_pages) × (i.start ≤ room_end) × All (λ p. page_size * p.number + page_size ≤ i.start) i.shared.value.pages.items };
}

impl Image {
    /// The image with these pages.
    pub(crate) fn new(shared: Arc<SharedPages, Global>, entry: u32, start: u32) -> Image
        requires few { vec_len (arc_value shared).pages ≤ max_program_pages }
        requires in_range { start ≤ room_end }
        requires below_start { All (λ p. page_size * p.number + page_size ≤ start) (arc_value shared).pages.items }
        ensures { result ≡ record { cells = cells_of (arc_value shared).pages.items; entry = entry; start = start; pages = vec_len (arc_value shared).pages } }
    {
        Image {
            shared,
            entry,
            start,
        }
    }

    /// One owner more of the touched pages.
    pub fn shared(&self) -> Result<Arc<SharedPages, Global>, AllocError>
        ensures cells { IfOk result (λ shared. cells_of (arc_value shared).pages.items ≡ self.now.cells) }
        ensures count { IfOk result (λ shared. vec_len (arc_value shared).pages ≡ self.now.pages) }
        ensures few { IfOk result (λ shared. vec_len (arc_value shared).pages ≤ max_program_pages) }
        ensures below_start { IfOk result (λ shared. All (λ p. page_size * p.number + page_size ≤ self.now.start) (arc_value shared).pages.items) }
    {
        Arc::try_clone(&self.shared)
    }

    /// The address of the first instruction.
    pub fn entry(&self) -> u32
        ensures { result ≡ self.now.entry }
    {
        self.entry
    }

    /// The first break: the highest end of a segment, rounded up to a page.
    pub fn start(&self) -> u32
        ensures value { result ≡ self.now.start }
        ensures in_range { result ≤ room_end }
    {
        self.start
    }
}
