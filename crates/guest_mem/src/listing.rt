//! The entries of an image's pages.

ghost use Rattle.std.specs.Prelude.{◌≡◌, ◌+◌, ◌≤◌, IfOk, length, map, vec_len, vec_capacity};
ghost use Rattle.std.specs.List.{range_with_len};
ghost use Rattle.guest_mem.specs.Break.{max_pages};
ghost use Rattle.guest_mem.specs.inside.Pages.{of_image};
ghost use Rattle.guest_mem.specs.inside.Slots.{page_of, shared_bytes, slots};

use crate::entry::Entry;
use elf_load::SharedPages;
use std::alloc::{AllocError, Global};

/// An entry for each page of an image, with its number, its rights and its shared slot, and room for `more` entries.
pub(crate) fn image_entries(
    alloc: Global,
    shared: &SharedPages,
    more: usize,
) -> Result<Vec<Entry>, AllocError>
    requires { vec_len shared.now.pages + more ≤ max_pages }
    ensures pages { IfOk result (λ entries. map (page_of (shared_bytes shared.now)) entries.items ≡ map of_image shared.now.pages.items) }
    ensures slots { IfOk result (λ entries. slots entries.items ≡ range_with_len 1 (vec_len shared.now.pages)) }
    ensures room { IfOk result (λ entries. vec_len shared.now.pages + more ≤ vec_capacity entries) }
{
    let mut entries = Vec::with_capacity(alloc, shared.pages.len() + more)?;
    for page in &shared.pages {
        let place = entries.len();
        entries.push_reserved(Entry {
            number: page.number,
            rights: page.rights,
            slot: (place + 1) as u16,
        });
    }
    Ok(entries)
}
