//! Pages of code, and the words of a page whose bytes were read.

ghost use Rattle.std.specs.Prelude.{◌≡◌, ◌+◌, ◌*◌, ◌≤◌, ℕ, Some, length, vec_len};
ghost use Rattle.std.specs.Arc.{arc_value};
ghost use Rattle.std.proofs.Props.{props};
ghost use Rattle.guest_mem.specs.Memory.{Memory, IsPage, load};
ghost use Rattle.elf_load.specs.Room.{page_size};

use crate::pages::shared_slot;
use crate::right::Right;
use elf_load::SharedPages;
use std::alloc::Global;
use std::marker::Model;
use std::sync::Arc;

/// The bytes of a page of a guest's code that may not be written. It stands apart from the memory where it was found, and has what that
/// page has, whatever is stored there.
pub struct CodePage {
    shared: Arc<Arc<SharedPages, Global>, Global>,
    slot: usize,
    ghost within: { slot ≤ vec_len (arc_value (arc_value shared)).pages } by { Prim.hlevel props },
}

/// By hand: a derived one would be proved anew in each crate that drops such a value.
impl Drop for CodePage {
    fn drop(self) {
        let CodePage { shared, slot: _ } = self;
        drop(shared);
    }
}

impl Model for CodePage {
    ghost use Rattle.std.specs.Prelude.{ℕ, List};
    ghost use Rattle.std.specs.Arc.{arc_value};
    ghost use Rattle.guest_mem.specs.inside.Slots.{shared_bytes, slot_bytes};

    ghost Value = { List ℕ };

    ghost view = { λ p. slot_bytes (shared_bytes (arc_value (arc_value p.shared))) p.slot };
}

impl CodePage {
    ghost use Rattle.guest_mem.specs.inside.Slots.{shared_bytes, slot_bytes};

    /// The page in a shared slot.
    pub(crate) fn new(shared: Arc<Arc<SharedPages, Global>, Global>, slot: usize) -> CodePage
        requires { slot ≤ vec_len (arc_value (arc_value shared)).pages }
        ensures { result ≡ slot_bytes (shared_bytes (arc_value (arc_value shared))) slot }
    {
        CodePage { shared, slot }
    }

    /// The page's bytes, in the order of their offsets: as many as a page has.
    pub fn bytes(&self) -> &[u8]
        ensures { result.now ≡ self.now }
    {
        shared_slot(&self.shared, self.slot)
    }
}

/// The number in the 4 bytes of a page from an offset on, low byte first.
#[inline]
pub fn word_in(page: &[u8], offset: usize) -> u32
    requires whole { length page.now ≡ page_size }
    requires in_page { offset + 4 ≤ page_size }
    ensures { (right : Right) (m : Memory) (number : ℕ) → IsPage right m.cells number page.now
        → load right 4 m (page_size * number + offset) ≡ Some result }
{
    let mut bytes = [0; 4];
    bytes.copy_from_slice(&page[offset..offset + 4]);
    u32::from_le_bytes(bytes)
}
