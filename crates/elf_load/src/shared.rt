//! What the guests of an image share.

ghost use Rattle.std.specs.Prelude.{◌≡◌, ℕ, ◌^◌, ◌<◌, ◌≤◌, ◌↔◌, IfOk, IsTrue, Some, vec_len, slice_index};
ghost use Rattle.std.specs.Arc.{arc_value};
ghost use Rattle.std.proofs.Props.{props};
ghost use Rattle.elf_load.specs.Places.{page_numbers, place_of};
ghost use Rattle.elf_load.specs.Room.{page_size, max_program_pages};
ghost use Rattle.elf_load.specs.inside.PageIndex.{Finds, StandOnce};

use crate::index::PageIndex;
use crate::page::{PAGE_SIZE, Page};
use std::alloc::{AllocError, Global};
use std::sync::Arc;

/// The touched pages of an image, each once, with an index that finds them, and the bytes of a page of zeros.
pub struct SharedPages {
    pub pages: Vec<Page>,
    pub zeros: Vec<u8>,
    index: PageIndex,
    pub ghost is_whole: { vec_len zeros ≡ page_size },
    pub ghost are_zeros: { (o : ℕ) → o < page_size → slice_index zeros.items o ≡ 0 } by { Prim.hlevel props },
    ghost once: { StandOnce (page_numbers pages.items) } by { Prim.hlevel props },
    ghost indexed: { Finds index (page_numbers pages.items) } by { Prim.hlevel props },
}

/// By hand: a derived one would be proved anew in each crate that drops such a value.
impl Drop for SharedPages {
    fn drop(self) {
        let SharedPages {
            pages,
            zeros,
            index,
        } = self;
        drop(pages);
        drop(zeros);
        drop(index);
    }
}

impl SharedPages {
    /// The place of the page with this number.
    #[inline]
    pub fn place_of(&self, number: u32) -> Option<usize>
        requires { number < 2 ^ 20 }
        ensures { result ≡ place_of (page_numbers self.now.pages.items) number }
    {
        self.index.find(number)
    }

    /// Whether the page with this number stands at this place.
    #[inline]
    pub fn is_at(&self, place: usize, number: u32) -> bool
        ensures { IsTrue result ↔ (place_of (page_numbers self.now.pages.items) number ≡ Some place) }
    {
        place < self.pages.len() && self.pages[place].number == number
    }
}

/// The first owner of these pages.
pub(crate) fn share(alloc: Global, pages: Vec<Page>) -> Result<Arc<SharedPages, Global>, AllocError>
    requires few { vec_len pages ≤ max_program_pages }
    requires once { StandOnce (page_numbers pages.items) }
    ensures { IfOk result (λ shared. (arc_value shared).pages ≡ pages) }
{
    let index = PageIndex::of(alloc, &pages)?;
    let zeros = vec![in alloc; 0; PAGE_SIZE]?;
    Ok(Arc::new(
        alloc,
        SharedPages {
            pages,
            zeros,
            index,
        },
    )?)
}
