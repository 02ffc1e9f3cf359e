//! The pages of a guest by place: their rights, and slots with their bytes.

ghost use Rattle.std.specs.Prelude.{◌≡◌, ℕ, ◌+◌, ◌*◌, ◌^◌, ◌<◌, ◌≤◌, ◌⊎◌, [], ◌∷◌, ◌++◌, IfOk, IfSome, OnOk, length, map, take, drop, slice_index, slice_index_or, vec_len, vec_capacity};
ghost use Rattle.std.specs.Arc.{arc_value};
ghost use Rattle.std.proofs.Props.{props};
ghost use Rattle.guest_mem.specs.Break.{max_pages};
ghost use Rattle.guest_mem.specs.inside.Pages.{GuestPage, IsRewritten, of_image, zero_page, zero_pages};
ghost use Rattle.guest_mem.specs.inside.Slots.{AreSlots, shared_bytes, slot_bytes, slots};
ghost use Rattle.elf_load.specs.Room.{page_size, max_program_pages};

use crate::code::CodePage;
use crate::entry::Entry;
use crate::listing::image_entries;
use elf_load::{PAGE_SIZE, Rights, SharedPages};
use std::alloc::{AllocError, Global};
use std::sync::Arc;

/// The shared slot that is all zeros: it has the bytes of each page of the stack and the heap that was never written.
const ZEROS: u16 = 0;

/// The pages of a guest, each at its place. The slots below `first_own` are shared by all guests of the image, and are
/// never written: the page of zeros, and the image's pages. A page takes a slot of its own when it is first written, and
/// the bytes of these lie in one vector, whose room is reserved before there is a page that may need it. An entry past
/// `count` is of a page that was unmapped, and its slot is the next page's at its place. The shared ones have an owner that is this
/// guest's alone, of which there may be more without a count that guests have in common.
#[derive(Drop)]
pub(crate) struct Pages {
    pub shared: Arc<SharedPages, Global>,
    own_shared: Arc<Arc<SharedPages, Global>, Global>,
    first_own: usize,
    entries: Vec<Entry>,
    count: usize,
    bytes: Vec<u8>,
    ghost same: { shared_bytes (arc_value (arc_value own_shared)) ≡ shared_bytes (arc_value shared) } by { Prim.hlevel props },
    ghost as_many: { vec_len (arc_value (arc_value own_shared)).pages ≡ vec_len (arc_value shared).pages },
    ghost shares: { first_own ≡ vec_len (arc_value shared).pages + 1 },
    ghost sound: { AreSlots (slots entries.items) count first_own (shared_bytes (arc_value shared) ++ bytes.items) (vec_capacity bytes) } by { Prim.hlevel props },
}

impl Pages {
    ghost use Rattle.guest_mem.specs.inside.PageStore.{HasRoom, shown};

    /// The pages of an image, and room for `more` pages.
    pub fn of_image(
        alloc: Global,
        shared: Arc<SharedPages, Global>,
        more: usize,
    ) -> Result<Pages, AllocError>
        requires few { vec_len (arc_value shared).pages ≤ max_program_pages }
        requires room { vec_len (arc_value shared).pages + more ≤ max_pages }
        ensures pages { IfOk result (λ pages. shown pages ≡ map of_image (arc_value shared).pages.items) }
        ensures shared { IfOk result (λ pages. arc_value pages.shared ≡ arc_value shared) }
        ensures count { IfOk result (λ pages. pages.count ≡ vec_len (arc_value shared).pages) }
        ensures room { IfOk result (λ pages. HasRoom pages (vec_len (arc_value shared).pages + more)) }
    {
        let count = shared.pages.len();
        let entries = image_entries(alloc, &shared, more)?;
        let bytes = Vec::with_capacity(alloc, (count + more) * PAGE_SIZE)?;
        let own = Arc::try_clone(&shared)?;
        let own_shared = Arc::new(alloc, own)?;
        Ok(Pages {
            shared,
            own_shared,
            first_own: count + 1,
            entries,
            count,
            bytes,
        })
    }

    /// How many pages there are.
    #[inline]
    pub fn len(&self) -> usize
        ensures { result ≡ self.now.count }
    {
        self.count
    }

    /// The rights to a page.
    #[inline]
    pub fn rights(&self, place: usize) -> Rights
        requires { place < self.now.count }
        ensures { (d : GuestPage) → result ≡ (slice_index_or (shown self.now) place d).rights }
    {
        self.entries[place].rights
    }

    /// The `len` bytes of a page from an offset on.
    #[inline]
    pub fn part(&self, place: usize, offset: usize, len: usize) -> &[u8]
        requires place { place < self.now.count }
        requires in_page { offset + len ≤ page_size }
        ensures value { (d : GuestPage) → result.now ≡ take len (drop offset (slice_index_or (shown self.now) place d).bytes) }
        ensures len { length result.now ≡ len }
    {
        let slot = self.entries[place].slot as usize;
        if slot < self.first_own {
            &shared_slot(&self.shared, slot)[offset..offset + len]
        } else {
            let from = (slot - self.first_own) * PAGE_SIZE + offset;
            &self.bytes[from..from + len]
        }
    }

    /// The page at a place, where it has a shared slot, apart from these.
    #[inline]
    pub fn apart(&self, place: usize) -> Option<CodePage>
        requires { place < self.now.count }
        ensures { IfSome result (λ page. (d : GuestPage) → page ≡ (slice_index_or (shown self.now) place d).bytes) }
    {
        let slot = self.entries[place].slot as usize;
        if slot >= self.first_own {
            return None;
        }
        match Arc::try_clone(&self.own_shared) {
            Ok(shared) => Some(CodePage::new(shared, slot)),
            Err(_) => None,
        }
    }

    /// Puts `part` into a page from an offset on.
    #[inline(always)]
    pub fn write(&mut self, place: usize, offset: usize, part: &[u8])
        requires place { place < self.old.count }
        requires in_page { offset + length part.now ≤ page_size }
        ensures written { IsRewritten (shown self.old) (shown self.new) place offset part.now }
        ensures count { self.new.count ≡ self.old.count }
        ensures shared { arc_value self.new.shared ≡ arc_value self.old.shared }
        ensures room { (n : ℕ) → HasRoom self.old n → HasRoom self.new n }
    {
        let slot = self.own_slot(place);
        overwrite(
            &mut self.bytes,
            (slot - self.first_own) * PAGE_SIZE + offset,
            part,
        );
    }

    /// The own slot of a page that is to be written, which takes one where it has a shared one.
    #[inline(always)]
    fn own_slot(&mut self, place: usize) -> usize
        requires { place < self.old.count }
        ensures same { shown self.new ≡ shown self.old }
        ensures own { self.new.first_own ≤ result }
        ensures slot { slice_index (slots self.new.entries.items) place ≡ result }
        ensures count { self.new.count ≡ self.old.count }
        ensures shared { arc_value self.new.shared ≡ arc_value self.old.shared }
        ensures room { (n : ℕ) → HasRoom self.old n → HasRoom self.new n }
    {
        let slot = self.entries[place].slot as usize;
        if slot < self.first_own {
            self.take_slot(place)
        } else {
            slot
        }
    }

    /// A slot of its own for a page that has a shared one, with the same bytes.
    #[cold]
    #[inline(never)]
    fn take_slot(&mut self, place: usize) -> usize
        requires place { place < self.old.count }
        requires shared { slice_index (slots self.old.entries.items) place < self.old.first_own }
        ensures same { shown self.new ≡ shown self.old }
        ensures own { self.new.first_own ≤ result }
        ensures slot { slice_index (slots self.new.entries.items) place ≡ result }
        ensures count { self.new.count ≡ self.old.count }
        ensures shared { arc_value self.new.shared ≡ arc_value self.old.shared }
        ensures room { (n : ℕ) → HasRoom self.old n → HasRoom self.new n }
    {
        let slot = self.first_own + self.bytes.len() / PAGE_SIZE;
        let was = shared_slot(&self.shared, self.entries[place].slot as usize);
        let Ok(()) = self.bytes.extend_from_slice(was) else {
            unreachable!()
        };
        self.entries[place] = Entry {
            number: self.entries[place].number,
            rights: self.entries[place].rights,
            slot: slot as u16,
        };
        slot
    }

    /// Makes room for `more` pages.
    pub fn reserve(&mut self, more: usize) -> Result<(), AllocError>
        requires { self.old.count + more ≤ max_pages }
        ensures room { OnOk result (HasRoom self.new (self.old.count + more)) }
        ensures same { shown self.new ≡ shown self.old }
        ensures count { self.new.count ≡ self.old.count }
        ensures shared { arc_value self.new.shared ≡ arc_value self.old.shared }
    {
        let wanted = self.count + more;
        self.entries
            .reserve(wanted.saturating_sub(self.entries.len()))?;
        self.bytes
            .reserve((wanted * PAGE_SIZE).saturating_sub(self.bytes.len()))?;
        Ok(())
    }

    /// A page more, whose bytes are 0.
    pub fn push(&mut self, number: u32, rights: Rights)
        requires in_range { number < 2 ^ 20 }
        requires few { self.old.count < max_pages }
        requires room { HasRoom self.old (self.old.count + 1) }
        ensures pushed { shown self.new ≡ shown self.old ++ zero_page rights number ∷ [] }
        ensures count { self.new.count ≡ self.old.count + 1 }
        ensures shared { arc_value self.new.shared ≡ arc_value self.old.shared }
        ensures room { (n : ℕ) → HasRoom self.old n → HasRoom self.new n }
    {
        if self.count < self.entries.len() {
            self.push_again(number, rights);
        } else {
            self.entries.push_reserved(Entry {
                number,
                rights,
                slot: ZEROS,
            });
            self.count += 1;
        }
    }

    /// A page more at a place that an unmapped page had: its own slot is cleared, where it has one.
    fn push_again(&mut self, number: u32, rights: Rights)
        requires in_range { number < 2 ^ 20 }
        requires behind { self.old.count < vec_len self.old.entries }
        ensures pushed { shown self.new ≡ shown self.old ++ zero_page rights number ∷ [] }
        ensures count { self.new.count ≡ self.old.count + 1 }
        ensures shared { arc_value self.new.shared ≡ arc_value self.old.shared }
        ensures room { (n : ℕ) → HasRoom self.old n → HasRoom self.new n }
    {
        let slot = self.entries[self.count].slot;
        if (slot as usize) < self.first_own {
            self.push_unwritten(number, rights);
            return;
        }
        clear(
            &mut self.bytes,
            (slot as usize - self.first_own) * PAGE_SIZE,
        );
        self.entries[self.count] = Entry {
            number,
            rights,
            slot,
        };
        self.count += 1;
    }

    /// The same where that page was never written.
    fn push_unwritten(&mut self, number: u32, rights: Rights)
        requires in_range { number < 2 ^ 20 }
        requires behind { self.old.count < vec_len self.old.entries }
        requires shared { slice_index (slots self.old.entries.items) self.old.count < self.old.first_own }
        ensures pushed { shown self.new ≡ shown self.old ++ zero_page rights number ∷ [] }
        ensures count { self.new.count ≡ self.old.count + 1 }
        ensures shared { arc_value self.new.shared ≡ arc_value self.old.shared }
        ensures room { (n : ℕ) → HasRoom self.old n → HasRoom self.new n }
    {
        self.entries[self.count] = Entry {
            number,
            rights,
            slot: ZEROS,
        };
        self.count += 1;
    }

    /// `count` pages more of zeros with the rights to read and to write, whose numbers rise from `first` on.
    pub fn push_zeros(&mut self, first: u32, count: u32)
        requires in_range { first + count ≤ 2 ^ 20 }
        requires few { self.old.count + count ≤ max_pages }
        requires room { HasRoom self.old (self.old.count + count) }
        ensures pushed { shown self.new ≡ shown self.old ++ zero_pages first count }
        ensures count { self.new.count ≡ self.old.count + count }
        ensures shared { arc_value self.new.shared ≡ arc_value self.old.shared }
    {
        for number in first..first + count {
            self.push(
                number,
                Rights {
                    read: true,
                    write: true,
                    execute: false,
                },
            );
        }
    }

    /// The first `count` pages alone.
    pub fn truncate(&mut self, count: usize)
        requires { count ≤ self.old.count }
        ensures shown { shown self.new ≡ take count (shown self.old) }
        ensures count { self.new.count ≡ count }
        ensures shared { arc_value self.new.shared ≡ arc_value self.old.shared }
    {
        self.count = count;
    }
}

/// The bytes of a shared slot: zeros, or a page of the image.
#[inline]
pub(crate) fn shared_slot(shared: &SharedPages, slot: usize) -> &[u8]
    requires { slot ≤ vec_len shared.now.pages }
    ensures { result.now ≡ slot_bytes (shared_bytes shared.now) slot }
{
    if slot == 0 {
        &shared.zeros
    } else {
        &shared.pages[slot - 1].bytes
    }
}

/// Puts `part` into `bytes` from a place on.
#[inline(always)]
fn overwrite(bytes: &mut Vec<u8>, from: usize, part: &[u8])
    requires { from + length part.now ≤ vec_len bytes.old }
    ensures inside { (k : ℕ) → k < length part.now → slice_index bytes.new.items (from + k) ≡ slice_index part.now k }
    ensures outside { (k : ℕ) → (k < from) ⊎ (from + length part.now ≤ k)
        → slice_index bytes.new.items k ≡ slice_index bytes.old.items k }
    ensures len { vec_len bytes.new ≡ vec_len bytes.old }
    ensures room { vec_capacity bytes.new ≡ vec_capacity bytes.old }
{
    bytes[from..from + part.len()].copy_from_slice(part);
}

/// Makes the bytes of a page from a place on 0.
fn clear(bytes: &mut Vec<u8>, from: usize)
    requires { from + page_size ≤ vec_len bytes.old }
    ensures inside { (k : ℕ) → k < page_size → slice_index bytes.new.items (from + k) ≡ 0 }
    ensures outside { (k : ℕ) → (k < from) ⊎ (from + page_size ≤ k)
        → slice_index bytes.new.items k ≡ slice_index bytes.old.items k }
    ensures len { vec_len bytes.new ≡ vec_len bytes.old }
    ensures room { vec_capacity bytes.new ≡ vec_capacity bytes.old }
{
    bytes[from..from + PAGE_SIZE].fill(0);
}
