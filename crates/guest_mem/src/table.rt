//! The pages of a guest.

ghost use Rattle.std.specs.Prelude.{◌≡◌, ℕ, List, ◌+◌, ◌-◌, ◌*◌, ◌/◌, ◌%◌, ◌^◌, ◌<◌, ◌≤◌, Some, None, MatchOption, MatchResult, IfSome, IsSome, OnOk, OnErr, is_some, length, min};
ghost use Rattle.std.specs.Arc.{arc_value};
ghost use Rattle.std.specs.Bool.{OnTrue};
ghost use Rattle.std.specs.Option.{option_map};
ghost use Rattle.std.proofs.Props.{props};
ghost use Rattle.guest_mem.specs.Memory.{IsCode, bytes_for, number, put_all};
ghost use Rattle.guest_mem.specs.Break.{with_zeros, without, room_pages, max_pages};
ghost use Rattle.guest_mem.specs.inside.PageStore.{shown};
ghost use Rattle.guest_mem.specs.inside.Pages.{IsPageTable, mapped_cells, numbers};
ghost use Rattle.guest_mem.specs.inside.Slots.{AreBelow, fixed_numbers};
ghost use Rattle.elf_load.specs.Places.{page_numbers, place_of};
ghost use Rattle.elf_load.specs.Room.{page_size};

use crate::Bad;
use crate::code::CodePage;
use crate::hint::FetchHint;
use crate::pages::Pages;
use crate::right::Right;
use std::alloc::AllocError;

const PAGE_SIZE: u32 = 4096;

/// The number of the first page of the stack, which begins at 0xBFF00000, and how many it has.
pub(crate) const STACK_FIRST: u32 = 0xBFF00;

pub(crate) const STACK_PAGES: u32 = 256;

/// The pages of the image, which its index finds, behind them those of the stack, whose numbers rise from `STACK_FIRST` on,
/// and behind these those of the heap, whose numbers rise from `heap` on. Those of the image are below it. The first `fixed` pages
/// stay mapped.
#[derive(Drop)]
pub(crate) struct PageTable {
    pub pages: Pages,
    pub fixed: usize,
    pub heap: u32,
    ghost low: { AreBelow (arc_value pages.shared) heap } by { Prim.hlevel props },
    ghost stay: { fixed ≡ length (fixed_numbers (arc_value pages.shared)) },
    ghost sound: { IsPageTable (fixed_numbers (arc_value pages.shared)) (numbers (shown pages)) heap } by { Prim.hlevel props },
}

impl PageTable {
    ghost use Rattle.guest_mem.specs.inside.PageTable.{IsSameShape};

    /// A table of the pages of an image and a stack, whose heap begins at page `heap` and is empty.
    pub fn new(pages: Pages, heap: u32) -> PageTable
        requires listed { numbers (shown pages) ≡ fixed_numbers (arc_value pages.shared) }
        requires bounded { heap ≤ room_pages }
        requires low { AreBelow (arc_value pages.shared) heap }
        requires apart { (n : ℕ) → heap ≤ n → n < room_pages → place_of (numbers (shown pages)) n ≡ None }
        ensures pages { shown result.pages ≡ shown pages }
        ensures fixed { result.fixed ≡ pages.count }
        ensures count { result.pages.count ≡ pages.count }
        ensures heap { result.heap ≡ heap }
    {
        let fixed = pages.len();
        PageTable { pages, fixed, heap }
    }

    /// The place of the first page with this number.
    #[inline]
    fn place(&self, number: u32) -> Option<usize>
        requires { number < 2 ^ 20 }
        ensures { result ≡ place_of (numbers (shown self.now.pages)) number }
    {
        if number >= self.heap {
            return self.place_behind(number);
        }
        match self.pages.shared.place_of(number) {
            Some(place) => Some(place),
            None => self.place_behind(number),
        }
    }

    /// The same, where no page of the image has the number: the page is one of the stack or of the heap.
    #[inline]
    fn place_behind(&self, number: u32) -> Option<usize>
        requires in_range { number < 2 ^ 20 }
        requires none { place_of (page_numbers (arc_value self.now.pages.shared).pages.items) number ≡ None }
        ensures { result ≡ place_of (numbers (shown self.now.pages)) number }
    {
        let on_stack = number.wrapping_sub(STACK_FIRST);
        if on_stack < STACK_PAGES {
            return Some(self.fixed - STACK_PAGES as usize + on_stack as usize);
        }
        let in_heap = number.wrapping_sub(self.heap) as usize;
        if in_heap < self.pages.len() - self.fixed {
            Some(self.fixed + in_heap)
        } else {
            None
        }
    }

    /// The `len` bytes from `at` on, which lie in one page, where the page has the right.
    #[inline]
    pub fn within(&self, right: Right, at: u32, len: usize) -> Option<&[u8]>
        requires some { 0 < len }
        requires in_page { at % page_size + len ≤ page_size }
        ensures found { MatchOption result (bytes_for right len (mapped_cells (shown self.now.pages)) at ≡ None)
            (λ bytes. bytes_for right len (mapped_cells (shown self.now.pages)) at ≡ Some bytes.now) }
        ensures whole { IfSome result (λ bytes. length bytes.now ≡ len) }
    {
        self.within_page(right, self.place(at / PAGE_SIZE), at, len)
    }

    /// The same, where the place of the page was found.
    #[inline]
    fn within_page(&self, right: Right, found: Option<usize>, at: u32, len: usize) -> Option<&[u8]>
        requires some { 0 < len }
        requires in_page { at % page_size + len ≤ page_size }
        requires there { found ≡ place_of (numbers (shown self.now.pages)) (at / page_size) }
        ensures found { MatchOption result (bytes_for right len (mapped_cells (shown self.now.pages)) at ≡ None)
            (λ bytes. bytes_for right len (mapped_cells (shown self.now.pages)) at ≡ Some bytes.now) }
        ensures whole { IfSome result (λ bytes. length bytes.now ≡ len) }
    {
        let Some(place) = found else {
            return None;
        };
        if right.is_among(self.pages.rights(place)) {
            Some(self.pages.part(place, (at % PAGE_SIZE) as usize, len))
        } else {
            None
        }
    }

    /// The page with this number, where it may be executed and not written, and never was written, apart from this table. The page at the
    /// hint's place is tried first, and the hint is the page's that was found.
    #[inline]
    pub fn code_page(&self, number: u32, hint: &mut FetchHint) -> Option<CodePage>
        requires { number < 2 ^ 20 }
        ensures { IfSome result (λ page. IsCode (mapped_cells (shown self.now.pages)) number page) }
    {
        let place = self.hinted_place(number, hint)?;
        let rights = self.pages.rights(place);
        if !rights.execute || rights.write {
            return None;
        }
        match self.pages.apart(place) {
            Some(page) => Some(page),
            None => None,
        }
    }

    /// Puts `bytes` at `at`, which lie in one page, where the page may be written.
    #[inline(always)]
    pub fn put_within(&mut self, at: u32, bytes: &[u8]) -> Result<(), Bad>
        requires some { 0 < length bytes.now }
        requires in_page { at % page_size + length bytes.now ≤ page_size }
        ensures put { OnOk result
            (mapped_cells (shown self.new.pages) ≡ put_all (mapped_cells (shown self.old.pages)) at bytes.now) }
        ensures may { OnOk result
            (IsSome (bytes_for Right.Write (length bytes.now) (mapped_cells (shown self.old.pages)) at)) }
        ensures bad { OnErr result
            (bytes_for Right.Write (length bytes.now) (mapped_cells (shown self.old.pages)) at ≡ None) }
        ensures unchanged { OnErr result (self.new ≡ self.old) }
        ensures kept { IsSameShape self.old self.new }
    {
        let Some(place) = self.place(at / PAGE_SIZE) else {
            return Err(Bad);
        };
        if !Right::Write.is_among(self.pages.rights(place)) {
            return Err(Bad);
        }
        self.pages.write(place, (at % PAGE_SIZE) as usize, bytes);
        Ok(())
    }

    /// Whether each of the `len` addresses from `at` on is mapped with the right.
    pub fn is_open(&self, right: Right, at: u32, len: usize) -> bool
        ensures value { result ≡ is_some (bytes_for right len (mapped_cells (shown self.now.pages)) at) }
        ensures in_range { OnTrue result (at + len ≤ 2 ^ 32) }
    {
        if len as u64 > (1 << 32) - u64::from(at) {
            return false;
        }
        let mut done = 0;
        while done < len {
            let here = at + done as u32;
            let count = len_in_page(here, len - done);
            let Some(_) = self.within(right, here, count) else {
                return false;
            };
            done += count;
        }
        true
    }

    /// Fills `into` with the bytes from `at` on, where each is mapped with the right.
    pub fn copy_out(&self, right: Right, at: u32, into: &mut [u8]) -> Result<(), Bad>
        ensures ok { OnOk result
            (bytes_for right (length into.old) (mapped_cells (shown self.now.pages)) at ≡ Some into.new) }
        ensures bad { OnErr result
            (bytes_for right (length into.old) (mapped_cells (shown self.now.pages)) at ≡ None) }
        ensures unchanged { OnErr result (into.new ≡ into.old) }
    {
        if into.is_empty() || into.len() > (PAGE_SIZE - at % PAGE_SIZE) as usize {
            return self.copy_out_over(right, at, into);
        }
        let Some(bytes) = self.within(right, at, into.len()) else {
            return Err(Bad);
        };
        into.copy_from_slice(bytes);
        Ok(())
    }

    /// The same over any number of pages.
    fn copy_out_over(&self, right: Right, at: u32, into: &mut [u8]) -> Result<(), Bad>
        ensures ok { OnOk result
            (bytes_for right (length into.old) (mapped_cells (shown self.now.pages)) at ≡ Some into.new) }
        ensures bad { OnErr result
            (bytes_for right (length into.old) (mapped_cells (shown self.now.pages)) at ≡ None) }
        ensures unchanged { OnErr result (into.new ≡ into.old) }
    {
        let len = into.len();
        if !self.is_open(right, at, len) {
            return Err(Bad);
        }
        let mut done = 0;
        while done < len {
            let here = at + done as u32;
            let count = len_in_page(here, len - done);
            let Some(bytes) = self.within(right, here, count) else {
                unreachable!()
            };
            into[done..done + count].copy_from_slice(bytes);
            done += count;
        }
        Ok(())
    }

    /// Puts `bytes` at `at`, where each address may be written.
    pub fn copy_in(&mut self, at: u32, bytes: &[u8]) -> Result<(), Bad>
        ensures put { OnOk result
            (mapped_cells (shown self.new.pages) ≡ put_all (mapped_cells (shown self.old.pages)) at bytes.now) }
        ensures may { OnOk result
            (IsSome (bytes_for Right.Write (length bytes.now) (mapped_cells (shown self.old.pages)) at)) }
        ensures bad { OnErr result
            (bytes_for Right.Write (length bytes.now) (mapped_cells (shown self.old.pages)) at ≡ None) }
        ensures unchanged { OnErr result (self.new ≡ self.old) }
        ensures kept { IsSameShape self.old self.new }
    {
        if bytes.is_empty() || bytes.len() > (PAGE_SIZE - at % PAGE_SIZE) as usize {
            return self.copy_in_over(at, bytes);
        }
        self.put_within(at, bytes)
    }

    /// The same over any number of pages.
    fn copy_in_over(&mut self, at: u32, bytes: &[u8]) -> Result<(), Bad>
        ensures put { OnOk result
            (mapped_cells (shown self.new.pages) ≡ put_all (mapped_cells (shown self.old.pages)) at bytes.now) }
        ensures may { OnOk result
            (IsSome (bytes_for Right.Write (length bytes.now) (mapped_cells (shown self.old.pages)) at)) }
        ensures bad { OnErr result
            (bytes_for Right.Write (length bytes.now) (mapped_cells (shown self.old.pages)) at ≡ None) }
        ensures unchanged { OnErr result (self.new ≡ self.old) }
        ensures kept { IsSameShape self.old self.new }
    {
        let len = bytes.len();
        if !self.is_open(Right::Write, at, len) {
            return Err(Bad);
        }
        let mut done = 0;
        while done < len {
            let here = at + done as u32;
            let count = len_in_page(here, len - done);
            let Ok(()) = self.put_within(here, &bytes[done..done + count]) else {
                unreachable!()
            };
            done += count;
        }
        Ok(())
    }

    /// The byte at `at`, where it is mapped with the right.
    #[inline]
    pub fn byte(&self, right: Right, at: u32) -> Result<u8, Bad>
        ensures { MatchResult result
            (λ value. option_map number (bytes_for right 1 (mapped_cells (shown self.now.pages)) at) ≡ Some value)
            (λ _. option_map number (bytes_for right 1 (mapped_cells (shown self.now.pages)) at) ≡ None) }
    {
        match self.within(right, at, 1) {
            Some(bytes) => Ok(bytes[0]),
            None => Err(Bad),
        }
    }

    /// The little-endian number in the 2 bytes from `at` on, where each is mapped with the right.
    #[inline]
    pub fn half(&self, right: Right, at: u32) -> Result<u16, Bad>
        ensures { MatchResult result
            (λ value. option_map number (bytes_for right 2 (mapped_cells (shown self.now.pages)) at) ≡ Some value)
            (λ _. option_map number (bytes_for right 2 (mapped_cells (shown self.now.pages)) at) ≡ None) }
    {
        if at % PAGE_SIZE > PAGE_SIZE - 2 {
            let mut bytes = [0; 2];
            return match self.copy_out(right, at, &mut bytes) {
                Ok(()) => Ok(u16::from_le_bytes(bytes)),
                Err(Bad) => Err(Bad),
            };
        }
        match self.within(right, at, 2) {
            Some(bytes) => Ok(u16::from_le_bytes([bytes[0], bytes[1]])),
            None => Err(Bad),
        }
    }

    /// The little-endian number in the 4 bytes from `at` on, where each is mapped with the right.
    #[inline]
    pub fn word(&self, right: Right, at: u32) -> Result<u32, Bad>
        ensures { MatchResult result
            (λ value. option_map number (bytes_for right 4 (mapped_cells (shown self.now.pages)) at) ≡ Some value)
            (λ _. option_map number (bytes_for right 4 (mapped_cells (shown self.now.pages)) at) ≡ None) }
    {
        if at % PAGE_SIZE > PAGE_SIZE - 4 {
            let mut bytes = [0; 4];
            return match self.copy_out(right, at, &mut bytes) {
                Ok(()) => Ok(u32::from_le_bytes(bytes)),
                Err(Bad) => Err(Bad),
            };
        }
        self.word_in_page(right, self.place(at / PAGE_SIZE), at)
    }

    /// The same within one page, whose place was found.
    #[inline]
    fn word_in_page(&self, right: Right, found: Option<usize>, at: u32) -> Result<u32, Bad>
        requires in_page { at % page_size + 4 ≤ page_size }
        requires there { found ≡ place_of (numbers (shown self.now.pages)) (at / page_size) }
        ensures { MatchResult result
            (λ value. option_map number (bytes_for right 4 (mapped_cells (shown self.now.pages)) at) ≡ Some value)
            (λ _. option_map number (bytes_for right 4 (mapped_cells (shown self.now.pages)) at) ≡ None) }
    {
        match self.within_page(right, found, at, 4) {
            Some(bytes) => Ok(u32::from_le_bytes([bytes[0], bytes[1], bytes[2], bytes[3]])),
            None => Err(Bad),
        }
    }

    /// The little-endian number in the 4 bytes from `at` on, where each may be executed. The page at the hint's place is
    /// tried first, and the hint is the page's that was found.
    #[inline]
    pub fn fetch(&self, at: u32, hint: &mut FetchHint) -> Result<u32, Bad>
        ensures { MatchResult result
            (λ value. option_map number (bytes_for Right.Execute 4 (mapped_cells (shown self.now.pages)) at) ≡ Some value)
            (λ _. option_map number (bytes_for Right.Execute 4 (mapped_cells (shown self.now.pages)) at) ≡ None) }
    {
        if at % PAGE_SIZE <= PAGE_SIZE - 4 {
            let found = self.hinted_place(at / PAGE_SIZE, hint);
            self.word_in_page(Right::Execute, found, at)
        } else {
            self.word(Right::Execute, at)
        }
    }

    /// The place of the first page with this number, which is the hint's where it is right.
    #[inline]
    fn hinted_place(&self, number: u32, hint: &mut FetchHint) -> Option<usize>
        requires { number < 2 ^ 20 }
        ensures { result ≡ place_of (numbers (shown self.now.pages)) number }
    {
        if self.pages.shared.is_at(hint.place, number) {
            return Some(hint.place);
        }
        let found = self.place(number);
        if let Some(place) = found {
            hint.place = place;
        }
        found
    }

    /// Maps `count` pages of zeros behind those of the heap. Where memory is wanting, nothing changes.
    pub fn grow(&mut self, count: u32) -> Result<(), AllocError>
        requires few { self.old.pages.count + count ≤ max_pages }
        requires low { self.old.heap + (self.old.pages.count - self.old.fixed) + count ≤ room_pages }
        ensures mapped { let end = self.old.heap + (self.old.pages.count - self.old.fixed) in
            OnOk result
            (mapped_cells (shown self.new.pages)
            ≡ with_zeros (mapped_cells (shown self.old.pages)) (page_size * end) (page_size * count)) }
        ensures more { OnOk result (self.new.pages.count ≡ self.old.pages.count + count) }
        ensures unchanged { OnErr result (shown self.new.pages ≡ shown self.old.pages) }
        ensures same_heap { self.new.heap ≡ self.old.heap }
        ensures same_fixed { self.new.fixed ≡ self.old.fixed }
    {
        let end = self.heap + (self.pages.len() - self.fixed) as u32;
        self.pages.reserve(count as usize)?;
        self.pages.push_zeros(end, count);
        Ok(())
    }

    /// Unmaps the last `count` pages of the heap.
    pub fn shrink(&mut self, count: u32)
        requires { count ≤ self.old.pages.count - self.old.fixed }
        ensures unmapped { let end = self.old.heap + (self.old.pages.count - self.old.fixed) in
            mapped_cells (shown self.new.pages)
            ≡ without (mapped_cells (shown self.old.pages)) (page_size * (end - count)) (page_size * end) }
        ensures fewer { self.new.pages.count ≡ self.old.pages.count - count }
        ensures same_heap { self.new.heap ≡ self.old.heap }
        ensures same_fixed { self.new.fixed ≡ self.old.fixed }
    {
        self.pages.truncate(self.pages.len() - count as usize);
    }
}

/// How many of `len` bytes from `at` on lie in the page of the first.
fn len_in_page(at: u32, len: usize) -> usize
    ensures { result ≡ min (page_size - at % page_size) len }
{
    let left = (PAGE_SIZE - at % PAGE_SIZE) as usize;
    left.min(len)
}
