//! Guest memory: bytes with rights at addresses, and the break.

ghost use Rattle.std.specs.Prelude.{◌≡◌, ◌^◌, ◌<◌, Some, None, MatchResult, IfOk, IfSome, OnOk, OnErr, is_some, length};
ghost use Rattle.guest_mem.specs.Memory.{IsCode, read, load, write, store};
ghost use Rattle.guest_mem.specs.Break.{grown, pages_to};
ghost use Rattle.guest_mem.specs.Opening.{opening};

use crate::code::CodePage;
use crate::hint::FetchHint;
use crate::pages::Pages;
use crate::table::{PageTable, STACK_FIRST, STACK_PAGES};
use crate::{Bad, Right};
use elf_load::Image;
use sim_base::NoMemory;
use std::alloc::Global;
use std::marker::Model;

const PAGE_SIZE: u32 = 4096;

/// The number of the page at 0xBF000000, where the heap ends at the latest.
const HEAP_LIMIT: u32 = 0xBF000;

/// How many pages may be mapped.
const PAGE_LIMIT: usize = 4096;

/// The memory of a guest.
///
/// Contracts see it as a finite map from addresses to bytes with their rights, the start of the heap, the break and
/// the number of mapped pages.
/// An access of several bytes may stand at any address, and touches all of them or, where it is `Bad`, none.
pub struct Mem {
    table: PageTable,
    start: u32,
    end: u32,
}

/// By hand: a derived one would be proved anew in each crate that drops such a value.
impl Drop for Mem {
    fn drop(self) {
        let Mem {
            table,
            start: _,
            end: _,
        } = self;
        drop(table);
    }
}

impl Model for Mem {
    ghost use Rattle.guest_mem.specs.Memory.{Memory, memory_code};
    ghost use Rattle.guest_mem.specs.inside.PageStore.{shown};
    ghost use Rattle.guest_mem.specs.inside.Pages.{IsLaidOut, mapped_cells};

    ghost Value = { Memory };

    ghost coded = { memory_code };

    ghost view = { λ m. record { cells = mapped_cells (shown m.table.pages); start = m.start; break = m.end; pages = m.table.pages.count } };

    ghost invariant = { λ m. IsLaidOut (m.table.pages.count) m.table.fixed m.table.heap m.start m.end };
}

impl Mem {
    /// The memory that a guest starts with: the image's pages, 256 pages of stack that end at 0xC0000000, and the
    /// break where the heap begins.
    pub fn from_image(alloc: Global, image: &Image) -> Result<Mem, NoMemory>
        ensures { IfOk result (λ m. m ≡ opening image.now) }
    {
        let shared = image.shared()?;
        let mut pages = Pages::of_image(alloc, shared, STACK_PAGES as usize)?;
        pages.push_zeros(STACK_FIRST, STACK_PAGES);
        let start = image.start();
        Ok(Mem {
            table: PageTable::new(pages, pages_to(start)),
            start,
            end: start,
        })
    }

    /// The byte at `at`, in a page that may be read.
    #[inline]
    pub fn load8(&self, at: u32) -> Result<u8, Bad>
        ensures { MatchResult result (λ value. load Right.Read 1 self.now at ≡ Some value)
            (λ _. load Right.Read 1 self.now at ≡ None) }
    {
        self.table.byte(Right::Read, at)
    }

    /// The number in the 2 bytes from `at` on, low byte first, in pages that may be read.
    #[inline]
    pub fn load16(&self, at: u32) -> Result<u16, Bad>
        ensures { MatchResult result (λ value. load Right.Read 2 self.now at ≡ Some value)
            (λ _. load Right.Read 2 self.now at ≡ None) }
    {
        self.table.half(Right::Read, at)
    }

    /// The number in the 4 bytes from `at` on, low byte first, in pages that may be read.
    #[inline]
    pub fn load32(&self, at: u32) -> Result<u32, Bad>
        ensures { MatchResult result (λ value. load Right.Read 4 self.now at ≡ Some value)
            (λ _. load Right.Read 4 self.now at ≡ None) }
    {
        self.table.word(Right::Read, at)
    }

    /// The number in the 4 bytes from `at` on, low byte first, in pages that may be executed. The page that the hint names is
    /// tried first; the answer is the same for every hint.
    #[inline]
    pub fn fetch(&self, at: u32, hint: &mut FetchHint) -> Result<u32, Bad>
        ensures { MatchResult result (λ value. load Right.Execute 4 self.now at ≡ Some value)
            (λ _. load Right.Execute 4 self.now at ≡ None) }
    {
        self.table.fetch(at, hint)
    }

    /// The page with this number, where it may be executed and not written, apart from this memory; none perhaps where there is one.
    /// The page that the hint names is tried first; what the page has is the same for every hint.
    #[inline]
    pub fn code_page(&self, number: u32, hint: &mut FetchHint) -> Option<CodePage>
        requires { number < 2 ^ 20 }
        ensures { IfSome result (λ page. IsCode self.now.cells number page) }
    {
        self.table.code_page(number, hint)
    }

    /// Puts the 1 byte of `value` at `at`.
    #[inline]
    pub fn store8(&mut self, at: u32, value: u8) -> Result<(), Bad>
        ensures ok { OnOk result (store 1 self.old at value ≡ Some self.new) }
        ensures bad { OnErr result (store 1 self.old at value ≡ None) }
        ensures unchanged { OnErr result (self.new ≡ self.old) }
    {
        self.table.put_within(at, &value.to_le_bytes())
    }

    /// Puts the 2 bytes of `value` at `at`, low byte first.
    // Two arrays: that of the first way stays in a register.
    #[inline(always)]
    pub fn store16(&mut self, at: u32, value: u16) -> Result<(), Bad>
        ensures ok { OnOk result (store 2 self.old at value ≡ Some self.new) }
        ensures bad { OnErr result (store 2 self.old at value ≡ None) }
        ensures unchanged { OnErr result (self.new ≡ self.old) }
    {
        if at % PAGE_SIZE <= PAGE_SIZE - 2 {
            self.table.put_within(at, &value.to_le_bytes())
        } else {
            self.table.copy_in(at, &value.to_le_bytes())
        }
    }

    /// Puts the 4 bytes of `value` at `at`, low byte first.
    // Two arrays: that of the first way stays in a register.
    #[inline(always)]
    pub fn store32(&mut self, at: u32, value: u32) -> Result<(), Bad>
        ensures ok { OnOk result (store 4 self.old at value ≡ Some self.new) }
        ensures bad { OnErr result (store 4 self.old at value ≡ None) }
        ensures unchanged { OnErr result (self.new ≡ self.old) }
    {
        if at % PAGE_SIZE <= PAGE_SIZE - 4 {
            self.table.put_within(at, &value.to_le_bytes())
        } else {
            self.table.copy_in(at, &value.to_le_bytes())
        }
    }

    /// Whether each of the `size` bytes from `at` on is mapped with the right. A span of no bytes
    /// is open anywhere.
    pub fn is_open(&self, right: Right, at: u32, size: usize) -> bool
        ensures { result ≡ is_some (read right size self.now at) }
    {
        self.table.is_open(right, at, size)
    }

    /// Writes `bytes` into the guest's memory from `at` on. No bytes can be written anywhere.
    pub fn copy_in(&mut self, at: u32, bytes: &[u8]) -> Result<(), Bad>
        ensures ok { OnOk result (write self.old at bytes.now ≡ Some self.new) }
        ensures bad { OnErr result (write self.old at bytes.now ≡ None) }
        ensures unchanged { OnErr result (self.new ≡ self.old) }
    {
        self.table.copy_in(at, bytes)
    }

    /// Fills `into` from the guest's memory from `at` on. No bytes can be read anywhere.
    pub fn copy_out(&self, at: u32, into: &mut [u8]) -> Result<(), Bad>
        ensures ok { OnOk result (read Right.Read (length into.old) self.now at ≡ Some into.new) }
        ensures bad { OnErr result (read Right.Read (length into.old) self.now at ≡ None) }
        ensures unchanged { OnErr result (into.new ≡ into.old) }
    {
        self.table.copy_out(Right::Read, at, into)
    }

    /// Moves the break to `to`, where it may stand there, and answers where it then stands.
    pub fn grow_break(&mut self, to: u32) -> Result<u32, NoMemory>
        ensures moved { OnOk result (self.new ≡ grown self.old to) }
        ensures answer { IfOk result (λ standing. standing ≡ self.new.break) }
        ensures unchanged { OnErr result (self.new ≡ self.old) }
    {
        let standing = pages_to(self.end);
        let wanted = pages_to(to);
        if to < self.start || wanted > HEAP_LIMIT {
            return Ok(self.end);
        }
        if wanted <= standing {
            self.table.shrink(standing - wanted);
        } else {
            let more = wanted - standing;
            if self.table.pages.len() + more as usize > PAGE_LIMIT {
                return Ok(self.end);
            }
            self.table.grow(more)?;
        }
        self.end = to;
        Ok(to)
    }
}

/// How many pages lie below an address, the last one perhaps in part.
fn pages_to(at: u32) -> u32
    ensures { result ≡ pages_to at }
{
    ((u64::from(at) + 4095) / 4096) as u32
}
