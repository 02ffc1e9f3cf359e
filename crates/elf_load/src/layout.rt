//! The segments of a file and the pages that they touch, as the program headers are read.

ghost use Rattle.std.specs.Prelude.{◌≡◌, ◌+◌, ◌*◌, ◌≤◌, ◌<◌, ◌++◌, [], ◌∷◌, ◌/◌, length, vec_len, IfOk, IfErr, OnOk, Some, None, if◌then◌else◌, nat_lt, All, fold};
ghost use Rattle.std.specs.Ordering.{nat_cmp};
ghost use Rattle.std.specs.FinSet as set;
ghost use Rattle.elf_load.specs.Elf.{elf_header, program_headers};
ghost use Rattle.elf_load.specs.Image.{program_header_checks, all_program_header_checks, first_fault};
ghost use Rattle.elf_load.specs.inside.Layout.{IsFound, IsListOf, IsPlaced, IsSound};
ghost use Rattle.elf_load.specs.Pages as spec;
ghost use Rattle.elf_load.specs.Room.{max_program_pages};
ghost use Rattle.elf_load.specs.Standard.{program_header_size};

use crate::elf_header::ElfHeader;
use crate::fault::{ElfFault, LoadError};
use crate::program_header::ProgramHeader;
use crate::segments::shares_a_byte;
use std::alloc::Global;

/// The segments, in the order of the file, and each page that they touch, once.
#[derive(Drop)]
pub(crate) struct Layout {
    pub segments: Vec<ProgramHeader>,
    pub pages: Vec<u32>,
}

/// Most pages that segments may touch.
const MAX_PAGES: usize = 3840;

/// The first page's end: no segment lies below it.
const FIRST_ADDRESS: u32 = 4096;

/// The end of the room for segments.
const LAST_END: u64 = 0xBF00_0000;

/// Adds the pages that a segment touches.
fn touch(pages: &mut Vec<u32>, segment: &ProgramHeader) -> Result<(), LoadError>
    requires few { vec_len pages.old ≤ max_program_pages }
    requires once { IsListOf pages.old.items pages.old.items }
    ensures listed { OnOk result (IsListOf pages.new.items (pages.old.items ++ spec.pages_of segment.now)) }
    ensures few { OnOk result (vec_len pages.new ≤ max_program_pages) }
    ensures many { IfErr result (IsFound (if nat_lt max_program_pages (set.len (set.from_list {R = nat_cmp} (pages.old.items ++ spec.pages_of segment.now))) then Some ElfFault.Range else None)) }
{
    for page in segment.first_page()..segment.last_page() + 1 {
        let number = page as u32;
        if !pages.contains(&number) {
            if pages.len() == MAX_PAGES {
                return Err(LoadError::Fault(ElfFault::Range));
            }
            pages.push(number)?;
        }
    }
    Ok(())
}

impl Layout {
    /// Reads the program headers of a file. Up to 64 of them, so that each may look at those before it.
    pub(crate) fn read(alloc: Global, bytes: &[u8], header: &ElfHeader) -> Result<Layout, LoadError>
        requires header { header.now ≡ elf_header bytes.now }
        requires table { header.now.table + program_header_size * header.now.count ≤ length bytes.now }
        ensures sound { IfOk result (IsSound bytes.now) }
        ensures segments { IfOk result (λ layout. layout.segments.items ≡ spec.segments (program_headers bytes.now)) }
        ensures checked { OnOk result (first_fault (all_program_header_checks bytes.now [] (program_headers bytes.now)) ≡ None) }
        ensures refused { IfErr result (IsFound (first_fault (all_program_header_checks bytes.now [] (program_headers bytes.now)))) }
    {
        let mut layout = Layout {
            segments: Vec::new(alloc),
            pages: Vec::new(alloc),
        };
        for index in 0..usize::from(header.count) {
            let at = header.table as usize + 32 * index;
            layout.add(bytes, ProgramHeader::parse(bytes, at))?;
        }
        Ok(layout)
    }

    /// Adds what a program header asks for, behind those before it. After an error the layout is of no use.
    #[tactic(auto, unfolding(crate::specs::Image::program_header_checks))]
    fn add(&mut self, bytes: &[u8], header: ProgramHeader) -> Result<(), LoadError>
        requires { IsSound bytes.now self.old }
        ensures sound { OnOk result (IsSound bytes.now self.new) }
        ensures segments { OnOk result (self.new.segments.items ≡ self.old.segments.items ++ spec.segments (header ∷ [])) }
        ensures checked { OnOk result (first_fault (program_header_checks bytes.now self.old.segments.items header) ≡ None) }
        ensures refused { IfErr result (IsFound (first_fault (program_header_checks bytes.now self.old.segments.items header))) }
    {
        if header.kind == ProgramHeader::INTERP {
            return Err(LoadError::Fault(ElfFault::Interp));
        }
        if header.kind == ProgramHeader::DYNAMIC {
            return Err(LoadError::Fault(ElfFault::Dynamic));
        }
        if !header.is_segment() {
            return Ok(());
        }
        if (bytes.len() as u64) < header.file_end() {
            return Err(LoadError::Fault(ElfFault::Truncated));
        }
        if header.file_size > header.memory_size
            || header.address < FIRST_ADDRESS
            || header.end() > LAST_END
        {
            return Err(LoadError::Fault(ElfFault::Range));
        }
        touch(&mut self.pages, &header)?;
        if shares_a_byte(&header, &self.segments) {
            return Err(LoadError::Fault(ElfFault::Overlap));
        }
        self.segments.push(header)?;
        Ok(())
    }
}
