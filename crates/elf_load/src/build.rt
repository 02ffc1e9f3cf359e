//! Makes the pages of an image.

ghost use Rattle.std.specs.Prelude.{◌≡◌, ℕ, ◌+◌, ◌*◌, ◌^◌, ◌≤◌, ◌<◌, length, All, IfOk, slice_index, unwrap_or, flat_map, map};
ghost use Rattle.elf_load.specs.inside.Build.{IsPageOf};
ghost use Rattle.elf_load.specs.Cells.{cells_of_page};
ghost use Rattle.elf_load.specs.Image.{file_byte, cells_on};
ghost use Rattle.elf_load.specs.inside.Layout.{IsPlaced};
ghost use Rattle.elf_load.specs.Room.{page_size};

use crate::page::{PAGE_SIZE, Page};
use crate::program_header::ProgramHeader;
use crate::segments::rights_at;
use std::alloc::{AllocError, Global};

/// Lays the bytes of the file that a segment has on a page, which begins at an address.
fn lay(page: &mut [u8], address: u64, bytes: &[u8], segment: &ProgramHeader)
    requires whole { length page.old ≡ page_size }
    requires in_range { address < 2 ^ 32 }
    requires in_file { segment.now.offset + segment.now.file_size ≤ length bytes.now }
    ensures laid { (offset : ℕ) → offset < page_size → slice_index page.new offset ≡ unwrap_or (file_byte bytes.now segment.now (address + offset)) (slice_index page.old offset) }
{
    let begin = address.max(u64::from(segment.address));
    let end = (address + PAGE_SIZE as u64).min(segment.filled_end());
    if begin < end {
        let length = (end - begin) as usize;
        let to = (begin - address) as usize;
        let from = segment.offset as usize + (begin - u64::from(segment.address)) as usize;
        page[to..to + length].copy_from_slice(&bytes[from..from + length]);
    }
}

/// The page with this number.
fn make_page(
    alloc: Global,
    bytes: &[u8],
    segments: &[ProgramHeader],
    number: u32,
) -> Result<Page, AllocError>
    requires placed { All (IsPlaced bytes.now) segments.now }
    requires in_range { number < 2 ^ 20 }
    ensures { IfOk result (IsPageOf bytes.now segments.now number) }
{
    let rights = rights_at(segments, number);
    let mut page = vec![in alloc; 0; PAGE_SIZE]?;
    for segment in segments {
        lay(&mut page, u64::from(number) * 4096, bytes, segment);
    }
    Ok(Page {
        number,
        rights,
        bytes: page,
    })
}

/// The pages with these numbers.
pub(crate) fn make_pages(
    alloc: Global,
    bytes: &[u8],
    segments: &[ProgramHeader],
    numbers: &[u32],
) -> Result<Vec<Page>, AllocError>
    requires placed { All (IsPlaced bytes.now) segments.now }
    requires in_range { All (λ number. number < 2 ^ 20) numbers.now }
    ensures cells { IfOk result (λ pages. flat_map cells_of_page pages.items ≡ flat_map (cells_on bytes.now segments.now) numbers.now) }
    ensures numbers { IfOk result (λ pages. map (λ page. page.number) pages.items ≡ numbers.now) }
{
    let mut pages = Vec::with_capacity(alloc, numbers.len())?;
    for number in numbers {
        pages.push(make_page(alloc, bytes, segments, *number)?)?;
    }
    Ok(pages)
}
