//! Loads an ELF file.

ghost use Rattle.std.specs.Prelude.{◌≡◌, Ok, IfOk, IfErr};
ghost use Rattle.elf_load.specs.Image.{image, IsRefusal};

use crate::build::make_pages;
use crate::elf_header::ElfHeader;
use crate::fault::LoadError;
use crate::image::Image;
use crate::layout::Layout;
use crate::segments::{check_entry, first_break};
use crate::shared::share;
use std::alloc::Global;

/// The program image of a file, or its first fault, which is found before a page is made.
pub fn load(alloc: Global, bytes: &[u8]) -> Result<Image, LoadError>
    ensures loaded { IfOk result (λ loaded. image bytes.now ≡ Ok loaded) }
    ensures refused { IfErr result (IsRefusal (image bytes.now)) }
{
    let header = ElfHeader::read(bytes)?;
    let layout = Layout::read(alloc, bytes, &header)?;
    check_entry(header.entry, &layout.segments)?;
    let start = first_break(&layout.segments);
    let pages = make_pages(alloc, bytes, &layout.segments, &layout.pages)?;
    let shared = share(alloc, pages)?;
    Ok(Image::new(shared, header.entry, start))
}
