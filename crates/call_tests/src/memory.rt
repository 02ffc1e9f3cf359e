//! A guest's memory with pages of each right.

use elf_load::{ProgramHeader, executable, load};
use guest_mem::Mem;
use std::alloc::Global;
use std::test::Fail;

/// A page that may be read.
pub const READABLE: u32 = 0x11000;

/// A page behind it that may be written and not read.
pub const WRITABLE: u32 = 0x12000;

/// A page that may be read and written.
pub const OPEN: u32 = 0x14000;

/// One past the stack, which may be read and written, and the last mapped address.
pub const END: u32 = 0xC000_0000;

/// Segments: address, size and flags (PF_X 1, PF_W 2, PF_R 4).
const SEGMENTS: [[u32; 3]; 4] = [
    [0x10000, 0x1000, 5],
    [READABLE, 0x1000, 4],
    [WRITABLE, 0x1000, 2],
    [OPEN, 0x1000, 6],
];

/// The memory of these segments, with zeros.
pub fn memory(alloc: Global) -> Result<Mem, Fail> {
    let headers = SEGMENTS.map(|[address, memory_size, flags]| ProgramHeader {
        kind: ProgramHeader::LOAD,
        offset: 0,
        address,
        file_size: 0,
        memory_size,
        flags,
    });
    let file = executable(alloc, 0x10000, &headers, &[])?;
    let image = load(alloc, &file)?;
    Ok(Mem::from_image(alloc, &image)?)
}
