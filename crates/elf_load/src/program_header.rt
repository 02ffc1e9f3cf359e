//! A program header, and the segment that it asks for.

ghost use Rattle.std.specs.Prelude.{◌≡◌, ◌+◌, ◌^◌, ◌<◌, ◌≤◌, length};
ghost use Rattle.elf_load.specs.Elf.{program_header};
ghost use Rattle.elf_load.specs.Pages as spec;
ghost use Rattle.elf_load.specs.Standard.{program_header_size};

use crate::fields::word;
use crate::rights::Rights;

/// A program header (System V gABI, "Program Header").
#[derive(Clone, Copy)]
pub struct ProgramHeader {
    /// `p_type`
    pub kind: u32,
    /// `p_offset`, where the segment's bytes begin in the file
    pub offset: u32,
    /// `p_vaddr`
    pub address: u32,
    /// `p_filesz`
    pub file_size: u32,
    /// `p_memsz`
    pub memory_size: u32,
    /// `p_flags`
    pub flags: u32,
}

impl ProgramHeader {
    /// The size in a file.
    pub const SIZE: u16 = 32;

    /// `PT_LOAD`
    pub const LOAD: u32 = 1;
    /// `PT_DYNAMIC`
    pub const DYNAMIC: u32 = 2;
    /// `PT_INTERP`
    pub const INTERP: u32 = 3;

    /// `PF_X`
    const EXECUTE: u32 = 1;
    /// `PF_W`
    const WRITE: u32 = 2;
    /// `PF_R`
    const READ: u32 = 4;

    /// The program header at a place of the file.
    pub(crate) fn parse(bytes: &[u8], at: usize) -> ProgramHeader
        requires { at + program_header_size ≤ length bytes.now }
        ensures { result ≡ program_header bytes.now at }
    {
        ProgramHeader {
            kind: word(bytes, at),
            offset: word(bytes, at + 4),
            address: word(bytes, at + 8),
            file_size: word(bytes, at + 16),
            memory_size: word(bytes, at + 20),
            flags: word(bytes, at + 24),
        }
    }

    /// Whether it asks for a segment that takes memory.
    pub(crate) fn is_segment(&self) -> bool
        ensures { result ≡ spec.is_segment self.now }
    {
        self.kind == Self::LOAD && self.memory_size > 0
    }

    /// The place in the file behind the segment's last byte.
    pub(crate) fn file_end(&self) -> u64
        ensures { result ≡ self.now.offset + self.now.file_size }
    {
        u64::from(self.offset) + u64::from(self.file_size)
    }

    /// The address behind the segment's last byte from the file.
    pub(crate) fn filled_end(&self) -> u64
        ensures { result ≡ self.now.address + self.now.file_size }
    {
        u64::from(self.address) + u64::from(self.file_size)
    }

    /// The address behind the segment's last byte.
    pub(crate) fn end(&self) -> u64
        ensures value { result ≡ spec.end_of self.now }
        ensures in_range { result < 2 ^ 33 }
    {
        u64::from(self.address) + u64::from(self.memory_size)
    }

    /// The number of the first page that it touches.
    pub(crate) fn first_page(&self) -> u64
        ensures value { result ≡ spec.first_page self.now }
        ensures in_range { result < 2 ^ 20 }
    {
        u64::from(self.address) / 4096
    }

    /// The number of the last page that it touches.
    pub(crate) fn last_page(&self) -> u64
        ensures value { result ≡ spec.last_page self.now }
        ensures in_range { result < 2 ^ 21 }
    {
        self.end().saturating_sub(1) / 4096
    }

    /// Whether it touches a page.
    pub(crate) fn touches(&self, page: u32) -> bool
        ensures { result ≡ spec.touches self.now page }
    {
        let page = u64::from(page);
        self.first_page() <= page && page <= self.last_page()
    }

    /// Whether two segments share a byte.
    pub(crate) fn shares_a_byte_with(&self, other: &ProgramHeader) -> bool
        ensures { result ≡ spec.share_a_byte self.now other.now }
    {
        u64::from(self.address) < other.end() && u64::from(other.address) < self.end()
    }

    /// The rights that it asks for.
    pub(crate) fn rights(&self) -> Rights
        ensures { result ≡ spec.rights_of self.now }
    {
        Rights {
            read: self.flags & Self::READ != 0,
            write: self.flags & Self::WRITE != 0,
            execute: self.flags & Self::EXECUTE != 0,
        }
    }
}
