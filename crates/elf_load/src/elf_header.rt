//! The ELF header.

ghost use Rattle.std.specs.Prelude.{◌≡◌, ◌+◌, ◌*◌, ◌≤◌, length, IfOk, IfErr, Some, None};
ghost use Rattle.elf_load.specs.Elf.{elf_header};
ghost use Rattle.elf_load.specs.Image.{header_checks, first_fault};
ghost use Rattle.elf_load.specs.Room.{max_program_headers};
ghost use Rattle.elf_load.specs.Standard.{elf_header_size, program_header_size};

use crate::fault::ElfFault;
use crate::fields::{half, word};
use crate::program_header::ProgramHeader;

/// The fields of the ELF header that a load looks at (System V gABI, "ELF Header").
#[derive(Clone, Copy)]
pub(crate) struct ElfHeader {
    /// `e_ident[EI_CLASS]`
    pub class: u8,
    /// `e_ident[EI_DATA]`
    pub data_encoding: u8,
    /// `e_type`
    pub kind: u16,
    /// `e_machine`
    pub machine: u16,
    /// `e_entry`
    pub entry: u32,
    /// `e_phoff`, where the program headers begin
    pub table: u32,
    /// `e_flags`
    pub flags: u32,
    /// `e_phentsize`
    pub entry_size: u16,
    /// `e_phnum`, the number of program headers
    pub count: u16,
}

impl ElfHeader {
    /// The size in a file.
    pub const SIZE: usize = 52;

    const MAGIC: [u8; 4] = [0x7F, b'E', b'L', b'F'];

    const CLASS_32: u8 = 1;

    const LITTLE_ENDIAN: u8 = 1;

    const EXECUTABLE: u16 = 2;

    const RISC_V: u16 = 243;

    /// `EF_RISCV_RVC`, `EF_RISCV_FLOAT_ABI` and `EF_RISCV_RVE`
    const REFUSED_FLAGS: u32 = 0x1 + 0x6 + 0x8;

    /// Most program headers.
    const MAX_COUNT: u16 = 64;

    fn parse(bytes: &[u8]) -> ElfHeader
        requires { elf_header_size ≤ length bytes.now }
        ensures { result ≡ elf_header bytes.now }
    {
        ElfHeader {
            class: bytes[4],
            data_encoding: bytes[5],
            kind: half(bytes, 16),
            machine: half(bytes, 18),
            entry: word(bytes, 24),
            table: word(bytes, 28),
            flags: word(bytes, 36),
            entry_size: half(bytes, 42),
            count: half(bytes, 44),
        }
    }

    /// The place behind the last program header.
    fn table_end(&self) -> u64
        ensures { result ≡ self.now.table + program_header_size * self.now.count }
    {
        u64::from(self.table) + 32 * u64::from(self.count)
    }

    /// The header of a file whose header and table of program headers are sound.
    #[tactic(auto, unfolding(crate::specs::Image::header_checks))]
    pub(crate) fn read(bytes: &[u8]) -> Result<ElfHeader, ElfFault>
        ensures header { IfOk result (λ h. h ≡ elf_header bytes.now) }
        ensures sound { IfOk result (λ _. first_fault (header_checks bytes.now) ≡ None) }
        ensures table { IfOk result (λ h. h.table + program_header_size * h.count ≤ length bytes.now) }
        ensures few { IfOk result (λ h. h.count ≤ max_program_headers) }
        ensures fault { IfErr result (λ fault. first_fault (header_checks bytes.now) ≡ Some fault) }
    {
        if bytes.len() < Self::SIZE {
            return Err(ElfFault::Truncated);
        }
        let header = Self::parse(bytes);
        if !bytes.starts_with(&Self::MAGIC) {
            return Err(ElfFault::Magic);
        }
        if header.class != Self::CLASS_32 || header.data_encoding != Self::LITTLE_ENDIAN {
            return Err(ElfFault::Class);
        }
        if header.machine != Self::RISC_V {
            return Err(ElfFault::Machine);
        }
        if header.kind != Self::EXECUTABLE
            || (header.count > 0 && header.entry_size != ProgramHeader::SIZE)
        {
            return Err(ElfFault::Kind);
        }
        if header.flags & Self::REFUSED_FLAGS != 0 {
            return Err(ElfFault::Flags);
        }
        if header.count > Self::MAX_COUNT {
            return Err(ElfFault::Range);
        }
        if (bytes.len() as u64) < header.table_end() {
            return Err(ElfFault::Truncated);
        }
        Ok(header)
    }
}
