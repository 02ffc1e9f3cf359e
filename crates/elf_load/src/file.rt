//! Writes an ELF file.

ghost use Rattle.std.specs.Prelude.{◌≡◌, ◌++◌, IfOk, OnOk};
ghost use Rattle.elf_load.specs.File as spec;

use crate::program_header::ProgramHeader;
use std::alloc::{AllocError, Global};

/// Adds two-byte numbers, low byte first.
fn put_halves(file: &mut Vec<u8>, halves: &[u16]) -> Result<(), AllocError>
    ensures { OnOk result (file.new.items ≡ file.old.items ++ spec.halves halves.now) }
{
    for half in halves {
        file.extend_from_slice(&half.to_le_bytes())?;
    }
    Ok(())
}

/// Adds four-byte numbers, low byte first.
fn put_words(file: &mut Vec<u8>, words: &[u32]) -> Result<(), AllocError>
    ensures { OnOk result (file.new.items ≡ file.old.items ++ spec.words words.now) }
{
    for word in words {
        file.extend_from_slice(&word.to_le_bytes())?;
    }
    Ok(())
}

/// Adds the ELF header (System V gABI, "ELF Header").
fn put_elf_header(file: &mut Vec<u8>, entry: u32, count: u16) -> Result<(), AllocError>
    ensures { OnOk result (file.new.items ≡ file.old.items ++ spec.elf_header entry count) }
{
    file.extend_from_slice(b"\x7fELF\x01\x01\x01\0\0\0\0\0\0\0\0\0")?;
    put_halves(file, &[2, 243])?;
    put_words(file, &[1, entry, 52, 0, 0])?;
    put_halves(file, &[52, 32, count, 0, 0, 0])
}

/// Adds a program header (System V gABI, "Program Header").
fn put_program_header(file: &mut Vec<u8>, header: &ProgramHeader) -> Result<(), AllocError>
    ensures { OnOk result (file.new.items ≡ file.old.items ++ spec.program_header header.now) }
{
    put_words(
        file,
        &[
            header.kind,
            header.offset,
            header.address,
            0,
            header.file_size,
            header.memory_size,
            header.flags,
            4096,
        ],
    )
}

/// The bytes of an executable for RISC-V: its ELF header with this entry, the program headers, and what stands behind them.
///
/// The bytes behind begin at 52 + 32 times the number of program headers. `e_phnum` is that number modulo 65,536.
#[tactic(auto, unfolding(crate::specs::File::executable))]
pub fn executable(
    alloc: Global,
    entry: u32,
    headers: &[ProgramHeader],
    behind: &[u8],
) -> Result<Vec<u8>, AllocError>
    ensures { IfOk result (λ file. file.items ≡ spec.executable entry headers.now behind.now) }
{
    let mut file = Vec::new(alloc);
    put_elf_header(&mut file, entry, (headers.len() % 65536) as u16)?;
    for header in headers {
        put_program_header(&mut file, header)?;
    }
    file.extend_from_slice(behind)?;
    Ok(file)
}
