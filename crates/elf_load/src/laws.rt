//! Laws of the definitions: a file that is written is read as what was written.

ghost use Rattle.std.specs.Prelude.{◌≡◌, ℕ, ◌+◌, ◌*◌, ◌<◌, ◌≤◌, ◌^◌, List, None, length, drop};
ghost use Rattle.std.specs.List.{AllByRecursion};
ghost use Rattle.elf_load.specs.Elf.{elf_header, program_headers};
ghost use Rattle.elf_load.specs.File.{executable};
ghost use Rattle.elf_load.specs.Image.{header_checks, first_fault};
ghost use Rattle.elf_load.specs.Laws.{Fits};
ghost use Rattle.elf_load.specs.Room.{max_program_headers};
ghost use Rattle.elf_load.specs.Standard.{elf_header_size, program_header_size};
ghost use Rattle.elf_load.specs.declared.program_header.ProgramHeader.{ProgramHeader};

/// A file that is written has its entry, its program headers and the bytes behind them, where each
/// number fits its field; with at most 64 program headers its header is sound.
pub fn reads_back()
    ensures entry { (entry : ℕ) (headers : List ProgramHeader) (behind : List ℕ) → entry < 2 ^ 32 → (elf_header (executable entry headers behind)).entry ≡ entry }
    ensures headers { (entry : ℕ) (headers : List ProgramHeader) (behind : List ℕ) → length headers < 2 ^ 16 → AllByRecursion Fits headers → program_headers (executable entry headers behind) ≡ headers }
    ensures behind { (entry : ℕ) (headers : List ProgramHeader) (behind : List ℕ) → drop (elf_header_size + program_header_size * length headers) (executable entry headers behind) ≡ behind }
    ensures sound { (entry : ℕ) (headers : List ProgramHeader) (behind : List ℕ) → length headers ≤ max_program_headers → first_fault (header_checks (executable entry headers behind)) ≡ None }
{}
