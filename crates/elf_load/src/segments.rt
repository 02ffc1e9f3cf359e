//! What the segments of a file have together.

ghost use Rattle.std.specs.Prelude.{◌≡◌, ◌≤◌, OnOk, IfErr, Some, None};
ghost use Rattle.std.specs.List.{list_any};
ghost use Rattle.elf_load.specs.Image.{entry_checks, first_fault};
ghost use Rattle.elf_load.specs.Pages as spec;
ghost use Rattle.elf_load.specs.Room.{room_end};

use crate::fault::ElfFault;
use crate::program_header::ProgramHeader;
use crate::rights::Rights;

/// Whether a segment shares a byte with one of others.
pub(crate) fn shares_a_byte(segment: &ProgramHeader, others: &[ProgramHeader]) -> bool
    ensures { result ≡ list_any (spec.share_a_byte segment.now) others.now }
{
    others.iter().any(|other| segment.shares_a_byte_with(other))
}

/// The rights to a page.
pub(crate) fn rights_at(segments: &[ProgramHeader], page: u32) -> Rights
    ensures { result ≡ spec.rights_at segments.now page }
{
    segments.iter().fold(Rights::none(), |rights, segment| {
        if segment.touches(page) {
            rights.union(segment.rights())
        } else {
            rights
        }
    })
}

/// Whether the entry is where instructions may be.
pub(crate) fn check_entry(entry: u32, segments: &[ProgramHeader]) -> Result<(), ElfFault>
    ensures sound { OnOk result (first_fault (entry_checks entry segments.now) ≡ None) }
    ensures refused { IfErr result (λ fault. first_fault (entry_checks entry segments.now) ≡ Some fault) }
{
    if entry % 4 != 0 || !rights_at(segments, entry / 4096).execute {
        return Err(ElfFault::Entry);
    }
    Ok(())
}

/// The first break: the highest end of a segment, rounded up to a page.
pub(crate) fn first_break(segments: &[ProgramHeader]) -> u32
    requires { spec.highest_end segments.now ≤ room_end }
    ensures { result ≡ spec.rounded_up (spec.highest_end segments.now) }
{
    let end = segments
        .iter()
        .fold(0, |high: u64, segment| high.max(segment.end()));
    ((end + 4095) / 4096 * 4096) as u32
}
