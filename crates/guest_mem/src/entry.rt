//! What a page's place says of it.

ghost use Rattle.std.specs.Prelude.{◌^◌, ◌<◌};

use elf_load::Rights;

/// A page's number, its rights, and the slot that its bytes stand in.
#[derive(Drop)]
pub(crate) struct Entry {
    pub number: u32,
    pub rights: Rights,
    pub slot: u16,
    pub ghost in_range: { number < 2 ^ 20 },
}
