//! A page of memory: 4,096 bytes with the same rights.

ghost use Rattle.std.specs.Prelude.{◌≡◌, ◌^◌, ◌<◌, length, vec_len};
ghost use Rattle.elf_load.specs.Room.{page_size};

use crate::rights::Rights;

/// The bytes of a page.
pub const PAGE_SIZE: usize = 4096;

/// Page `number` has the addresses from `number * 4096` on, below 2^32.
#[derive(Drop)]
pub struct Page {
    pub number: u32,
    pub rights: Rights,
    pub bytes: Vec<u8>,
    pub ghost in_range: { number < 2 ^ 20 },
    pub ghost is_whole: { vec_len bytes ≡ page_size },
}
