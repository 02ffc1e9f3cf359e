//! What is read or written.

use crate::descriptors::Descriptor;

/// So many bytes at an address of the guest, and the file that they come from or go to.
#[derive(Clone, Copy)]
pub struct Transfer {
    pub d: Descriptor,
    pub at: u32,
    pub n: u32,
}
