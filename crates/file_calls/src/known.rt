//! What hosts know.

use sim_base::{Book, Bytes};

/// What all hosts know: the book of their addresses, and the text of `/etc/hosts`.
#[derive(Drop)]
pub struct Known {
    pub book: Book,
    pub hosts: Bytes,
}
