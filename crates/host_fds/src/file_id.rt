//! The number of an open file.

/// A host's own number of an open file, which a descriptor names.
#[derive(Clone, Copy)]
pub struct FileId {
    pub number: u64,
}
