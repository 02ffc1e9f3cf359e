//! Where the next fetch is tried first.

/// The place of the page that a fetch hit last. It is a guess that is tested, so that any hint serves for any memory.
#[derive(Clone, Copy)]
pub struct FetchHint {
    pub(crate) place: usize,
}

impl FetchHint {
    /// The hint of one that fetched nothing yet.
    pub fn new() -> FetchHint {
        FetchHint { place: 0 }
    }
}
