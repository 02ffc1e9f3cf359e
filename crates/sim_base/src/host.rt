//! The number of a host.

/// A host's place in the byte order of the hosts' names, from 0.
#[derive(Clone, Copy, PartialEq, Eq)]
pub struct HostId {
    pub index: u32,
}
