//! What was put.

/// A parcel that was put for a host, and the number that was claimed for it among the host's.
pub struct Entry<T> {
    pub host: u32,
    pub number: u64,
    pub parcel: T,
}

/// A number that was claimed for a parcel of a host.
#[derive(Clone, Copy)]
pub struct Claim {
    pub host: u32,
    pub number: u64,
}
