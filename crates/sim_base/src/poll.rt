//! What a descriptor is ready for, by the bits of `poll(2)`.

/// There is something to read, or its end.
pub const POLLIN: u16 = 1;

/// There is room to write.
pub const POLLOUT: u16 = 4;

/// An error is pending.
pub const POLLERR: u16 = 8;

/// The other end has gone.
pub const POLLHUP: u16 = 16;

/// The descriptor is not open.
pub const POLLNVAL: u16 = 32;

/// The peer has ended its writing.
pub const POLLRDHUP: u16 = 0x2000;
