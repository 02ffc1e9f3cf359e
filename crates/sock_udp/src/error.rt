//! Why a datagram was not sent.

ghost use Rattle.std.specs.Prelude.{◌≡◌};

use sim_base::{Errno, NoMemory};
use std::alloc::AllocError;

/// Why a datagram was not sent.
#[derive(Clone, Copy, Debug, PartialEq, Eq)]
pub enum UdpError {
    /// The call is refused.
    Errno(Errno),
    /// There was no memory for it.
    NoMemory,
}

impl From<Errno> for UdpError {
    ghost use Rattle.sock_udp.specs.declared.error.UdpError.TheVariants as error;

    ghost from_gives = { λ errno e. e ≡ error.Errno errno };

    fn from(errno: Errno) -> UdpError {
        UdpError::Errno(errno)
    }
}

impl From<NoMemory> for UdpError {
    ghost use Rattle.sock_udp.specs.declared.error.UdpError.TheVariants as error;

    ghost from_gives = { λ _ e. e ≡ error.NoMemory };

    fn from(_want: NoMemory) -> UdpError {
        UdpError::NoMemory
    }
}
