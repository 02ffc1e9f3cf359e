//! What is sent and received: flags, and places in a guest's memory.

ghost use Rattle.std.specs.Prelude.{◌≡◌};
ghost use Rattle.call_parts.specs.Sockets as spec;

use crate::sockets::result_address;
use file_calls::{MSG_DONTWAIT, beside_message, has};
use guest_args::{AddressPlace, counted};
use guest_mem::{Mem, Right};
use host_wants::Refusal;
use sim_base::Errno;

/// What is sent: so many bytes from an address on, and the address that is given beside them, if
/// its pointer isn't null.
#[derive(Clone, Copy)]
pub struct Message {
    pub at: u32,
    pub n: u32,
    pub to_at: u32,
    pub size: u32,
}

/// Where what is received goes: so many bytes to an address, and the sender's address.
#[derive(Clone, Copy)]
pub struct Room {
    pub at: u32,
    pub n: u32,
    pub from_at: u32,
    pub size_at: u32,
}

/// MSG_DONTWAIT and MSG_NOSIGNAL alone may be given.
pub fn refuse_flags(flags: u32) -> Result<(), Refusal>
    ensures { result ≡ spec.refuse_flags flags }
{
    if beside_message(flags) != 0 {
        return Err(Refusal::Errno(Errno::Einval));
    }
    Ok(())
}

/// Whether a call answers EAGAIN where it would wait.
pub fn is_quick(nonblocking: bool, flags: u32) -> bool
    ensures { result ≡ spec.is_quick nonblocking flags }
{
    nonblocking || has(MSG_DONTWAIT, flags)
}

/// What refuses a place for what is received, or where the sender's address goes.
pub fn recv_place(room: Room, memory: &Mem) -> Result<Option<AddressPlace>, Refusal>
    ensures { result ≡ spec.recv_place room memory.now }
{
    if !memory.is_open(Right::Write, room.at, counted(room.n)) {
        return Err(Refusal::Errno(Errno::Efault));
    }
    result_address(memory, room.from_at, room.size_at)
}
