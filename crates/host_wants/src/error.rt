//! Why a call does not answer.

ghost use Rattle.std.specs.Prelude.{◌≡◌};

use sim_base::{Errno, NoMemory, State, Time};
use std::alloc::AllocError;

/// Why a call does not answer what it was asked for.
#[derive(Clone, Copy)]
pub enum Refusal {
    /// It is refused by this number.
    Errno(Errno),
    /// It answers the error that a connection kept, which it takes.
    Kept(Errno),
    /// It waits, until this moment at the latest where there is one.
    Wait(Option<Time>),
    /// It ends the process, which is in this state afterwards.
    End(State),
}

/// Why a call gave no answer.
#[derive(Clone, Copy)]
pub enum CallError {
    /// It is refused, or waits, or ends the process.
    Refused(Refusal),
    /// There was no memory for it.
    NoMemory,
}

impl From<Refusal> for CallError {
    ghost use Rattle.host_wants.specs.declared.error.CallError.TheVariants as error;

    ghost from_gives = { λ refusal e. e ≡ error.Refused refusal };

    fn from(refusal: Refusal) -> CallError {
        CallError::Refused(refusal)
    }
}

impl From<Errno> for CallError {
    ghost use Rattle.host_wants.specs.declared.error.CallError.TheVariants as error;
    ghost use Rattle.host_wants.specs.declared.error.Refusal.TheVariants as refusal;

    ghost from_gives = { λ errno e. e ≡ error.Refused (refusal.Errno errno) };

    fn from(errno: Errno) -> CallError {
        CallError::Refused(Refusal::Errno(errno))
    }
}

impl From<Errno> for Refusal {
    ghost use Rattle.host_wants.specs.declared.error.Refusal.TheVariants as refusal;

    ghost from_gives = { λ errno r. r ≡ refusal.Errno errno };

    fn from(errno: Errno) -> Refusal {
        Refusal::Errno(errno)
    }
}

impl From<NoMemory> for CallError {
    ghost use Rattle.host_wants.specs.declared.error.CallError.TheVariants as error;

    ghost from_gives = { λ _ e. e ≡ error.NoMemory };

    fn from(_want: NoMemory) -> CallError {
        CallError::NoMemory
    }
}

impl From<AllocError> for CallError {
    ghost use Rattle.host_wants.specs.declared.error.CallError.TheVariants as error;

    ghost from_gives = { λ _ e. e ≡ error.NoMemory };

    fn from(_e: AllocError) -> CallError {
        CallError::NoMemory
    }
}
