//! Why hosts have no routes.

ghost use Rattle.std.specs.Prelude.{◌≡◌};
ghost use Rattle.net_routes.specs.declared.error.RouteError.TheVariants as errors;

use sim_base::NoMemory;
use std::alloc::{AllocError, AllocFailed};

/// Why there are no routes.
#[derive(Clone, Copy, Debug)]
pub enum RouteError {
    /// No walk leads from the one node to the other, by which a route that is needed could go.
    NoRoute { from: u32, to: u32 },
    /// There was no memory for the routes.
    NoMemory,
}

impl From<NoMemory> for RouteError {
    ghost from_gives = { λ _ e. e ≡ errors.NoMemory };

    fn from(_e: NoMemory) -> RouteError {
        RouteError::NoMemory
    }
}

impl From<AllocError> for RouteError {
    ghost from_gives = { λ _ e. e ≡ errors.NoMemory };

    fn from(_e: AllocError) -> RouteError {
        RouteError::NoMemory
    }
}

impl<T: Drop> From<AllocFailed<T>> for RouteError {
    ghost from_gives = { λ _ e. e ≡ errors.NoMemory };

    fn from(_e: AllocFailed<T>) -> RouteError {
        RouteError::NoMemory
    }
}
