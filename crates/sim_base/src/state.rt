//! The state of a process, as its last line tells it.

use crate::signal::Signal;

/// The state of a process.
#[derive(Clone, Copy)]
pub enum State {
    /// Its start has not come.
    NotStarted,
    /// It runs or is blocked.
    Running,
    /// It ended by an exit with this status.
    Exited(u8),
    /// It was ended by this signal.
    Signaled(Signal),
}
