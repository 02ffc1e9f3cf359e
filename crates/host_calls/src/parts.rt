//! What calls answer.

use file_calls::Why;
use sim_base::State;

/// What a call answers.
#[derive(Clone, Copy)]
pub enum Answer {
    /// This value, or the negative of an error number.
    Value(u32),
    /// The process waits.
    Block(Why),
    /// The process has ended in this state, and its descriptors are closed.
    End(State),
}

/// What a row of the table answers that isn't refused.
#[derive(Clone, Copy)]
pub enum Reaction {
    Value(u32),
    /// The call has acted, and waits: a connection is sought.
    Waits,
}
