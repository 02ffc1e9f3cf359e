//! How an instruction and a turn end.

use sim_base::Signal;

/// How an instruction ends.
#[derive(Clone, Copy)]
pub enum Outcome {
    /// The next instruction follows.
    Next,
    /// It was `ECALL`. The program counter stands behind it.
    Call,
    /// It traps: the state is as it was before it.
    Trap(Signal),
}

/// How a turn ends.
#[derive(Clone, Copy)]
pub enum TurnEnd {
    /// An instruction was `ECALL`. The program counter stands behind it.
    Call,
    /// An instruction traps: the state is as it was before it.
    Trap(Signal),
    /// The budget ran, and no instruction called or trapped.
    Spent,
}
