//! A RISC-V machine of the base integer instruction set RV32I with the extensions M, A and Zifencei.
//!
//! The manual that the comments cite is The RISC-V Instruction Set Manual, Volume I: Unprivileged ISA. Where it leaves
//! a choice to the execution environment, this project's own profile decides: an access or a fetch that the memory
//! doesn't allow is SIGSEGV, a jump or an atomic access to an address that isn't a multiple of 4 SIGBUS, any other word
//! SIGILL. There is one hart: a reservation ends by `SC.W` and `ECALL` alone.
#![tactic(auto)]

mod ahead;
mod arithmetic;
mod atomics;
mod cpu;
mod encoding;
mod execution;
mod instruction;
pub mod laws;
mod outcome;
mod quiet;
mod steps;
mod turns;
mod word;

pub use cpu::Cpu;
pub use encoding::decode;
pub use execution::step;
pub use instruction::{Amo, Branch, Insn, Load, Operation, Store};
pub use outcome::{Outcome, TurnEnd};
pub use steps::Steps;
pub use turns::turn;
