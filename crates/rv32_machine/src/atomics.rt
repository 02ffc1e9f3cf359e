//! The atomic instructions.
//!
//! RISC-V unprivileged manual, the chapter on the extension A.

ghost use Rattle.std.specs.Prelude.{◌≡◌};
ghost use Rattle.rv32_machine.specs.Table.{effect, state, after};

use crate::arithmetic::modified;
use crate::cpu::Cpu;
use crate::instruction::{Amo, Insn};
use crate::outcome::Outcome;
use crate::word::{is_aligned, rs1, rs2};
use guest_mem::Mem;
use sim_base::Signal;

/// `LR.W`.
pub fn load_reserved(word: u32, cpu: &mut Cpu, mem: &Mem) -> Outcome
    ensures { effect Insn.LrW word (state cpu.old mem.now) ≡ after cpu.new mem.now result }
{
    let address = cpu.register(rs1(word));
    if !is_aligned(address) {
        return Outcome::Trap(Signal::SigBus);
    }
    match mem.load32(address) {
        Ok(n) => {
            cpu.reservation = Some(address);
            cpu.compute(word, n);
            Outcome::Next
        }
        Err(_) => Outcome::Trap(Signal::SigSegv),
    }
}

/// `SC.W`.
pub fn store_conditional(word: u32, cpu: &mut Cpu, mem: &mut Mem) -> Outcome
    ensures { effect Insn.ScW word (state cpu.old mem.old) ≡ after cpu.new mem.new result }
{
    let address = cpu.register(rs1(word));
    if !is_aligned(address) {
        return Outcome::Trap(Signal::SigBus);
    }
    if !cpu.is_reserved(address) {
        cpu.reservation = None;
        cpu.compute(word, 1);
        return Outcome::Next;
    }
    match mem.store32(address, cpu.register(rs2(word))) {
        Ok(()) => {
            cpu.reservation = None;
            cpu.compute(word, 0);
            Outcome::Next
        }
        Err(_) => Outcome::Trap(Signal::SigSegv),
    }
}

/// `AMOSWAP.W` to `AMOMAXU.W`.
pub fn modify(amo: Amo, word: u32, cpu: &mut Cpu, mem: &mut Mem) -> Outcome
    ensures { effect (Insn.Amo amo) word (state cpu.old mem.old) ≡ after cpu.new mem.new result }
{
    let address = cpu.register(rs1(word));
    let operand = cpu.register(rs2(word));
    if !is_aligned(address) {
        return Outcome::Trap(Signal::SigBus);
    }
    let Ok(old) = mem.load32(address) else {
        return Outcome::Trap(Signal::SigSegv);
    };
    match mem.store32(address, modified(amo, old, operand)) {
        Ok(()) => {
            cpu.compute(word, old);
            Outcome::Next
        }
        Err(_) => Outcome::Trap(Signal::SigSegv),
    }
}
