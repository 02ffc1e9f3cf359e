//! One instruction.

ghost use Rattle.std.specs.Prelude.{◌≡◌, ℕ, List, Some, None, IfSome, MatchResult, OnOk, OnErr};
ghost use Rattle.std.specs.Bool.{OnTrue, OnFalse};
ghost use Rattle.guest_mem.specs.Memory.{Memory, IsCode, load as load_of};
ghost use Rattle.guest_mem.specs.declared.right.Right.TheVariants as right;
ghost use Rattle.rv32_machine.specs.Encoding.{decoded};
ghost use Rattle.rv32_machine.specs.Table.{insn, effect, executed, state, after, jumps, sets, following, loaded, stored};
ghost use Rattle.rv32_machine.specs.declared.outcome.Outcome.TheVariants as outcome;
ghost use Rattle.elf_load.specs.Room.{instruction_size};

use crate::arithmetic::{is_taken, value};
use crate::atomics::{load_reserved, modify, store_conditional};
use crate::cpu::Cpu;
use crate::encoding::decode;
use crate::instruction::{Insn, Load, Store};
use crate::outcome::Outcome;
use crate::word::{
    b_immediate, byte_extended, funct3, half_extended, i_immediate, is_aligned, j_immediate,
    opcode, rd, rs1, rs2, s_immediate, u_immediate,
};
use guest_mem::laws::stores_leave_code;
use guest_mem::{Bad, FetchHint, Mem};
use sim_base::Signal;

/// Runs the instruction at the program counter.
#[inline(never)]
#[tactic(auto, unfolding(crate::specs::Table::insn))]
pub fn step(cpu: &mut Cpu, mem: &mut Mem) -> Outcome
    ensures { insn (state cpu.old mem.old) ≡ after cpu.new mem.new result }
{
    let mut hint = FetchHint::new();
    match mem.fetch(cpu.pc, &mut hint) {
        Ok(word) => run_word(word, cpu, mem),
        Err(_) => Outcome::Trap(Signal::SigSegv),
    }
}

/// The same, where the word may have been fetched before.
#[inline(always)]
#[tactic(auto, unfolding(crate::specs::Table::insn))]
pub(crate) fn step_fetched(fetched: Option<u32>, cpu: &mut Cpu, mem: &mut Mem) -> Outcome
    requires { IfSome fetched (λ word. load_of right.Execute instruction_size mem.old cpu.old.pc ≡ Some word) }
    ensures { insn (state cpu.old mem.old) ≡ after cpu.new mem.new result }
{
    match fetched {
        Some(word) => run_word(word, cpu, mem),
        None => step(cpu, mem),
    }
}

/// Runs the instruction that the word is, where it is a store that doesn't trap. It answers whether it ran; where it didn't, nothing
/// changes.
#[inline(always)]
pub(crate) fn run_store(word: u32, cpu: &mut Cpu, mem: &mut Mem) -> bool
    ensures ran { OnTrue result (executed (decoded word) word (state cpu.old mem.old) ≡ after cpu.new mem.new outcome.Next) }
    ensures code { (number : ℕ) (bytes : List ℕ) → IsCode mem.old.cells number bytes → IsCode mem.new.cells number bytes }
    ensures unchanged { OnFalse result ((cpu.new ≡ cpu.old) × (mem.new ≡ mem.old)) }
{
    if opcode(word) != 0x23 {
        return false;
    }
    match funct3(word) {
        0 => stored(Store::Sb, word, cpu, mem),
        1 => stored(Store::Sh, word, cpu, mem),
        2 => stored(Store::Sw, word, cpu, mem),
        _ => false,
    }
}

/// Opcode STORE.
#[inline(always)]
fn stored(kind: Store, word: u32, cpu: &mut Cpu, mem: &mut Mem) -> bool
    ensures ran { OnTrue result (effect (Insn.Store kind) word (state cpu.old mem.old) ≡ after cpu.new mem.new outcome.Next) }
    ensures code { (number : ℕ) (bytes : List ℕ) → IsCode mem.old.cells number bytes → IsCode mem.new.cells number bytes }
    ensures unchanged { OnFalse result ((cpu.new ≡ cpu.old) × (mem.new ≡ mem.old)) }
{
    stores_leave_code();
    let address = cpu.register(rs1(word)).wrapping_add(s_immediate(word));
    match store(kind, mem, address, cpu.register(rs2(word))) {
        Ok(()) => {
            cpu.go_on();
            true
        }
        Err(_) => false,
    }
}

/// Runs the instruction that the word is.
// Few words come here, so that they stay out of the loop that runs the others.
#[inline(never)]
fn run_word(word: u32, cpu: &mut Cpu, mem: &mut Mem) -> Outcome
    ensures { executed (decoded word) word (state cpu.old mem.old) ≡ after cpu.new mem.new result }
{
    match decode(word) {
        Some(insn) => execute(insn, word, cpu, mem),
        None => Outcome::Trap(Signal::SigIll),
    }
}

#[inline(always)]
fn execute(insn: Insn, word: u32, cpu: &mut Cpu, mem: &mut Mem) -> Outcome
    ensures { effect insn word (state cpu.old mem.old) ≡ after cpu.new mem.new result }
{
    match insn {
        Insn::Immediate(operation) => {
            let n = value(operation, cpu.register(rs1(word)), i_immediate(word));
            cpu.compute(word, n);
            Outcome::Next
        }
        Insn::Lui => {
            cpu.compute(word, u_immediate(word));
            Outcome::Next
        }
        Insn::Auipc => {
            let n = cpu.pc.wrapping_add(u_immediate(word));
            cpu.compute(word, n);
            Outcome::Next
        }
        Insn::Register(operation) => {
            let n = value(operation, cpu.register(rs1(word)), cpu.register(rs2(word)));
            cpu.compute(word, n);
            Outcome::Next
        }
        Insn::Jal => {
            let target = cpu.pc.wrapping_add(j_immediate(word));
            link(cpu, word, target)
        }
        Insn::Jalr => {
            let target = cpu.register(rs1(word)).wrapping_add(i_immediate(word));
            link(cpu, word, target / 2 * 2)
        }
        Insn::Branch(branch) => {
            if is_taken(branch, cpu.register(rs1(word)), cpu.register(rs2(word))) {
                let target = cpu.pc.wrapping_add(b_immediate(word));
                jump(cpu, target)
            } else {
                cpu.go_on();
                Outcome::Next
            }
        }
        Insn::Load(kind) => {
            let address = cpu.register(rs1(word)).wrapping_add(i_immediate(word));
            match load(kind, mem, address) {
                Ok(n) => {
                    cpu.compute(word, n);
                    Outcome::Next
                }
                Err(_) => Outcome::Trap(Signal::SigSegv),
            }
        }
        Insn::Store(kind) => store_from(kind, word, cpu, mem),
        Insn::Fence | Insn::FenceI => {
            cpu.go_on();
            Outcome::Next
        }
        Insn::Ecall => {
            cpu.reservation = None;
            cpu.go_on();
            Outcome::Call
        }
        Insn::Ebreak => Outcome::Trap(Signal::SigTrap),
        Insn::LrW => load_reserved(word, cpu, mem),
        Insn::ScW => store_conditional(word, cpu, mem),
        Insn::Amo(amo) => modify(amo, word, cpu, mem),
    }
}

fn jump(cpu: &mut Cpu, target: u32) -> Outcome
    ensures { (m : Memory) → jumps target cpu.old (state cpu.old m) ≡ after cpu.new m result }
{
    if is_aligned(target) {
        cpu.pc = target;
        Outcome::Next
    } else {
        Outcome::Trap(Signal::SigBus)
    }
}

fn link(cpu: &mut Cpu, word: u32, target: u32) -> Outcome
    ensures { (m : Memory) → jumps target (sets word (following cpu.old) cpu.old) (state cpu.old m) ≡ after cpu.new m result }
{
    if is_aligned(target) {
        let back = cpu.pc.wrapping_add(4);
        cpu.set_register(rd(word), back);
        cpu.pc = target;
        Outcome::Next
    } else {
        Outcome::Trap(Signal::SigBus)
    }
}

pub(crate) fn load(kind: Load, mem: &Mem, address: u32) -> Result<u32, Bad>
    ensures { MatchResult result (λ n. loaded kind mem.now address ≡ Some n) (λ _. loaded kind mem.now address ≡ None) }
{
    match kind {
        Load::Lb => Ok(byte_extended(mem.load8(address)?)),
        Load::Lh => Ok(half_extended(mem.load16(address)?)),
        Load::Lw => mem.load32(address),
        Load::Lbu => Ok(u32::from(mem.load8(address)?)),
        Load::Lhu => Ok(u32::from(mem.load16(address)?)),
    }
}

/// Stores rs2.
#[inline(always)]
fn store_from(kind: Store, word: u32, cpu: &mut Cpu, mem: &mut Mem) -> Outcome
    ensures { effect (Insn.Store kind) word (state cpu.old mem.old) ≡ after cpu.new mem.new result }
{
    let address = cpu.register(rs1(word)).wrapping_add(s_immediate(word));
    match store(kind, mem, address, cpu.register(rs2(word))) {
        Ok(()) => {
            cpu.go_on();
            Outcome::Next
        }
        Err(_) => Outcome::Trap(Signal::SigSegv),
    }
}

#[inline(always)]
fn store(kind: Store, mem: &mut Mem, address: u32, n: u32) -> Result<(), Bad>
    ensures ok { OnOk result (stored kind mem.old address n ≡ Some mem.new) }
    ensures bad { OnErr result (stored kind mem.old address n ≡ None) }
    ensures unchanged { OnErr result (mem.new ≡ mem.old) }
{
    match kind {
        Store::Sb => mem.store8(address, (n % 0x100) as u8),
        Store::Sh => mem.store16(address, (n % 0x1_0000) as u16),
        Store::Sw => mem.store32(address, n),
    }
}
