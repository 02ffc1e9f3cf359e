//! The instructions that leave the memory as it is and neither call nor trap, each from its word at once.

ghost use Rattle.std.specs.Prelude.{◌≡◌, ◌+◌, ◌-◌, ◌*◌, ◌/◌, ◌%◌, ◌^◌, if◌then◌else◌};
ghost use Rattle.std.specs.Bool.{OnTrue, OnFalse};
ghost use Rattle.guest_mem.specs.Memory.{Memory};
ghost use Rattle.rv32_machine.specs.Arithmetic.{sum};
ghost use Rattle.rv32_machine.specs.Encoding.{decoded};
ghost use Rattle.rv32_machine.specs.Table.{advanced, after, effect, executed, following, goes_on, jumps, sets, state};
ghost use Rattle.rv32_machine.specs.Word.{opcode, funct3, b_immediate};
ghost use Rattle.rv32_machine.specs.declared.outcome.Outcome.TheVariants as outcome;

use crate::arithmetic::{is_taken, value};
use crate::cpu::Cpu;
use crate::execution::load;
use crate::instruction::{Branch, Insn, Load, Operation};
use crate::word::{
    b_immediate, funct3, funct7, i_immediate, is_aligned, j_immediate, opcode, rd, rs1, rs2,
    u_immediate,
};
use guest_mem::Mem;

/// Runs the instruction that the word is, where it leaves the memory as it is and neither calls nor traps. It answers
/// whether it ran; where it didn't, nothing changes.
// One jump by opcode and funct3 together: neither an `Insn` nor an `Operation` is made at run time.
#[inline(always)]
pub(crate) fn run_quiet(word: u32, cpu: &mut Cpu, mem: &Mem) -> bool
    ensures ran { OnTrue result (executed (decoded word) word (state cpu.old mem.now) ≡ after cpu.new mem.now outcome.Next) }
    ensures unchanged { OnFalse result (cpu.new ≡ cpu.old) }
{
    match row(word) {
        0b000_00000 => loaded(Load::Lb, word, cpu, mem),
        0b001_00000 => loaded(Load::Lh, word, cpu, mem),
        0b010_00000 => loaded(Load::Lw, word, cpu, mem),
        0b100_00000 => loaded(Load::Lbu, word, cpu, mem),
        0b101_00000 => loaded(Load::Lhu, word, cpu, mem),
        // the stores
        0b000_01000 => false,
        0b001_01000 => false,
        0b010_01000 => false,
        0b000_00100 => immediate(Operation::Add, word, cpu),
        0b001_00100 => match funct7(word) {
            0x00 => immediate(Operation::Sll, word, cpu),
            _ => false,
        },
        0b010_00100 => immediate(Operation::Slt, word, cpu),
        0b011_00100 => immediate(Operation::Sltu, word, cpu),
        0b100_00100 => immediate(Operation::Xor, word, cpu),
        0b101_00100 => match funct7(word) {
            0x00 => immediate(Operation::Srl, word, cpu),
            0x20 => immediate(Operation::Sra, word, cpu),
            _ => false,
        },
        0b110_00100 => immediate(Operation::Or, word, cpu),
        0b111_00100 => immediate(Operation::And, word, cpu),
        0b000_01100 => match funct7(word) {
            0x00 => register(Operation::Add, word, cpu),
            0x01 => register(Operation::Mul, word, cpu),
            0x20 => register(Operation::Sub, word, cpu),
            _ => false,
        },
        0b001_01100 => match funct7(word) {
            0x00 => register(Operation::Sll, word, cpu),
            0x01 => register(Operation::Mulh, word, cpu),
            _ => false,
        },
        0b010_01100 => match funct7(word) {
            0x00 => register(Operation::Slt, word, cpu),
            0x01 => register(Operation::Mulhsu, word, cpu),
            _ => false,
        },
        0b011_01100 => match funct7(word) {
            0x00 => register(Operation::Sltu, word, cpu),
            0x01 => register(Operation::Mulhu, word, cpu),
            _ => false,
        },
        0b100_01100 => match funct7(word) {
            0x00 => register(Operation::Xor, word, cpu),
            0x01 => register(Operation::Div, word, cpu),
            _ => false,
        },
        0b101_01100 => match funct7(word) {
            0x00 => register(Operation::Srl, word, cpu),
            0x01 => register(Operation::Divu, word, cpu),
            0x20 => register(Operation::Sra, word, cpu),
            _ => false,
        },
        0b110_01100 => match funct7(word) {
            0x00 => register(Operation::Or, word, cpu),
            0x01 => register(Operation::Rem, word, cpu),
            _ => false,
        },
        0b111_01100 => match funct7(word) {
            0x00 => register(Operation::And, word, cpu),
            0x01 => register(Operation::Remu, word, cpu),
            _ => false,
        },
        0b000_11000 => branch(Branch::Beq, word, cpu),
        0b001_11000 => branch(Branch::Bne, word, cpu),
        0b100_11000 => branch(Branch::Blt, word, cpu),
        0b101_11000 => branch(Branch::Bge, word, cpu),
        0b110_11000 => branch(Branch::Bltu, word, cpu),
        0b111_11000 => branch(Branch::Bgeu, word, cpu),
        0b000_11001 => {
            let target = cpu.register(rs1(word)).wrapping_add(i_immediate(word));
            linked(word, target / 2 * 2, cpu)
        }
        _ => run_long(word, cpu),
    }
}

/// The place of the word's row in a table by opcode and funct3: funct3 in front of the upper five bits of the opcode. The
/// lower two bits of an opcode are 3; where they aren't, the place is above all rows.
#[inline(always)]
fn row(word: u32) -> u32
    ensures opcode { opcode word ≡ (result % 2 ^ 5 * 4 + result / 2 ^ 30 + 3) % 2 ^ 7 }
    ensures funct3 { funct3 word ≡ result % 2 ^ 30 / 2 ^ 5 }
{
    turned_opcode(word) + (funct3(word) << 5u32)
}

/// The upper five bits of the opcode, above which its lower two stand, counted from 3 on.
#[inline(always)]
fn turned_opcode(word: u32) -> u32
    ensures { result ≡ (opcode word + (2 ^ 7 - 3)) % 2 ^ 7 / 4 + (opcode word + (2 ^ 7 - 3)) % 2 ^ 7 % 4 * 2 ^ 30 }
{
    ((opcode(word) + 0x7d) % 0x80).rotate_right(2)
}

/// The instructions with an immediate of 20 bits, where others have funct3.
#[inline(always)]
fn run_long(word: u32, cpu: &mut Cpu) -> bool
    ensures ran { OnTrue result ((m : Memory) → executed (decoded word) word (state cpu.old m) ≡ after cpu.new m outcome.Next) }
    ensures unchanged { OnFalse result (cpu.new ≡ cpu.old) }
{
    match opcode(word) {
        0x37 => {
            cpu.compute(word, u_immediate(word));
            true
        }
        0x17 => {
            let n = cpu.pc.wrapping_add(u_immediate(word));
            cpu.compute(word, n);
            true
        }
        0x6f => {
            let target = cpu.pc.wrapping_add(j_immediate(word));
            linked(word, target, cpu)
        }
        _ => false,
    }
}

/// Opcode OP-IMM.
#[inline(always)]
fn immediate(operation: Operation, word: u32, cpu: &mut Cpu) -> bool
    ensures ran { OnTrue result ((m : Memory) → effect (Insn.Immediate operation) word (state cpu.old m) ≡ after cpu.new m outcome.Next) }
    ensures unchanged { OnFalse result (cpu.new ≡ cpu.old) }
{
    let n = value(operation, cpu.register(rs1(word)), i_immediate(word));
    cpu.compute(word, n);
    true
}

/// Opcode OP.
#[inline(always)]
fn register(operation: Operation, word: u32, cpu: &mut Cpu) -> bool
    ensures ran { OnTrue result ((m : Memory) → effect (Insn.Register operation) word (state cpu.old m) ≡ after cpu.new m outcome.Next) }
    ensures unchanged { OnFalse result (cpu.new ≡ cpu.old) }
{
    let n = value(operation, cpu.register(rs1(word)), cpu.register(rs2(word)));
    cpu.compute(word, n);
    true
}

/// Opcode BRANCH.
#[inline(always)]
fn branch(kind: Branch, word: u32, cpu: &mut Cpu) -> bool
    ensures ran { OnTrue result ((m : Memory) → effect (Insn.Branch kind) word (state cpu.old m) ≡ after cpu.new m outcome.Next) }
    ensures unchanged { OnFalse result (cpu.new ≡ cpu.old) }
{
    let taken = is_taken(kind, cpu.register(rs1(word)), cpu.register(rs2(word)));
    branched(word, taken, cpu)
}

#[inline(always)]
fn branched(word: u32, taken: bool, cpu: &mut Cpu) -> bool
    ensures ran { OnTrue result ((m : Memory) → (if taken then jumps (sum cpu.old.pc (b_immediate word)) cpu.old (state cpu.old m)
        else goes_on (advanced cpu.old) (state cpu.old m)) ≡ after cpu.new m outcome.Next) }
    ensures unchanged { OnFalse result (cpu.new ≡ cpu.old) }
{
    if !taken {
        cpu.go_on();
        return true;
    }
    let target = cpu.pc.wrapping_add(b_immediate(word));
    if is_aligned(target) {
        cpu.pc = target;
        true
    } else {
        false
    }
}

/// Opcode LOAD.
#[inline(always)]
fn loaded(kind: Load, word: u32, cpu: &mut Cpu, mem: &Mem) -> bool
    ensures ran { OnTrue result (effect (Insn.Load kind) word (state cpu.old mem.now) ≡ after cpu.new mem.now outcome.Next) }
    ensures unchanged { OnFalse result (cpu.new ≡ cpu.old) }
{
    let address = cpu.register(rs1(word)).wrapping_add(i_immediate(word));
    match load(kind, mem, address) {
        Ok(n) => {
            cpu.compute(word, n);
            true
        }
        Err(_) => false,
    }
}

/// The target is next, and rd is the address behind this instruction, where the target is that of a word.
#[inline(always)]
fn linked(word: u32, target: u32, cpu: &mut Cpu) -> bool
    ensures ran { OnTrue result ((m : Memory) → jumps target (sets word (following cpu.old) cpu.old) (state cpu.old m) ≡ after cpu.new m outcome.Next) }
    ensures unchanged { OnFalse result (cpu.new ≡ cpu.old) }
{
    if is_aligned(target) {
        let back = cpu.pc.wrapping_add(4);
        cpu.set_register(rd(word), back);
        cpu.pc = target;
        true
    } else {
        false
    }
}
