//! From a word to its instruction.
//!
//! RISC-V unprivileged manual, the chapter RV32/64G Instruction Set Listings.

ghost use Rattle.std.specs.Prelude.{◌≡◌, ◌<◌};
ghost use Rattle.rv32_machine.specs.Encoding.{branch_of, load_of, store_of, immediate_of, base_of, multiply_of, subtract_of, register_of, fence_of, system_of, amo_of, atomic_of, decoded};

use crate::instruction::{Amo, Branch, Insn, Load, Operation, Store};
use crate::word::{funct3, funct5, funct7, opcode, rs2};

/// The instruction that the word is, or `None` where it is none of RV32I, M, A and Zifencei.
// Inlined into the one loop that runs it, so that no `Insn` is made at run time.
#[inline(always)]
pub fn decode(word: u32) -> Option<Insn>
    ensures { result ≡ decoded word }
{
    match opcode(word) {
        0x37 => Some(Insn::Lui),
        0x17 => Some(Insn::Auipc),
        0x6f => Some(Insn::Jal),
        0x67 => match funct3(word) {
            0 => Some(Insn::Jalr),
            _ => None,
        },
        0x63 => Some(Insn::Branch(branch_of(funct3(word))?)),
        0x03 => Some(Insn::Load(load_of(funct3(word))?)),
        0x23 => Some(Insn::Store(store_of(funct3(word))?)),
        0x13 => Some(Insn::Immediate(immediate_of(funct3(word), funct7(word))?)),
        0x33 => Some(Insn::Register(register_of(funct3(word), funct7(word))?)),
        0x0f => fence_of(funct3(word)),
        0x73 => system_of(word),
        0x2f => match funct3(word) {
            2 => atomic_of(funct5(word), rs2(word)),
            _ => None,
        },
        _ => None,
    }
}

fn branch_of(funct3: u32) -> Option<Branch>
    ensures { result ≡ branch_of funct3 }
{
    match funct3 {
        0 => Some(Branch::Beq),
        1 => Some(Branch::Bne),
        4 => Some(Branch::Blt),
        5 => Some(Branch::Bge),
        6 => Some(Branch::Bltu),
        7 => Some(Branch::Bgeu),
        _ => None,
    }
}

fn load_of(funct3: u32) -> Option<Load>
    ensures { result ≡ load_of funct3 }
{
    match funct3 {
        0 => Some(Load::Lb),
        1 => Some(Load::Lh),
        2 => Some(Load::Lw),
        4 => Some(Load::Lbu),
        5 => Some(Load::Lhu),
        _ => None,
    }
}

fn store_of(funct3: u32) -> Option<Store>
    ensures { result ≡ store_of funct3 }
{
    match funct3 {
        0 => Some(Store::Sb),
        1 => Some(Store::Sh),
        2 => Some(Store::Sw),
        _ => None,
    }
}

fn immediate_of(funct3: u32, funct7: u32) -> Option<Operation>
    ensures { result ≡ immediate_of funct3 funct7 }
{
    match funct3 {
        0 => Some(Operation::Add),
        1 => match funct7 {
            0x00 => Some(Operation::Sll),
            _ => None,
        },
        2 => Some(Operation::Slt),
        3 => Some(Operation::Sltu),
        4 => Some(Operation::Xor),
        5 => match funct7 {
            0x00 => Some(Operation::Srl),
            0x20 => Some(Operation::Sra),
            _ => None,
        },
        6 => Some(Operation::Or),
        _ => Some(Operation::And),
    }
}

fn register_of(funct3: u32, funct7: u32) -> Option<Operation>
    ensures { result ≡ register_of funct3 funct7 }
{
    match funct7 {
        0x00 => Some(base_of(funct3)),
        0x01 => Some(multiply_of(funct3)),
        0x20 => subtract_of(funct3),
        _ => None,
    }
}

fn base_of(funct3: u32) -> Operation
    ensures { result ≡ base_of funct3 }
{
    match funct3 {
        0 => Operation::Add,
        1 => Operation::Sll,
        2 => Operation::Slt,
        3 => Operation::Sltu,
        4 => Operation::Xor,
        5 => Operation::Srl,
        6 => Operation::Or,
        _ => Operation::And,
    }
}

fn multiply_of(funct3: u32) -> Operation
    ensures { result ≡ multiply_of funct3 }
{
    match funct3 {
        0 => Operation::Mul,
        1 => Operation::Mulh,
        2 => Operation::Mulhsu,
        3 => Operation::Mulhu,
        4 => Operation::Div,
        5 => Operation::Divu,
        6 => Operation::Rem,
        _ => Operation::Remu,
    }
}

fn subtract_of(funct3: u32) -> Option<Operation>
    ensures { result ≡ subtract_of funct3 }
{
    match funct3 {
        0 => Some(Operation::Sub),
        5 => Some(Operation::Sra),
        _ => None,
    }
}

fn fence_of(funct3: u32) -> Option<Insn>
    ensures { result ≡ fence_of funct3 }
{
    match funct3 {
        0 => Some(Insn::Fence),
        1 => Some(Insn::FenceI),
        _ => None,
    }
}

fn system_of(word: u32) -> Option<Insn>
    ensures { result ≡ system_of word }
{
    match word {
        0x0000_0073 => Some(Insn::Ecall),
        0x0010_0073 => Some(Insn::Ebreak),
        _ => None,
    }
}

fn atomic_of(funct5: u32, rs2: usize) -> Option<Insn>
    ensures { result ≡ atomic_of funct5 rs2 }
{
    match funct5 {
        0x02 => match rs2 {
            0 => Some(Insn::LrW),
            _ => None,
        },
        0x03 => Some(Insn::ScW),
        _ => Some(Insn::Amo(amo_of(funct5)?)),
    }
}

fn amo_of(funct5: u32) -> Option<Amo>
    ensures { result ≡ amo_of funct5 }
{
    match funct5 {
        0x00 => Some(Amo::AmoAdd),
        0x01 => Some(Amo::AmoSwap),
        0x04 => Some(Amo::AmoXor),
        0x08 => Some(Amo::AmoOr),
        0x0c => Some(Amo::AmoAnd),
        0x10 => Some(Amo::AmoMin),
        0x14 => Some(Amo::AmoMax),
        0x18 => Some(Amo::AmoMinu),
        0x1c => Some(Amo::AmoMaxu),
        _ => None,
    }
}
