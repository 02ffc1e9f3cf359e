//! What the instructions compute of two words.
//!
//! RISC-V unprivileged manual, 2.4 Integer Computational Instructions, 2.5.2 Conditional Branches,
//! and the chapters on the extensions M and A.

ghost use Rattle.std.specs.Prelude.{◌≡◌, ◌*◌, ◌/◌, ◌%◌, ◌^◌, ℤ, pos, ◌*ℤ◌};
ghost use Rattle.rv32_machine.specs.Arithmetic.{value, is_taken, modified, signed, upper_word};

use crate::instruction::{Amo, Branch, Operation};

/// What the operation puts into rd, of rs1 and the second operand.
#[inline(always)]
pub fn value(operation: Operation, a: u32, b: u32) -> u32
    ensures { result ≡ value operation a b }
{
    match operation {
        Operation::Add => a.wrapping_add(b),
        Operation::Sub => a.wrapping_sub(b),
        Operation::Sll => a << (b % 32),
        Operation::Slt => u32::from(a.cast_signed() < b.cast_signed()),
        Operation::Sltu => u32::from(a < b),
        Operation::Xor => a ^ b,
        Operation::Srl => a >> (b % 32),
        Operation::Sra => (a.cast_signed() >> (b % 32)).cast_unsigned(),
        Operation::Or => a | b,
        Operation::And => a & b,
        Operation::Mul => a.wrapping_mul(b),
        Operation::Mulh => mulh(a, b),
        Operation::Mulhsu => mulhsu(a, b),
        Operation::Mulhu => mulhu(a, b),
        Operation::Div => div(a, b),
        Operation::Divu => divu(a, b),
        Operation::Rem => rem(a, b),
        Operation::Remu => remu(a, b),
    }
}

fn mulh(a: u32, b: u32) -> u32
    ensures { result ≡ value Operation.Mulh a b }
{
    upper_word(product(a.cast_signed(), b.cast_signed()))
}

fn product(a: i32, b: i32) -> i64
    ensures { result ≡ a *ℤ b }
{
    i64::from(a) * i64::from(b)
}

fn upper_word(product: i64) -> u32
    ensures { result ≡ upper_word product }
{
    (product.cast_unsigned() >> 32u32) as u32
}

fn mulhsu(a: u32, b: u32) -> u32
    ensures { result ≡ value Operation.Mulhsu a b }
{
    upper_word(i64::from(a.cast_signed()) * i64::from(b))
}

fn mulhu(a: u32, b: u32) -> u32
    ensures { result ≡ value Operation.Mulhu a b }
{
    ((u64::from(a) * u64::from(b)) >> 32u32) as u32
}

fn div(a: u32, b: u32) -> u32
    ensures { result ≡ value Operation.Div a b }
{
    if b == 0 {
        u32::MAX
    } else {
        a.cast_signed()
            .wrapping_div(b.cast_signed())
            .cast_unsigned()
    }
}

fn divu(a: u32, b: u32) -> u32
    ensures { result ≡ value Operation.Divu a b }
{
    if b == 0 { u32::MAX } else { a / b }
}

fn rem(a: u32, b: u32) -> u32
    ensures { result ≡ value Operation.Rem a b }
{
    if b == 0 {
        a
    } else {
        a.cast_signed()
            .wrapping_rem(b.cast_signed())
            .cast_unsigned()
    }
}

fn remu(a: u32, b: u32) -> u32
    ensures { result ≡ value Operation.Remu a b }
{
    if b == 0 { a } else { a % b }
}

/// Whether the branch is taken, of rs1 and rs2.
#[inline(always)]
pub fn is_taken(branch: Branch, a: u32, b: u32) -> bool
    ensures { result ≡ is_taken branch a b }
{
    match branch {
        Branch::Beq => a == b,
        Branch::Bne => a != b,
        Branch::Blt => a.cast_signed() < b.cast_signed(),
        Branch::Bge => a.cast_signed() >= b.cast_signed(),
        Branch::Bltu => a < b,
        Branch::Bgeu => a >= b,
    }
}

/// The word that the atomic memory operation leaves, of the word that stood there and rs2.
pub fn modified(amo: Amo, old: u32, b: u32) -> u32
    ensures { result ≡ modified amo old b }
{
    match amo {
        Amo::AmoSwap => b,
        Amo::AmoAdd => old.wrapping_add(b),
        Amo::AmoXor => old ^ b,
        Amo::AmoAnd => old & b,
        Amo::AmoOr => old | b,
        Amo::AmoMin => if old.cast_signed() < b.cast_signed() {
            old
        } else {
            b
        },
        Amo::AmoMax => if old.cast_signed() < b.cast_signed() {
            b
        } else {
            old
        },
        Amo::AmoMinu => if old < b { old } else { b },
        Amo::AmoMaxu => if old < b { b } else { old },
    }
}
