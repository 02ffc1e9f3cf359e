//! The fields and immediates of an instruction word.
//!
//! RISC-V unprivileged manual, 2.2 Base Instruction Formats and 2.3 Immediate Encoding Variants.

ghost use Rattle.std.specs.Prelude.{◌≡◌, ◌<◌};
ghost use Rattle.rv32_machine.specs.Table.{register_count};
ghost use Rattle.rv32_machine.specs.Word.{is_aligned, opcode, sign_extended, rd, funct3, rs1, rs2, funct7, funct5, i_immediate, s_immediate, b_immediate, u_immediate, j_immediate};

pub fn opcode(word: u32) -> u32
    ensures value { result ≡ opcode word }
{
    word & 0x7f
}

pub fn rd(word: u32) -> usize
    ensures value { result ≡ rd word }
    ensures bound { result < register_count }
{
    (word >> 7 & 0x1f) as usize
}

pub fn funct3(word: u32) -> u32
    ensures value { result ≡ funct3 word }
{
    word >> 12 & 0x7
}

pub fn rs1(word: u32) -> usize
    ensures value { result ≡ rs1 word }
    ensures bound { result < register_count }
{
    (word >> 15 & 0x1f) as usize
}

pub fn rs2(word: u32) -> usize
    ensures value { result ≡ rs2 word }
    ensures bound { result < register_count }
{
    (word >> 20 & 0x1f) as usize
}

pub fn funct7(word: u32) -> u32
    ensures value { result ≡ funct7 word }
{
    word >> 25
}

pub fn funct5(word: u32) -> u32
    ensures value { result ≡ funct5 word }
{
    word >> 27
}

pub fn i_immediate(word: u32) -> u32
    ensures { result ≡ i_immediate word }
{
    (word.cast_signed() >> 20u32).cast_unsigned()
}

pub fn s_immediate(word: u32) -> u32
    ensures { result ≡ s_immediate word }
{
    ((word.cast_signed() >> 25u32).cast_unsigned() << 5u32) + (word >> 7 & 0x1f)
}

pub fn b_immediate(word: u32) -> u32
    ensures { result ≡ b_immediate word }
{
    ((word.cast_signed() >> 31u32).cast_unsigned() << 12u32)
        + ((word >> 7 & 0x1) << 11u32)
        + ((word >> 25 & 0x3f) << 5u32)
        + ((word >> 8 & 0xf) << 1u32)
}

pub fn u_immediate(word: u32) -> u32
    ensures { result ≡ u_immediate word }
{
    word >> 12 << 12
}

pub fn j_immediate(word: u32) -> u32
    ensures { result ≡ j_immediate word }
{
    ((word.cast_signed() >> 31u32).cast_unsigned() << 20u32)
        + ((word >> 12 & 0xff) << 12u32)
        + ((word >> 20 & 0x1) << 11u32)
        + ((word >> 21 & 0x3ff) << 1u32)
}

/// Whether the address is that of a word. This project's own profile refuses a jump to any other, and an atomic access.
pub fn is_aligned(address: u32) -> bool
    ensures { result ≡ is_aligned address }
{
    address % 4 == 0
}

/// A byte as a signed number, as a word.
pub fn byte_extended(byte: u8) -> u32
    ensures { result ≡ sign_extended 8 byte }
{
    i32::from(byte.cast_signed()).cast_unsigned()
}

/// A half word as a signed number, as a word.
pub fn half_extended(half: u16) -> u32
    ensures { result ≡ sign_extended 16 half }
{
    i32::from(half.cast_signed()).cast_unsigned()
}
