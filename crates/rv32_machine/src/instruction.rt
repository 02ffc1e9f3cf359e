//! The instructions by the manual's names. Their operands stay in the word.

/// An instruction of RV32I, of the extensions M and A or of Zifencei, without its operands.
#[derive(Clone, Copy)]
pub enum Insn {
    Lui,
    Auipc,
    Jal,
    Jalr,
    Branch(Branch),
    Load(Load),
    Store(Store),
    /// `ADDI` to `SRAI`: the operation on rs1 and the I-immediate.
    Immediate(Operation),
    /// `ADD` to `REMU`: the operation on rs1 and rs2.
    Register(Operation),
    Fence,
    FenceI,
    Ecall,
    Ebreak,
    LrW,
    ScW,
    Amo(Amo),
}

/// The conditional branches, opcode BRANCH.
#[derive(Clone, Copy)]
pub enum Branch {
    Beq,
    Bne,
    Blt,
    Bge,
    Bltu,
    Bgeu,
}

/// The loads, opcode LOAD.
#[derive(Clone, Copy)]
pub enum Load {
    Lb,
    Lh,
    Lw,
    Lbu,
    Lhu,
}

/// The stores, opcode STORE.
#[derive(Clone, Copy)]
pub enum Store {
    Sb,
    Sh,
    Sw,
}

/// The atomic memory operations, opcode AMO with the width of a word.
#[derive(Clone, Copy)]
pub enum Amo {
    AmoSwap,
    AmoAdd,
    AmoXor,
    AmoAnd,
    AmoOr,
    AmoMin,
    AmoMax,
    AmoMinu,
    AmoMaxu,
}

/// What the opcodes OP-IMM and OP compute of two words.
#[derive(Clone, Copy)]
pub enum Operation {
    Add,
    Sub,
    Sll,
    Slt,
    Sltu,
    Xor,
    Srl,
    Sra,
    Or,
    And,
    Mul,
    Mulh,
    Mulhsu,
    Mulhu,
    Div,
    Divu,
    Rem,
    Remu,
}
