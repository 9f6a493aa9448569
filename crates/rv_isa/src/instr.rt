//! An instruction as data.

/// An instruction of RV32I, with its register numbers and its immediate as a signed number (RISC-V unprivileged manual, chapter on
/// the RV32I base).
///
/// The immediate of `Lui` and `Auipc` is the value whose lowest 12 bits are zero; that of a shift is its amount.
#[derive(Clone, Copy)]
pub enum Instr {
    /// Load upper immediate.
    Lui { rd: u8, imm: i32 },
    /// Add upper immediate to the pc.
    Auipc { rd: u8, imm: i32 },
    /// Jump and link.
    Jal { rd: u8, imm: i32 },
    /// Jump and link to a register.
    Jalr { rd: u8, rs1: u8, imm: i32 },
    /// Branch if equal.
    Beq { rs1: u8, rs2: u8, imm: i32 },
    /// Branch if not equal.
    Bne { rs1: u8, rs2: u8, imm: i32 },
    /// Branch if less, signed.
    Blt { rs1: u8, rs2: u8, imm: i32 },
    /// Branch if greater or equal, signed.
    Bge { rs1: u8, rs2: u8, imm: i32 },
    /// Branch if less, unsigned.
    Bltu { rs1: u8, rs2: u8, imm: i32 },
    /// Branch if greater or equal, unsigned.
    Bgeu { rs1: u8, rs2: u8, imm: i32 },
    /// Load a byte, signed.
    Lb { rd: u8, rs1: u8, imm: i32 },
    /// Load a half word, signed.
    Lh { rd: u8, rs1: u8, imm: i32 },
    /// Load a word.
    Lw { rd: u8, rs1: u8, imm: i32 },
    /// Load a byte, unsigned.
    Lbu { rd: u8, rs1: u8, imm: i32 },
    /// Load a half word, unsigned.
    Lhu { rd: u8, rs1: u8, imm: i32 },
    /// Store a byte.
    Sb { rs1: u8, rs2: u8, imm: i32 },
    /// Store a half word.
    Sh { rs1: u8, rs2: u8, imm: i32 },
    /// Store a word.
    Sw { rs1: u8, rs2: u8, imm: i32 },
    /// Add an immediate.
    Addi { rd: u8, rs1: u8, imm: i32 },
    /// Set if less than an immediate, signed.
    Slti { rd: u8, rs1: u8, imm: i32 },
    /// Set if less than an immediate, unsigned.
    Sltiu { rd: u8, rs1: u8, imm: i32 },
    /// Exclusive or with an immediate.
    Xori { rd: u8, rs1: u8, imm: i32 },
    /// Or with an immediate.
    Ori { rd: u8, rs1: u8, imm: i32 },
    /// And with an immediate.
    Andi { rd: u8, rs1: u8, imm: i32 },
    /// Shift left by an immediate.
    Slli { rd: u8, rs1: u8, imm: i32 },
    /// Shift right by an immediate, zeros in.
    Srli { rd: u8, rs1: u8, imm: i32 },
    /// Shift right by an immediate, the sign in.
    Srai { rd: u8, rs1: u8, imm: i32 },
    /// Add.
    Add { rd: u8, rs1: u8, rs2: u8 },
    /// Subtract.
    Sub { rd: u8, rs1: u8, rs2: u8 },
    /// Shift left.
    Sll { rd: u8, rs1: u8, rs2: u8 },
    /// Set if less, signed.
    Slt { rd: u8, rs1: u8, rs2: u8 },
    /// Set if less, unsigned.
    Sltu { rd: u8, rs1: u8, rs2: u8 },
    /// Exclusive or.
    Xor { rd: u8, rs1: u8, rs2: u8 },
    /// Shift right, zeros in.
    Srl { rd: u8, rs1: u8, rs2: u8 },
    /// Shift right, the sign in.
    Sra { rd: u8, rs1: u8, rs2: u8 },
    /// Or.
    Or { rd: u8, rs1: u8, rs2: u8 },
    /// And.
    And { rd: u8, rs1: u8, rs2: u8 },
    /// Order memory accesses: nothing, with one core.
    Fence,
    /// Call the kernel.
    Ecall,
    /// Break into a debugger.
    Ebreak,
}
