//! The fields of a word: register numbers, and the immediate of each form as a word in two's complement.

ghost use Rattle.std.specs.Prelude.{◌≡◌, ◌<◌};
ghost use Rattle.xinu_model.specs.Isa.Instructions.{rd_of, rs1_of, rs2_of, imm_u, imm_j, imm_i, imm_b, imm_s};

/// The destination register, bits 11 to 7.
#[inline]
pub fn rd(word: u32) -> u32
    ensures field { result ≡ rd_of word }
    ensures bound { result < 32 }
{
    word / 0x80 % 32
}

/// The first source register, bits 19 to 15.
#[inline]
pub fn rs1(word: u32) -> u32
    ensures field { result ≡ rs1_of word }
    ensures bound { result < 32 }
{
    word / 0x8000 % 32
}

/// The second source register, bits 24 to 20.
#[inline]
pub fn rs2(word: u32) -> u32
    ensures field { result ≡ rs2_of word }
    ensures bound { result < 32 }
{
    word / 0x10_0000 % 32
}

/// The immediate of form U: bits 31 to 12 in their places, and zeros below.
#[inline]
pub fn immediate_u(word: u32) -> u32
    ensures { result ≡ imm_u word }
{
    word / 0x1000 * 0x1000
}

/// The immediate of form I: bits 31 to 20, with the sign in the bits above.
#[inline]
pub fn immediate_i(word: u32) -> u32
    ensures { result ≡ imm_i word }
{
    word / 0x10_0000 + word / 0x8000_0000 * 0xffff_f000
}

/// The immediate of form S: bits 31 to 25 and 11 to 7, with the sign in the bits above.
#[inline]
pub fn immediate_s(word: u32) -> u32
    ensures { result ≡ imm_s word }
{
    word / 0x200_0000 * 32 + word / 0x80 % 32 + word / 0x8000_0000 * 0xffff_f000
}

/// The immediate of form B: bits 31, 7, 30 to 25 and 11 to 8 and a zero, with the sign in the bits above.
#[inline]
pub fn immediate_b(word: u32) -> u32
    ensures { result ≡ imm_b word }
{
    let low = word / 0x80 % 2 * 0x800 + word / 0x200_0000 % 64 * 32 + word / 0x100 % 16 * 2;
    low + word / 0x8000_0000 * 0xffff_f000
}

/// The immediate of form J: bits 31, 19 to 12, 20 and 30 to 21 and a zero, with the sign in the bits above.
#[inline]
pub fn immediate_j(word: u32) -> u32
    ensures { result ≡ imm_j word }
{
    let low = word / 0x1000 % 256 * 0x1000
        + word / 0x10_0000 % 2 * 0x800
        + word / 0x20_0000 % 1024 * 2;
    low + word / 0x8000_0000 * 0xfff0_0000
}
