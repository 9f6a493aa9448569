//! Single instructions against the manual.

use crate::rows::same;
use rv_hart::Cause::{Break, Illegal, Load, Store, Target};
use rv_hart::Outcome::{self, Call, Trap, Went};
use rv_hart::{Hart, Ram, step};
use std::process::Abort;
use std::test::Fail;

/// An instruction at 0, x5 and x6; what comes of it, and x7 and the pc after it.
type Row = (u32, u32, u32, Outcome, u32, u32);

/// Sums, shifts and comparisons. The result goes to x7.
const VALUES: [Row; 16] = [
    (0x01f2_9393, 3, 0, Went, 0x8000_0000, 4), // slli by 31
    (0x01f2_d393, 0x8000_0000, 0, Went, 1, 4), // srli by 31
    (0x41e2_d393, 0x7fff_ffff, 0, Went, 1, 4), // srai, positive
    (0x0062_93b3, 5, 32, Went, 5, 4), // sll by 32
    (0x0062_d3b3, 0x8000_0000, 63, Went, 1, 4), // srl by 63
    (0x0062_83b3, 0xffff_ffff, 2, Went, 1, 4), // add
    (0x4062_83b3, 1, 2, Went, 0xffff_ffff, 4), // sub
    (0xfff2_8393, 0, 0, Went, 0xffff_ffff, 4), // addi -1
    (0xfff2_a393, 0xffff_fffe, 0, Went, 1, 4), // slti -1
    (0xfff2_a393, 0, 0, Went, 0, 4), // slti -1
    (0xfff2_b393, 0xffff_fffe, 0, Went, 1, 4), // sltiu -1
    (0xfff2_b393, 0xffff_ffff, 0, Went, 0, 4), // sltiu -1
    (0x8002_e393, 1, 0, Went, 0xffff_f801, 4), // ori -2048
    (0x7ff2_f393, 0xffff_ffff, 0, Went, 0x7ff, 4), // andi 2047
    (0x8000_03b7, 0, 0, Went, 0x8000_0000, 4), // lui
    (0xffff_f397, 0, 0, Went, 0xffff_f000, 4), // auipc
];

/// Loads and stores. The word 0x80000180 is at 0x1000.
const MEMORY: [Row; 14] = [
    (0x0002_8383, 0x1000, 0, Went, 0xffff_ff80, 4), // lb
    (0x0002_c383, 0x1000, 0, Went, 128, 4), // lbu
    (0x0022_9383, 0x1000, 0, Went, 0xffff_8000, 4), // lh
    (0x0022_d383, 0x1000, 0, Went, 0x0000_8000, 4), // lhu
    (0xffc2_a383, 0x1004, 0, Went, 0x8000_0180, 4), // lw
    (0x0002_a383, 0x000f_fffc, 0, Went, 0, 4), // the last word
    (0x0012_c383, 0xffff_ffff, 0, Went, 131, 4), // the sum wraps
    (0x0002_9383, 0x1001, 0, Trap(Load), 0, 0), // lh, odd
    (0x0002_a383, 0x000f_fffd, 0, Trap(Load), 0, 0), // lw, not aligned
    (0x0002_8383, 0x0010_0000, 0, Trap(Load), 0, 0), // lb after RAM
    (0x0002_8383, 0xffff_ffff, 0, Trap(Load), 0, 0), // lb, the highest
    (0x0062_9023, 0x000f_fffe, 0, Went, 0, 4), // the last half
    (0x0062_a023, 0x000f_fffe, 0, Trap(Store), 0, 0), // sw, not aligned
    (0x0062_8023, 0x0010_0000, 0, Trap(Store), 0, 0), // sb after RAM
];

/// Branches, jumps, and words of the system and of no instruction.
const OTHERS: [Row; 22] = [
    (0x0062_8463, 3, 3, Went, 0, 8), // beq taken
    (0x0062_8463, 3, 4, Went, 0, 4), // beq not taken
    (0x0062_8163, 3, 4, Went, 0, 4), // not taken, odd
    (0x0062_8163, 3, 3, Trap(Target), 0, 0), // taken, odd
    (0x0062_c463, 0x8000_0000, 1, Went, 0, 8), // blt, signed
    (0x0062_e463, 0x8000_0000, 1, Went, 0, 4), // bltu, unsigned
    (0x0062_d463, 0x8000_0000, 1, Went, 0, 4), // bge, signed
    (0x0062_f463, 0x8000_0000, 1, Went, 0, 8), // bgeu, unsigned
    (0xfe62_9ee3, 0, 1, Went, 0, 0xffff_fffc), // bne below 0
    (0x800f_f3ef, 0, 0, Went, 4, 0xffff_f000), // jal below 0
    (0x0020_03ef, 0, 0, Trap(Target), 0, 0), // jal, odd
    (0x0090_00e7, 0, 0, Went, 0, 8), // jalr x1, 9(x0)
    (0x0012_83e7, 8, 0, Went, 4, 8), // bit 0 cleared
    (0x0022_83e7, 8, 0, Trap(Target), 0, 0), // jalr, odd
    (0, 0, 0, Trap(Illegal), 0, 0), // nothing
    (0x0262_83b3, 0, 0, Trap(Illegal), 0, 0), // funct7 of 1
    (0x4002_9393, 0, 0, Trap(Illegal), 0, 0), // slli, funct7
    (0x0062_a463, 0, 0, Trap(Illegal), 0, 0), // branch, funct3
    (0x0002_93e7, 8, 0, Trap(Illegal), 0, 0), // jalr, funct3
    (0x0010_0073, 0, 0, Trap(Break), 0, 0), // ebreak
    (115, 0, 0, Call, 0, 4), // ecall
    (0x0ff0_000f, 0, 0, Went, 0, 4), // fence
];

// What comes of an instruction.
fn ran(ram: &mut Ram, word: u32, a: u32, b: u32) -> (Outcome, u32, u32) {
    let mut hart = Hart::ZERO;
    hart.regs[5] = a;
    hart.regs[6] = b;
    ram.write32(0, word);
    let outcome = step(&mut hart, ram);
    (outcome, hart.regs[7], hart.pc)
}

// Each instruction does what its row says.
fn check(rt: &impl Abort, ram: &mut Ram, rows: &[Row]) {
    for (word, a, b, outcome, x7, pc) in rows {
        same(rt, *word, ran(ram, *word, *a, *b), (*outcome, *x7, *pc));
    }
}

#[test]
fn instructions_do_what_the_manual_says(rt: HostRuntime) -> Result<(), Fail> {
    let Ok(mut ram) = Ram::new(rt.alloc()) else {
        return Err(Fail::from("no memory"));
    };
    ram.write32(0x1000, 0x8000_0180);
    check(&rt, &mut ram, &VALUES);
    check(&rt, &mut ram, &MEMORY);
    check(&rt, &mut ram, &OTHERS);
    Ok(())
}
