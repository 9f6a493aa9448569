//! Words as lines of assembler.

use rv_disasm::disassembled;

/// A word of each instruction, from 0x2000 on, with its line: words and lines as clang 14 and `llvm-objdump -M no-aliases` have them, but
/// for the labels of addresses, and for the sets that `fence` names.
const LINES: [(u32, &str); 40] = [
    (0xffff_f537, "lui a0, 1048575"),
    (0x0001_0d97, "auipc s11, 16"),
    (0xff1f_f0ef, "jal ra, at_00001ff8"),
    (0x0000_8067, "jalr zero, 0(ra)"),
    (0x7e3f_8fe3, "beq t6, gp, at_0000300e"),
    (0xfe04_90e3, "bne s1, zero, at_00001ff4"),
    (0x8052_4063, "blt tp, t0, at_00001018"),
    (0x0073_5463, "bge t1, t2, at_00002024"),
    (0x0139_6163, "bltu s2, s3, at_00002022"),
    (0x015a_7863, "bgeu s4, s5, at_00002034"),
    (0xfff6_0583, "lb a1, -1(a2)"),
    (0x7ff7_1683, "lh a3, 2047(a4)"),
    (0x0081_2283, "lw t0, 8(sp)"),
    (0x8008_4783, "lbu a5, -2048(a6)"),
    (0x0004_5883, "lhu a7, 0(s0)"),
    (0x016b_8fa3, "sb s6, 31(s7)"),
    (0xff8c_9023, "sh s8, -32(s9)"),
    (0x07ae_2223, "sw s10, 100(t3)"),
    (0xffd5_0513, "addi a0, a0, -3"),
    (0x7fff_2e93, "slti t4, t5, 2047"),
    (0x8000_b013, "sltiu zero, ra, -2048"),
    (0x0011_c113, "xori sp, gp, 1"),
    (0xfff2_e213, "ori tp, t0, -1"),
    (0x0ff3_f313, "andi t1, t2, 255"),
    (0x01f4_9413, "slli s0, s1, 31"),
    (0x0005_d513, "srli a0, a1, 0"),
    (0x4106_d613, "srai a2, a3, 16"),
    (0x0107_8733, "add a4, a5, a6"),
    (0x4139_08b3, "sub a7, s2, s3"),
    (0x016a_9a33, "sll s4, s5, s6"),
    (0x019c_2bb3, "slt s7, s8, s9"),
    (0x01cd_bd33, "sltu s10, s11, t3"),
    (0x01ff_4eb3, "xor t4, t5, t6"),
    (0x0020_d033, "srl zero, ra, sp"),
    (0x4052_51b3, "sra gp, tp, t0"),
    (0x0083_e333, "or t1, t2, s0"),
    (0x00b5_74b3, "and s1, a0, a1"),
    (0x0ff0_000f, "fence"),
    (0x0000_0073, "ecall"),
    (0x0010_0073, "ebreak"),
];

/// Words at addresses: of no row, with another funct7, a fence of fewer accesses, and a jump over the end of the addresses.
const OTHERS: [(u32, u32, &str); 4] = [
    (0, 0, ".word 0x00000000"),
    (0x0209_4033, 0, ".word 0x02094033"),
    (0x0330_000f, 0, ".word 0x0330000f"),
    (0xff1f_f0ef, 0, "jal ra, at_fffffff0"),
];

// Whether a word at an address is this line.
fn is_line(word: u32, address: u32, line: &str) -> bool {
    disassembled(word, address).bytes() == line.as_bytes()
}

#[test]
fn words_are_lines(rt: HostRuntime) {
    let mut address = 0x2000u32;
    for (word, line) in &LINES {
        assert!(rt; is_line(*word, address, line), "{line}");
        address = address.wrapping_add(4);
    }
    for (word, address, line) in &OTHERS {
        assert!(rt; is_line(*word, *address, line), "{line}");
    }
}
