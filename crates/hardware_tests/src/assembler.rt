//! Texts with the words that they are assembled to, and texts with their faults.

use crate::rows::same;
use rv_asm::{AsmFault, assemble};
use std::alloc::Global;
use std::process::Abort;

// The file of a text. The only call of `assemble` here, so that its contract is met once.
fn file_of(rt: &impl Abort, alloc: Global, text: &[u8]) -> Result<Vec<u8>, AsmFault> {
    assert!(rt; text.len() < 10_000_000);
    assemble(alloc, text)
}

// Whether words of a file, after so many, are these.
fn has_words(file: &[u8], count: usize, wanted: &[u32]) -> bool {
    let mut words = file.chunks_exact(4).skip(count);
    for word in wanted {
        if words.next() != Some(word.to_le_bytes().as_slice()) {
            return false;
        }
    }
    true
}

// How many bytes the file of a text has, if words of it, after so many, are these.
fn length(rt: &impl Abort, alloc: Global, text: &str, count: usize, wanted: &[u32]) -> usize {
    match file_of(rt, alloc, text.as_bytes()) {
        Ok(file) if has_words(file.as_slice(), count, wanted) => file.len(),
        _ => 0,
    }
}

// Words that another assembler writes for the same lines, and numbers from the RISC-V manual's layout of the forms.
const FORMS: [(&str, u32); 23] = [
    ("add x7, x6, x5", 0x0053_03b3),
    ("sub t2,t1,t0", 0x4053_03b3),
    ("srai t2, t1, 31", 0x41f3_5393),
    ("jalr t2, 9(t1)", 0x0093_03e7),
    ("lbu t2, -2048(t1)", 0x8003_4383),
    ("sw t0, -4(t1)", 0xfe53_2e23),
    ("lui t2, 524287", 0x7fff_f3b7),
    ("auipc t2, 0x80000", 0x8000_0397),
    ("addi x31, x31, -1", 0xffff_8f93),
    ("a: beq t1, t0, a", 0x0053_0063),
    ("a: jal t2, a", 0x0000_03ef),
    ("fence", 0x0ff0_000f),
    ("ecall", 0x0000_0073),
    ("ebreak", 0x0010_0073),
    ("nop", 0x0000_0013),
    ("mv a0, a1", 0x0005_8513),
    ("ret # back", 0x0000_8067),
    ("a:j a", 0x0000_006f),
    ("\t.word -2147483648 \t", 0x8000_0000),
    (".word 4294967295", 0xffff_ffff),
    (".word 0xFFffffFF", 0xffff_ffff),
    ("a: .word a", 0x0000_0000),
    ("sltiu s11 , zero , 0x7ff", 0x7ff0_3d93),
];

/// Texts; words of their files, after so many; and how many bytes the files have. The header has seven words.
const TEXTS: [(&str, usize, &[u32], usize); 7] = [
    (
        "li a7, 1\necall\nsys exit\n",
        0,
        &[
            0x474d_4958,
            1,
            0,
            20,
            0,
            20,
            4096,
            0x0000_08b7,
            0x0018_8893,
            0x0000_0073,
            0x0090_0893,
            0x0000_0073,
        ],
        48,
    ),
    // labels and directives
    (
        ".place 0x100\r\n.priority 25\n.stack 400\n.entry start # where it begins\n\n\
          data: .byte -1\n.byte 255\n.ascii \"#\\\"\\\\\\n\\0\"\n.align\n\
          start: first: la sp, data\n bne a0, zero, first\n j start\n .zero 3\n end:\n",
        0,
        &[
            0x474d_4958,
            1,
            256,
            27,
            264,
            25,
            400,
            0x2223_ffff,
            0x0000_0a5c,
            0x0000_0137,
            0x1001_0113,
            0xfe05_1ce3,
            0xff5f_f06f,
        ],
        55,
    ),
    (
        "li a0, 0x800\nli a1, -1\nli a2, 4294967295",
        7,
        &[
            0x0000_1537,
            0x8005_0513,
            0x0000_05b7,
            0xfff5_8593,
            0x0000_0637,
            0xfff6_0613,
        ],
        52,
    ),
    // calls by name
    (
        "# Asks\n.priority 25\nstart:  sys getpid          # a0\n mv   s0, a0\n li   a0, 1\n \
          sys  sleepms\n beq  s0, zero, start\n sys  exit\n",
        7,
        &[0x0010_0893, 0x0000_0073, 0x0005_0413],
        68,
    ),
    // the ends of the ranges of branches and jumps
    (
        "beq a0, a0, far\n.zero 4088\n.zero 2\nfar: .byte 0\n",
        7,
        &[0x7ea5_0fe3],
        4123,
    ),
    (
        "j far\n.zero 1048568\n.zero 2\nfar: .byte 0",
        7,
        &[0x7fff_f06f],
        1_048_603,
    ),
    ("a: .zero 4096\nbne a0, a1, a", 1031, &[0x80b5_1063], 4128),
];

#[test]
fn texts_have_their_words(rt: HostRuntime) {
    for (line, word) in &FORMS {
        same(&rt, *line, length(&rt, rt.alloc(), line, 7, &[*word]), 32);
    }
    for (text, count, words, bytes) in &TEXTS {
        let found = length(&rt, rt.alloc(), text, *count, words);
        same(&rt, *text, found, *bytes);
    }
}

// Texts with their first faults.
const FAULTS: [(&str, AsmFault); 66] = [
    ("li a7, x", AsmFault::UnknownName(1)),
    ("", AsmFault::BadLine(0)),
    ("# nothing\n", AsmFault::BadLine(0)),
    (".ascii \"abc\"", AsmFault::BadLine(0)),
    (".align\na:", AsmFault::BadLine(0)),
    ("add a0, a1", AsmFault::BadLine(1)),
    ("add a0, a1, 3", AsmFault::BadLine(1)),
    ("addi a0, a1, a2", AsmFault::UnknownName(1)),
    ("add a0, a1, a2,", AsmFault::BadLine(1)),
    ("add a0 a1, a2", AsmFault::BadLine(1)),
    ("lw a0, 4 (sp)", AsmFault::BadLine(1)),
    ("lw a0, foo", AsmFault::BadLine(1)),
    ("lw a0, foo(sp)", AsmFault::UnknownName(1)),
    ("lw a0, 4(fp)", AsmFault::UnknownName(1)),
    ("mv a0, x32", AsmFault::UnknownName(1)),
    ("mv a0, x01", AsmFault::UnknownName(1)),
    ("ADD a0, a1, a2", AsmFault::UnknownName(1)),
    ("foo 1, a(b), \"c\"", AsmFault::UnknownName(1)),
    ("foo 1a", AsmFault::BadLine(1)),
    ("foo \"\\t\"", AsmFault::BadLine(1)),
    ("foo \"\\n\"", AsmFault::UnknownName(1)),
    ("mv \"\\t\", a0", AsmFault::BadLine(1)),
    ("mv \"a\", a0", AsmFault::BadLine(1)),
    ("12 a0", AsmFault::BadLine(1)),
    (".wrd 1", AsmFault::UnknownName(1)),
    ("sys exit, 1", AsmFault::BadLine(1)),
    ("sys unknown", AsmFault::UnknownName(1)),
    ("sys 9", AsmFault::BadLine(1)),
    ("j 8", AsmFault::BadLine(1)),
    ("j nowhere", AsmFault::UnknownName(1)),
    ("addi a0, a0, 2048", AsmFault::OutOfRange(1)),
    ("addi a0, a0, 99999999999999999999", AsmFault::OutOfRange(1)),
    ("addi a0, a0, 18446744073709551616", AsmFault::OutOfRange(1)),
    ("addi a0, a0, 0X1", AsmFault::BadLine(1)),
    ("slli a0, a0, 32", AsmFault::OutOfRange(1)),
    ("lui a0, -1", AsmFault::OutOfRange(1)),
    ("li a0, 4294967296", AsmFault::OutOfRange(1)),
    (".byte 256", AsmFault::OutOfRange(1)),
    (".byte -129", AsmFault::OutOfRange(1)),
    (".zero 1048577", AsmFault::OutOfRange(1)),
    (".byte 1\nnop", AsmFault::OutOfRange(2)),
    (".zero 1048576\n.byte 1", AsmFault::OutOfRange(2)),
    (".place 2\nnop", AsmFault::OutOfRange(1)),
    (".place 1048580\nnop", AsmFault::OutOfRange(1)),
    (".priority 0\nnop", AsmFault::OutOfRange(1)),
    (".priority 32768\nnop", AsmFault::OutOfRange(1)),
    (".stack -1\nnop", AsmFault::OutOfRange(1)),
    (".stack 1\n.stack 1\nnop", AsmFault::BadLine(2)),
    ("a: .place 4\nnop", AsmFault::BadLine(1)),
    (".ascii \"\"\n.place 4\nnop", AsmFault::BadLine(2)),
    (".entry a\na: .byte 1", AsmFault::OutOfRange(1)),
    ("nop\n.entry a\na:", AsmFault::OutOfRange(2)),
    ("a: nop\nb: a: nop", AsmFault::DoubleLabel(2)),
    ("a: nop\na: foo\n", AsmFault::DoubleLabel(2)),
    ("a: nop\na: add\n", AsmFault::BadLine(2)),
    ("foo\nadd", AsmFault::UnknownName(1)),
    ("1a: b: nop", AsmFault::BadLine(1)),
    ("a : nop", AsmFault::BadLine(1)),
    (".ascii \"a", AsmFault::BadLine(1)),
    (".ascii \"\\t\"", AsmFault::BadLine(1)),
    (".ascii\"a\"", AsmFault::BadLine(1)),
    ("nop\r ", AsmFault::BadLine(1)),
    (
        "beq a0, a0, far\n.zero 4092\nfar: foo",
        AsmFault::UnknownName(3),
    ),
    (
        "beq a0, a0, far\n.zero 4092\nfar: nop",
        AsmFault::OutOfRange(1),
    ),
    (
        "beq a0, a0, odd\n.byte 1\nodd: .byte 1",
        AsmFault::OutOfRange(1),
    ),
    ("a: .zero 4100\nbne a0, a1, a", AsmFault::OutOfRange(2)),
];

#[test]
fn first_faults_are_named(rt: HostRuntime) {
    for (text, fault) in &FAULTS {
        let found = file_of(&rt, rt.alloc(), text.as_bytes()).err();
        same(&rt, *text, found, Some(*fault));
    }
}

// 70,000 lines, each with a label of its own.
fn long_text(rt: &impl Abort, alloc: Global) -> String {
    let mut text = String::new(alloc);
    for number in 10_000..80_000u32 {
        let line = format!(in alloc; "a{number}: nop\n").expect(rt, "memory");
        text.push_str(line.as_str()).expect(rt, "memory");
    }
    text
}

// A text of a MiB, with a label on each line, which an assembler that looks through all labels for each would not get through.
#[test]
fn long_texts_are_assembled(rt: HostRuntime) {
    let text = long_text(&rt, rt.alloc());
    assert!(rt; length(&rt, rt.alloc(), text.as_str(), 0, &[]) == 28 + 280_000);
}
