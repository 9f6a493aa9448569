//! The registers by their names.

ghost use Rattle.std.specs.Prelude.{◌≡◌, ◌<◌, ◌≤◌, length, map};
ghost use Rattle.asm_syntax.specs.Values.{registers};
ghost use Rattle.rv_disasm.specs.OperandTexts as spec;

// The registers' names in the calling convention, by their numbers.
const REGISTERS: [&str; 32] = [
    "zero", "ra", "sp", "gp", "tp", "t0", "t1", "t2", "s0", "s1", "a0", "a1", "a2", "a3", "a4",
    "a5", "a6", "a7", "s2", "s3", "s4", "s5", "s6", "s7", "s8", "s9", "s10", "s11", "t3", "t4",
    "t5", "t6",
];

// The names, as a value that a contract can name.
fn register_names() -> [&'static str; 32]
    ensures names { map (λ name. name.now) result ≡ map (λ row. row.0) registers }
{
    REGISTERS
}

/// The name of a register in the calling convention, by its number, which is below 32. It has at most four characters.
pub fn register_name(number: u32) -> &'static str
    requires number { number < 32 }
    ensures name { result.now ≡ spec.register_name number }
    ensures size { length result.now ≤ 4 }
{
    let names = register_names();
    names[number as usize]
}
