//! The table of instructions: for each its mnemonic, its bits under a mask, and how its fields lie in the word.

ghost use Rattle.std.specs.Prelude.{◌≡◌, ◌≤◌, map, MatchOption, IfSome, Some, None};
ghost use Rattle.std.specs.List.{All, AllPairs};
ghost use Rattle.xinu_model.specs.Isa.Instructions.{rows};
ghost use Rattle.rv_isa.specs.Encoding.{HasWords, fixed};
ghost use Rattle.rv_isa.specs.Table as spec;
ghost use Rattle.rv_isa.specs.Table.{NoWordHasBoth, seen, defined, form_of};

/// How the fields of an instruction lie in its word.
#[derive(Clone, Copy, PartialEq, Eq)]
pub enum Form {
    /// A destination and the upper 20 bits.
    U,
    /// A destination and the offset of a jump.
    J,
    /// A destination, a source and 12 bits.
    I,
    /// Two sources and the offset of a branch.
    B,
    /// Two sources and the offset of a store.
    S,
    /// A destination, a source and a shift amount.
    Shift,
    /// A destination and two sources.
    R,
    /// A fence, whatever its other bits.
    Fence,
    /// The whole word is fixed.
    Whole,
}

/// An instruction of the table. Its words are those whose bits under `mask` are `bits`.
#[derive(Clone, Copy)]
pub struct Row {
    /// The mnemonic, in lower case.
    pub name: &'static str,
    /// Which bits are fixed.
    pub mask: u32,
    /// The values of the fixed bits.
    pub bits: u32,
    /// Where the fields lie.
    pub form: Form,
}

macro_rules! row {
    ($name:literal, $mask:literal, $bits:literal, $form:ident) => {
        Row {
            name: $name,
            mask: $mask,
            bits: $bits,
            form: Form::$form,
        }
    };
}

/// The forty instructions.
pub const ROWS: [Row; 40] = [
    row!("lui", 0x7f, 0x37, U),
    row!("auipc", 0x7f, 0x17, U),
    row!("jal", 0x7f, 0x6f, J),
    row!("jalr", 0x707f, 0x67, I),
    row!("beq", 0x707f, 0x63, B),
    row!("bne", 0x707f, 0x1063, B),
    row!("blt", 0x707f, 0x4063, B),
    row!("bge", 0x707f, 0x5063, B),
    row!("bltu", 0x707f, 0x6063, B),
    row!("bgeu", 0x707f, 0x7063, B),
    row!("lb", 0x707f, 0x3, I),
    row!("lh", 0x707f, 0x1003, I),
    row!("lw", 0x707f, 0x2003, I),
    row!("lbu", 0x707f, 0x4003, I),
    row!("lhu", 0x707f, 0x5003, I),
    row!("sb", 0x707f, 0x23, S),
    row!("sh", 0x707f, 0x1023, S),
    row!("sw", 0x707f, 0x2023, S),
    row!("addi", 0x707f, 0x13, I),
    row!("slti", 0x707f, 0x2013, I),
    row!("sltiu", 0x707f, 0x3013, I),
    row!("xori", 0x707f, 0x4013, I),
    row!("ori", 0x707f, 0x6013, I),
    row!("andi", 0x707f, 0x7013, I),
    row!("slli", 0xfe00707f, 0x1013, Shift),
    row!("srli", 0xfe00707f, 0x5013, Shift),
    row!("srai", 0xfe00707f, 0x40005013, Shift),
    row!("add", 0xfe00707f, 0x33, R),
    row!("sub", 0xfe00707f, 0x40000033, R),
    row!("sll", 0xfe00707f, 0x1033, R),
    row!("slt", 0xfe00707f, 0x2033, R),
    row!("sltu", 0xfe00707f, 0x3033, R),
    row!("xor", 0xfe00707f, 0x4033, R),
    row!("srl", 0xfe00707f, 0x5033, R),
    row!("sra", 0xfe00707f, 0x40005033, R),
    row!("or", 0xfe00707f, 0x6033, R),
    row!("and", 0xfe00707f, 0x7033, R),
    row!("fence", 0x707f, 0xf, Fence),
    row!("ecall", 0xffffffff, 0x73, Whole),
    row!("ebreak", 0xffffffff, 0x100073, Whole),
];

/// [`ROWS`], as a value that a contract can name: a contract can't name a constant that holds references, so this call says that the rows
/// are those of the definition.
pub fn table() -> [Row; 40]
    ensures { map seen result ≡ map defined rows }
{
    ROWS
}

/// The row of a mnemonic in lower case. `None` if and only if it is no instruction's. The fixed bits of the row leave room for its fields.
pub fn row_named(name: &[u8]) -> Option<Row>
    ensures row { MatchOption result (spec.row_named name.now ≡ None) (λ row. spec.row_named name.now ≡ Some (seen row)) }
    ensures bits { IfSome result (λ row. row.bits ≤ fixed (form_of row.form)) }
{
    let rows = table();
    for row in &rows {
        if row.name.as_bytes() == name {
            return Some(*row);
        }
    }
    None
}

/// The words of each row's instruction are the row's bits and the fields in their places.
pub fn rows_have_words()
    ensures { All HasWords rows }
{}

/// No word has the bits of two rows: two rows differ in a bit that both fix.
pub fn rows_apart()
    ensures { AllPairs NoWordHasBoth rows }
{}
