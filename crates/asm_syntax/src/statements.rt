//! Statements: what a line asks for after its labels.

/// A field of the image's header that a directive sets to a number.
#[derive(Clone, Copy, Drop)]
pub enum HeaderField {
    /// Where the content begins.
    PlaceField,
    /// The priority of the process.
    PriorityField,
    /// The size of its stack.
    StackField,
}

/// A statement.
#[derive(Clone, Copy, Drop)]
pub enum Statement<'a> {
    /// There is none.
    Empty,
    /// It hasn't the form of any statement.
    Malformed,
    /// It has a name that isn't known, or one in place of a number.
    Unresolved,
    /// A number doesn't fit.
    Excessive,
    /// A directive that sets this field has a name in place of its number.
    NameFor(HeaderField),
    /// A directive that sets this field has a negative number.
    NegativeFor(HeaderField),
    /// An instruction.
    One(u32),
    /// Two instructions.
    Two(u32, u32),
    /// A branch to a label: its fixed bits and its registers.
    Branch {
        /// The fixed bits.
        bits: u32,
        /// The first source.
        rs1: u8,
        /// The second source.
        rs2: u8,
        /// Where it goes.
        label: &'a [u8],
    },
    /// A jump to a label.
    JumpTo {
        /// The register that takes the return address.
        rd: u8,
        /// Where it goes.
        label: &'a [u8],
    },
    /// Two instructions that load the address of a label.
    AddressOf {
        /// The register that takes it.
        rd: u8,
        /// The label.
        label: &'a [u8],
    },
    /// A word of content.
    Word(u32),
    /// A byte of content.
    Byte(u8),
    /// A text, as it is written.
    Text(&'a [u8]),
    /// The address of a label as a word of content.
    WordAt(&'a [u8]),
    /// Zero bytes.
    Zeros(u32),
    /// Zero bytes up to a multiple of 4.
    Align,
    /// The place of the content.
    Place(u64),
    /// The label at which the process begins.
    Entry(&'a [u8]),
    /// The priority of the process.
    Priority(u64),
    /// The size of its stack.
    Stack(u64),
}
