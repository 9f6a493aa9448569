//! What is true of every line that is printed.

ghost use Rattle.std.specs.Prelude.{◌≡◌, ℕ, ◌<◌, ◌^◌, true, false, List, Some, None};
ghost use Rattle.rv_disasm.specs.OperandTexts.{label_of};
ghost use Rattle.rv_disasm.specs.Readings.{IsReadBack, IsLabelled, is_instruction};
ghost use Rattle.rv_isa.specs.Words.{instruction_of};
ghost use Rattle.rv_isa.specs.declared.instr.Instr.{Instr};
ghost use Rattle.rv_isa.specs.declared.instr.Instr.TheVariants.{Fence};

/// The assembler reads the line of each word back.
///
/// The line has no label, and is an instruction if the word can be written as one. Let labels give the address which a branch or a jump
/// goes to to the label that is named after it: then the line's four bytes are the word's; at a multiple of 4 in RAM it has no fault,
/// also with new labels before it; and the label isn't too far away within RAM.
pub fn lines_are_read_back()
    ensures { (word : ℕ) (at : ℕ) → word < 2 ^ 32 → at < 2 ^ 32 → IsReadBack word at }
{}

/// Two addresses have two labels.
pub fn labels_are_distinct()
    ensures { (a : ℕ) (b : ℕ) → a < 2 ^ 32 → b < 2 ^ 32 → label_of a ≡ label_of b → a ≡ b }
{}

/// The label of an address may stand before a line: with that label and `: ` before it, a text is read as the same line with that label.
pub fn lines_take_labels()
    ensures { (at : ℕ) (text : List ℕ) → IsLabelled at text }
{}

/// A word is written as an instruction if `rv_isa` decodes it, unless it is a fence other than 0x0FF0000F, which the assembler can't write.
/// A word that `rv_isa` doesn't decode isn't written as one.
pub fn instructions_are_written()
    ensures written { (word : ℕ) (i : Instr) → word < 2 ^ 32 → instruction_of word ≡ Some i → (i ≡ Fence → word ≡ 0x0ff0000f) → is_instruction word ≡ true }
    ensures unwritten { (word : ℕ) → instruction_of word ≡ None → is_instruction word ≡ false }
{}
