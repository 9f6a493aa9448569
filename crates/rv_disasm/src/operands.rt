//! Operands, and how they are written.

ghost use Rattle.std.specs.Prelude.{◌≡◌, ◌+◌, ◌<◌, ◌≤◌, [], ◌∷◌, ◌++◌, length};
ghost use Rattle.rv_disasm.specs.OperandTexts.{operand_text, listed, label_of, IsProper};

use crate::asm_line::AsmLine;
use crate::registers::register_name;

/// What is written after a mnemonic.
#[derive(Clone, Copy)]
pub(crate) enum Operand {
    /// A register, by its number.
    Register(u32),
    /// A number.
    Number(i32),
    /// A number, and a register in parentheses.
    Offset(i32, u32),
    /// The address that a branch or a jump goes to.
    Target(u32),
}

impl AsmLine {
    /// Appends a blank and two operands. They must fit.
    pub(crate) fn two(&mut self, first: Operand, second: Operand)
        requires first { IsProper first }
        requires second { IsProper second }
        requires fits { length self.old ≤ 10 }
        ensures listed { self.new ≡ self.old ++ 32 ∷ [] ++ listed (first ∷ second ∷ []) }
    {
        self.append(b" ");
        self.operand(first);
        self.append(b", ");
        self.operand(second);
    }

    /// Appends a blank and three operands. They must fit.
    pub(crate) fn three(&mut self, first: Operand, second: Operand, third: Operand)
        requires first { IsProper first }
        requires second { IsProper second }
        requires third { IsProper third }
        requires fits { length self.old ≤ 10 }
        ensures listed { self.new ≡ self.old ++ 32 ∷ [] ++ listed (first ∷ second ∷ third ∷ []) }
    {
        self.append(b" ");
        self.operand(first);
        self.append(b", ");
        self.operand(second);
        self.append(b", ");
        self.operand(third);
    }

    // Appends an operand.
    fn operand(&mut self, operand: Operand)
        requires proper { IsProper operand }
        requires fits { length self.old + 17 ≤ 80 }
        ensures text { self.new ≡ self.old ++ operand_text operand }
        ensures size { length self.new ≤ length self.old + 17 }
    {
        match operand {
            Operand::Register(number) => self.append(register_name(number).as_bytes()),
            Operand::Number(number) => self.number(number),
            Operand::Offset(number, register) => self.offset(number, register),
            Operand::Target(address) => self.label(address),
        }
    }

    // Appends a number, and a register in parentheses.
    fn offset(&mut self, number: i32, register: u32)
        requires register { register < 32 }
        requires fits { length self.old + 17 ≤ 80 }
        ensures text { self.new ≡ self.old ++ operand_text (Operand.Offset number register) }
        ensures size { length self.new ≤ length self.old + 17 }
    {
        self.number(number);
        self.append(b"(");
        self.append(register_name(register).as_bytes());
        self.append(b")");
    }

    // Appends the label of an address.
    fn label(&mut self, address: u32)
        requires fits { length self.old + 11 ≤ 80 }
        ensures label { self.new ≡ self.old ++ label_of address }
        ensures size { length self.new ≡ length self.old + 11 }
    {
        self.append(b"at_");
        self.hex_word(address);
    }
}
