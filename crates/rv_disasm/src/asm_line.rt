//! A line of assembler while it is made.

ghost use Rattle.std.specs.Prelude.{ℕ, ◌≡◌, ◌+◌, ◌≤◌, ◌<◌, List, [], ◌++◌, length};
ghost use Rattle.std.specs.Fmt.{signed_decimal};
ghost use Rattle.xinu_base.specs.Hexadecimal as digit;
ghost use Rattle.rv_disasm.specs.OperandTexts as spec;

use arrayvec::ArrayVec;
use itoa::Buffer;
use std::marker::Model;

/// A line of assembler, of at most 80 bytes. A clause sees the bytes.
#[derive(Drop)]
pub struct AsmLine {
    text: ArrayVec<u8, 80>,
}

impl Model for AsmLine {
    ghost Value = { List ℕ };

    ghost view = { λ l. l.text.items };
}

impl AsmLine {
    /// The bytes of the line, without a line feed.
    pub fn bytes(&self) -> &[u8]
        ensures bytes { result.now ≡ self.now }
        ensures fits { length result.now ≤ 80 }
    {
        self.text.as_slice()
    }

    /// An empty line.
    pub fn new() -> Self
        ensures empty { result ≡ [] }
    {
        AsmLine {
            text: ArrayVec::new(),
        }
    }

    /// Appends bytes. They must fit.
    pub fn append(&mut self, bytes: &[u8])
        requires fits { length self.old + length bytes.now ≤ 80 }
        ensures appended { self.new ≡ self.old ++ bytes.now }
        ensures size { length self.new ≡ length self.old + length bytes.now }
    {
        let _ = self.text.try_extend_from_slice(bytes);
    }

    /// Appends a number in decimal digits, with `-` before a negative one. It must fit.
    pub(crate) fn number(&mut self, n: i32)
        requires fits { length self.old + 11 ≤ 80 }
        ensures number { self.new ≡ self.old ++ signed_decimal n }
        ensures size { length self.new ≤ length self.old + 11 }
    {
        let mut digits = Buffer::new();
        self.append(digits.format(n).as_bytes());
    }

    /// Appends a word as eight hexadecimal digits. They must fit.
    pub fn hex_word(&mut self, n: u32)
        requires fits { length self.old + 8 ≤ 80 }
        ensures digits { self.new ≡ self.old ++ spec.hex_word n }
        ensures size { length self.new ≡ length self.old + 8 }
    {
        self.append(&[
            hex_digit(n / 0x1000_0000 % 16),
            hex_digit(n / 0x100_0000 % 16),
            hex_digit(n / 0x10_0000 % 16),
            hex_digit(n / 0x1_0000 % 16),
            hex_digit(n / 0x1000 % 16),
            hex_digit(n / 0x100 % 16),
            hex_digit(n / 0x10 % 16),
            hex_digit(n % 16),
        ]);
    }
}

// The character of a hexadecimal digit.
fn hex_digit(d: u32) -> u8
    requires { d < 16 }
    ensures { result ≡ digit.hex_digit d }
{
    if d < 10 {
        b'0' + d as u8
    } else {
        b'a' + (d as u8 - 10)
    }
}
