//! A line of a transcript while it is made.

ghost use Rattle.std.specs.Prelude.{ℕ, ◌≡◌, ◌+◌, ◌*◌, ◌≤◌, ◌<◌, ◌^◌, List, [], ◌∷◌, ◌++◌, length, min};
ghost use Rattle.std.specs.Fmt.{signed_decimal};
ghost use lib.Signed.{mag};
ghost use Rattle.host_port.specs.LineText as digit;
ghost use Rattle.host_port.specs.LineText.{blanked, hex_byte, hex_of};

use arrayvec::ArrayVec;
use itoa::Buffer;
use std::marker::Model;

/// At most 160 bytes of text. A clause sees the bytes.
#[derive(Drop)]
pub struct Line {
    text: ArrayVec<u8, 160>,
}

impl Model for Line {
    ghost Value = { List ℕ };

    ghost view = { λ l. l.text.items };
}

impl Line {
    /// An empty line.
    pub fn new() -> Self
        ensures empty { result ≡ [] }
    {
        Line {
            text: ArrayVec::new(),
        }
    }

    /// Appends a blank, unless the line is empty, and the text. It must fit.
    pub fn word(&mut self, text: &str)
        requires fits { length self.old + min 1 (length self.old) + length text.now ≤ 160 }
        ensures word { self.new ≡ blanked self.old ++ text.now }
        ensures size { length self.new ≤ length self.old + 1 + length text.now }
    {
        self.blank();
        self.append(text.as_bytes());
    }

    /// Appends a blank, unless the line is empty, and the number in decimal digits, with `-` before a negative one. It must fit.
    pub fn number(&mut self, n: i64)
        requires fits { length self.old + min 1 (length self.old) + min 20 (length (signed_decimal n)) ≤ 160 }
        ensures number { self.new ≡ blanked self.old ++ signed_decimal n }
        ensures size { length self.new ≤ length self.old + 21 }
        ensures small { mag n < 2 ^ 32 → length self.new ≤ length self.old + 12 }
    {
        let mut digits = Buffer::new();
        self.word(digits.format(n));
    }

    /// Appends two hexadecimal digits in lower case, with no blank before them. They must fit.
    pub fn hex2(&mut self, b: u8)
        requires fits { length self.old + 2 ≤ 160 }
        ensures hex { self.new ≡ self.old ++ hex_byte b }
        ensures size { length self.new ≡ length self.old + 2 }
    {
        self.append(&[hex_digit(b / 16), hex_digit(b % 16)]);
    }

    /// Appends two hexadecimal digits for each byte, with no blanks. They must fit.
    pub fn hex(&mut self, bytes: &[u8])
        requires fits { length self.old + 2 * length bytes.now ≤ 160 }
        ensures hex { self.new ≡ self.old ++ hex_of bytes.now }
        ensures size { length self.new ≡ length self.old + 2 * length bytes.now }
    {
        for b in bytes {
            self.hex2(*b);
        }
    }

    /// Appends the line feed. It must fit.
    pub fn end(&mut self)
        requires fits { length self.old + 1 ≤ 160 }
        ensures end { self.new ≡ self.old ++ 10 ∷ [] }
        ensures size { length self.new ≡ length self.old + 1 }
    {
        self.append(b"\n");
    }

    /// The bytes of the line.
    pub fn bytes(&self) -> &[u8]
        ensures bytes { result.now ≡ self.now }
        ensures fits { length result.now ≤ 160 }
    {
        self.text.as_slice()
    }

    // Appends a blank, unless the line is empty.
    fn blank(&mut self)
        requires fits { length self.old + min 1 (length self.old) ≤ 160 }
        ensures blank { self.new ≡ blanked self.old }
        ensures size { length self.new ≡ length self.old + min 1 (length self.old) }
    {
        if !self.text.is_empty() {
            self.text.push(b' ');
        }
    }

    // Appends bytes.
    fn append(&mut self, bytes: &[u8])
        requires fits { length self.old + length bytes.now ≤ 160 }
        ensures appended { self.new ≡ self.old ++ bytes.now }
        ensures size { length self.new ≡ length self.old + length bytes.now }
    {
        let _ = self.text.try_extend_from_slice(bytes);
    }
}

// The character of a hexadecimal digit.
fn hex_digit(d: u8) -> u8
    requires { d < 16 }
    ensures { result ≡ digit.hex_digit d }
{
    if d < 10 { b'0' + d } else { b'a' + (d - 10) }
}
