//! RAM: 1,048,576 bytes, read and written by bytes, half words and words, the lowest byte first.
//!
//! A transfer that isn't in RAM, or isn't at a multiple of its width, is refused and changes nothing.

ghost use Rattle.std.specs.Prelude.{◌≡◌, ◌+◌, ◌≤◌, List, ℕ, length, take, drop, Some, None, IfOk, is_ok, if◌then◌else◌};
ghost use Rattle.xinu_model.specs.Memory.{zeros, in_ram, may_access, number_at, with_bytes, with_number};

use byteorder::{ByteOrder, LittleEndian};
use std::alloc::Global;
use std::marker::Model;
use xinu_base::{NoMemory, RAM_SIZE};

// The number of bytes of RAM.
const SIZE: usize = RAM_SIZE as usize;

/// The answer of a transfer whose range isn't in RAM.
#[derive(Clone, Copy, PartialEq, Eq)]
pub struct OutOfRam;

/// The machine's memory, which has 1,048,576 bytes. A clone has the same bytes; it is refused only if memory runs out.
#[derive(Clone, Drop)]
pub struct Ram {
    bytes: Vec<u8>,
}

impl Model for Ram {
    ghost Value = { List ℕ };

    ghost view = { λ r. r.bytes.items };

    ghost invariant = { λ r. length r.bytes.items ≡ 1048576 };
}

impl Ram {
    /// RAM with all bytes zero.
    ///
    /// # Errors
    /// `NoMemory`, and nothing else.
    pub fn new(alloc: Global) -> Result<Self, NoMemory>
        ensures { IfOk result (λ ram. ram ≡ zeros) }
    {
        match vec![in alloc; 0u8; SIZE] {
            Ok(bytes) => Ok(Ram { bytes }),
            Err(_) => Err(NoMemory),
        }
    }

    /// The byte at an address. `None` if and only if it isn't in RAM.
    #[inline]
    pub fn read8(&self, a: u32) -> Option<u8>
        ensures { result ≡ (if may_access a 1 then Some (number_at self.now a 1) else None) }
    {
        let at = a as usize;
        if at < SIZE {
            Some(self.bytes[at])
        } else {
            None
        }
    }

    /// The half word at an address, its lowest byte first. `None` if and only if that isn't a multiple of 2, or the range isn't in RAM.
    #[inline]
    pub fn read16(&self, a: u32) -> Option<u16>
        ensures { result ≡ (if may_access a 2 then Some (number_at self.now a 2) else None) }
    {
        if a % 2 == 0 && a < RAM_SIZE {
            Some(LittleEndian::read_u16(&self.bytes[a as usize..]))
        } else {
            None
        }
    }

    /// The word at an address, its lowest byte first. `None` if and only if that isn't a multiple of 4, or the range isn't in RAM.
    #[inline]
    pub fn read32(&self, a: u32) -> Option<u32>
        ensures { result ≡ (if may_access a 4 then Some (number_at self.now a 4) else None) }
    {
        if a % 4 == 0 && a < RAM_SIZE {
            Some(LittleEndian::read_u32(&self.bytes[a as usize..]))
        } else {
            None
        }
    }

    /// Writes a byte; all others stay. `false` if and only if the address isn't in RAM; then nothing is changed.
    #[inline]
    pub fn write8(&mut self, a: u32, v: u8) -> bool
        ensures wrote { result ≡ may_access a 1 }
        ensures memory { self.new ≡ (if may_access a 1 then with_number self.old a 1 v else self.old) }
    {
        let at = a as usize;
        if at < SIZE {
            self.bytes[at] = v;
            return true;
        }
        false
    }

    /// Writes a half word, its lowest byte first; all other bytes stay. `false` if and only if the address isn't a multiple of 2, or the
    /// range isn't in RAM; then nothing is changed.
    #[inline]
    pub fn write16(&mut self, a: u32, v: u16) -> bool
        ensures wrote { result ≡ may_access a 2 }
        ensures memory { self.new ≡ (if may_access a 2 then with_number self.old a 2 v else self.old) }
    {
        if a % 2 == 0 && a < RAM_SIZE {
            put_half(&mut self.bytes, a as usize, v);
            return true;
        }
        false
    }

    /// Writes a word, its lowest byte first; all other bytes stay. `false` if and only if the address isn't a multiple of 4, or the range
    /// isn't in RAM; then nothing is changed.
    #[inline]
    pub fn write32(&mut self, a: u32, v: u32) -> bool
        ensures wrote { result ≡ may_access a 4 }
        ensures memory { self.new ≡ (if may_access a 4 then with_number self.old a 4 v else self.old) }
    {
        if a % 4 == 0 && a < RAM_SIZE {
            put_word(&mut self.bytes, a as usize, v);
            return true;
        }
        false
    }

    /// Copies bytes into RAM from an address on; all others stay. Refused if and only if the range isn't in RAM; then nothing is changed.
    pub fn copy_in(&mut self, a: u32, bytes: &[u8]) -> Result<(), OutOfRam>
        ensures answer { is_ok result ≡ in_ram a (length bytes.now) }
        ensures memory { self.new ≡ (if in_ram a (length bytes.now) then with_bytes self.old a (length bytes.now) bytes.now else self.old) }
    {
        let at = a as usize;
        if at > SIZE || SIZE - at < bytes.len() {
            return Err(OutOfRam);
        }
        let end = at + bytes.len();
        self.bytes[at..end].copy_from_slice(bytes);
        Ok(())
    }

    /// The bytes from an address to the end of RAM, which has 1,048,576 bytes.
    pub fn bytes_from(&self, a: u32) -> &[u8]
        ensures bytes { result.now ≡ drop a self.now }
        ensures whole { length self.now ≡ 1048576 }
    {
        let at = a as usize;
        if at < SIZE { &self.bytes[at..] } else { &[] }
    }

    /// The `n` bytes from an address on. Refused if and only if the range isn't in RAM.
    pub fn copy_out(&self, a: u32, n: usize) -> Result<&[u8], OutOfRam>
        ensures answer { is_ok result ≡ in_ram a n }
        ensures bytes { IfOk result (λ bytes. bytes.now ≡ take n (drop a self.now)) }
        ensures len { IfOk result (λ bytes. length bytes.now ≡ n) }
    {
        let at = a as usize;
        if at > SIZE || SIZE - at < n {
            return Err(OutOfRam);
        }
        Ok(&self.bytes[at..at + n])
    }
}

// Writes a half word into bytes, the lowest byte first.
#[inline]
fn put_half(bytes: &mut [u8], at: usize, v: u16)
    requires { at + 2 ≤ length bytes.old }
    ensures { bytes.new ≡ with_number bytes.old at 2 v }
{
    LittleEndian::write_u16(&mut bytes[at..], v);
}

// Writes a word into bytes, the lowest byte first.
#[inline]
fn put_word(bytes: &mut [u8], at: usize, v: u32)
    requires { at + 4 ≤ length bytes.old }
    ensures { bytes.new ≡ with_number bytes.old at 4 v }
{
    LittleEndian::write_u32(&mut bytes[at..], v);
}
