//! The header of an image file.

ghost use Rattle.std.specs.Prelude.{◌≡◌, ◌≤◌, ◌+◌, length};
ghost use Rattle.image_loader.specs.ImageFiles as files;
ghost use Rattle.xinu_model.specs.Memory.{number_at};

use crate::faults::ImageFault;
use byteorder::{ByteOrder, LittleEndian};
use xinu_base::RAM_SIZE;

/// The number of bytes of a header.
pub(crate) const HEADER_SIZE: usize = 28;
/// The letters `XIMG`, the first in the lowest byte.
const MAGIC: u32 = 0x474D_4958;
/// The greatest priority of a process.
const GREATEST_PRIORITY: u32 = 32_767;

/// The fields of a header, in their order.
#[derive(Clone, Copy)]
pub(crate) struct Header {
    /// The letters with which a file begins.
    pub magic: u32,
    /// The version of the format.
    pub version: u32,
    /// The address of the first byte of the content.
    pub place: u32,
    /// The number of bytes of the content.
    pub length: u32,
    /// The address of the first instruction.
    pub entry: u32,
    /// The priority of the first process.
    pub priority: u32,
    /// The size in bytes that is asked for its stack.
    pub stack: u32,
}

impl Header {
    /// The header with which the bytes begin.
    pub(crate) fn of(bytes: &[u8]) -> Header
        requires whole { 28 ≤ length bytes.now }
        ensures fields { result ≡ files.header_of bytes.now }
    {
        Header {
            magic: word_at(bytes, 0),
            version: word_at(bytes, 4),
            place: word_at(bytes, 8),
            length: word_at(bytes, 12),
            entry: word_at(bytes, 16),
            priority: word_at(bytes, 20),
            stack: word_at(bytes, 24),
        }
    }

    /// The first field that doesn't hold, in a file of n bytes.
    pub(crate) fn first_fault(&self, size: usize) -> Option<ImageFault>
        ensures fault { result ≡ files.first_failed (files.header_tests self.now size) }
    {
        if self.magic != MAGIC {
            Some(ImageFault::Magic)
        } else if self.version != 1 {
            Some(ImageFault::Version)
        } else if !self.has_length(size) {
            Some(ImageFault::Length)
        } else if !self.is_placed() {
            Some(ImageFault::Place)
        } else if !self.has_entry() {
            Some(ImageFault::Entry)
        } else if !self.has_priority() {
            Some(ImageFault::Priority)
        } else {
            None
        }
    }

    // Whether a file of n bytes has the content's length after the header, and no more.
    fn has_length(&self, size: usize) -> bool
        ensures length { result ≡ files.has_length self.now size }
    {
        size as u64 == HEADER_SIZE as u64 + self.length as u64
    }

    // Whether the content lies in RAM from a multiple of 4 on.
    fn is_placed(&self) -> bool
        ensures placed { result ≡ files.is_placed self.now }
    {
        self.place % 4 == 0 && self.end() <= RAM_SIZE as u64
    }

    // Whether the entry is the address of a word of the content.
    fn has_entry(&self) -> bool
        ensures entry { result ≡ files.has_entry self.now }
    {
        self.entry % 4 == 0 && self.place <= self.entry && self.entry as u64 + 4 <= self.end()
    }

    // Whether a process can have the priority.
    fn has_priority(&self) -> bool
        ensures priority { result ≡ files.has_priority self.now }
    {
        1 <= self.priority && self.priority <= GREATEST_PRIORITY
    }

    // The address after the content, which needn't be one of 32 bits.
    fn end(&self) -> u64
        ensures end { result ≡ self.now.place + self.now.length }
    {
        self.place as u64 + self.length as u64
    }
}

// The word at a place, the lowest byte first.
fn word_at(bytes: &[u8], place: usize) -> u32
    requires inside { place + 4 ≤ length bytes.now }
    ensures word { result ≡ number_at bytes.now place 4 }
{
    LittleEndian::read_u32(&bytes[place..])
}
