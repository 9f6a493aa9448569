//! The segments of an ELF file, read off their headers one after another.

ghost use Rattle.std.specs.Prelude.{◌≡◌, ◌≤◌, ◌+◌, ◌∷◌, [], true, length, filter, List, MatchOption};
ghost use Rattle.std.specs.List.{list_any, list_all};
ghost use Rattle.elf_loader.specs.ElfHeaders as headers;
ghost use Rattle.elf_loader.specs.ElfHeaders.{segment_at, segments_from};
ghost use Rattle.elf_loader.specs.ElfFiles as files;
ghost use Rattle.elf_loader.specs.Tables.{HasTable};
ghost use Rattle.elf_loader.specs.declared.segments.Segment.{Segment};

use crate::header::{ElfHeader, SEGMENT_SIZE, word_at};
use std::marker::Model;
use xinu_base::RAM_SIZE;

/// The type of a segment that is loaded.
const LOAD: u32 = 1;
/// The type of the segment that names the program which loads this one.
const DYNAMIC: u32 = 3;

/// A segment: the fields of its header that say how it is loaded.
#[derive(Clone, Copy, Drop)]
pub(crate) struct Segment {
    /// What it is: loaded, notes, ..
    pub kind: u32,
    /// Where its bytes begin in the file.
    pub offset: u32,
    /// Its first address.
    pub place: u32,
    /// How many bytes of the file it has.
    pub file_size: u32,
    /// How many addresses it has.
    pub memory_size: u32,
}

impl Segment {
    /// The segment whose header is at a place.
    fn at(bytes: &[u8], at: usize) -> Segment
        requires { at + 32 ≤ length bytes.now }
        ensures { result ≡ segment_at bytes.now at }
    {
        Segment {
            kind: word_at(bytes, at),
            offset: word_at(bytes, at + 4),
            place: word_at(bytes, at + 8),
            file_size: word_at(bytes, at + 16),
            memory_size: word_at(bytes, at + 20),
        }
    }

    /// Whether it is loaded: its type says so, and it has addresses.
    pub(crate) fn is_load(&self) -> bool
        ensures { result ≡ headers.is_load self.now }
    {
        self.kind == LOAD && self.memory_size > 0
    }

    /// Whether it names a program that loads this one.
    fn is_dynamic(&self) -> bool
        ensures { result ≡ headers.is_dynamic self.now }
    {
        self.kind == DYNAMIC
    }

    /// Whether its bytes are in the file; no bytes always are.
    pub(crate) fn is_in_file(&self, bytes: &[u8]) -> bool
        ensures { result ≡ headers.is_in_file bytes.now self.now.offset self.now.file_size }
    {
        self.file_size == 0 || self.offset as u64 + self.file_size as u64 <= bytes.len() as u64
    }

    // Whether a loaded segment has at most as many bytes as addresses, its bytes in the file and its addresses in RAM.
    fn fits_memory(&self, bytes: &[u8]) -> bool
        ensures { result ≡ headers.fits_memory bytes.now self.now }
    {
        self.file_size <= self.memory_size
            && self.is_in_file(bytes)
            && self.place as u64 + self.memory_size as u64 <= RAM_SIZE as u64
    }

    /// Its bytes in the file.
    pub(crate) fn bytes_in<'a>(&self, bytes: &'a [u8]) -> &'a [u8]
        requires { headers.is_in_file bytes.now self.now.offset self.now.file_size ≡ true }
        ensures { result.now ≡ headers.segment_bytes bytes.now self.now }
    {
        if self.file_size == 0 {
            return &[];
        }
        let offset = self.offset as usize;
        &bytes[offset..offset + self.file_size as usize]
    }
}

/// The segments of a file that are still to be read. A clause sees their list.
#[derive(Drop)]
pub(crate) struct Segments<'a> {
    /// The file.
    bytes: &'a [u8],
    /// Where the next header is.
    at: usize,
    /// How many headers are left.
    left: u16,
}

impl<'a> Model for Segments<'a> {
    ghost Value = { List Segment };

    ghost view = { λ s. segments_from s.bytes.now s.at s.left };

    ghost invariant = { λ s. HasTable s.bytes.now s.at s.left };
}

impl<'a> Segments<'a> {
    /// The segments of a file with this header.
    pub(crate) fn of(bytes: &'a [u8], header: &ElfHeader) -> Segments<'a>
        requires { files.has_segments bytes.now header.now ≡ true }
        ensures { result ≡ segments_from bytes.now header.now.table header.now.count }
    {
        Segments {
            bytes,
            at: header.table as usize,
            left: header.count,
        }
    }

    /// Takes the next segment; `None` if there is none.
    #[tactic(auto, using(crate::proofs::NextSegment::segments_next))]
    pub(crate) fn next(&mut self) -> Option<Segment>
        ensures { MatchOption result ((self.old ≡ []) × (self.new ≡ [])) (λ s. self.old ≡ s ∷ self.new) }
    {
        if self.left == 0 {
            return None;
        }
        let segment = Segment::at(self.bytes, self.at);
        self.at += SEGMENT_SIZE;
        self.left -= 1;
        Some(segment)
    }
}

/// Whether one of the segments names a program that loads this one.
pub(crate) fn has_dynamic(segments: Segments<'_>) -> bool
    ensures { result ≡ list_any headers.is_dynamic segments.entry }
{
    let mut rest = segments;
    while let Some(segment) = rest.next() {
        if segment.is_dynamic() {
            return true;
        }
    }
    false
}

/// Whether each loaded segment has at most as many bytes as addresses, its bytes in the file and its addresses in RAM.
pub(crate) fn all_fit(bytes: &[u8], segments: Segments<'_>) -> bool
    ensures { result ≡ list_all (headers.fits_memory bytes.now) (filter headers.is_load segments.entry) }
{
    let mut rest = segments;
    while let Some(segment) = rest.next() {
        if segment.is_load() && !segment.fits_memory(bytes) {
            return false;
        }
    }
    true
}
