//! The note of an ELF file that gives the priority and the stack of a program.

ghost use Rattle.std.specs.Prelude.{◌≡◌, ◌≤◌, true, length, drop};
ghost use Rattle.elf_loader.specs.Notes as notes;

use crate::header::word_at;
use crate::segments::{Segment, Segments};

/// The type of a segment of notes.
const NOTES: u32 = 4;
/// The name of the note, with its ending zero.
const NAME: &[u8] = b"XINU\0";
/// The bytes of the note's description: two words.
const DESCRIPTION: u32 = 8;
/// The type of the note.
const SETTINGS: u32 = 1;
/// The bytes of a note ahead of its name: three words.
const FIELDS: usize = 12;

/// How a program's first process begins.
#[derive(Clone, Copy, Drop)]
pub(crate) struct Settings {
    /// Its priority.
    pub priority: u32,
    /// The size in bytes that is asked for its stack.
    pub stack: u32,
}

/// The priority and the stack that the first such note gives; 20 and 4096 without one.
pub(crate) fn settings_of(bytes: &[u8], segments: Segments<'_>) -> Settings
    ensures { result ≡ notes.settings_or_usual (notes.settings_in bytes.now segments.entry) }
{
    let mut rest = segments;
    while let Some(segment) = rest.next() {
        if segment.kind == NOTES && segment.is_in_file(bytes) {
            if let Some(settings) = first_settings(segment.bytes_in(bytes)) {
                return settings;
            }
        }
    }
    Settings {
        priority: 20,
        stack: 4096,
    }
}

// What the first such note of a segment gives.
#[tactic(auto, using(crate::proofs::NoteWalks::settings_none, crate::proofs::NoteWalks::settings_here, crate::proofs::NoteWalks::settings_next))]
fn first_settings(bytes: &[u8]) -> Option<Settings>
    ensures { result ≡ notes.settings_of bytes.now }
{
    let mut rest = bytes;
    while has_note(rest) {
        if is_xinu_note(rest) {
            return Some(Settings {
                priority: word_at(rest, 20),
                stack: word_at(rest, 24),
            });
        }
        rest = after_note(rest);
    }
    None
}

// The bytes after the note with which they begin.
fn after_note(bytes: &[u8]) -> &[u8]
    requires { notes.has_note bytes.now ≡ true }
    ensures { result.now ≡ drop (notes.note_length bytes.now) bytes.now }
{
    &bytes[note_length(bytes) as usize..]
}

// Whether the bytes begin with a whole note.
fn has_note(bytes: &[u8]) -> bool
    ensures { result ≡ notes.has_note bytes.now }
{
    bytes.len() >= FIELDS && note_length(bytes) <= bytes.len() as u64
}

// How many bytes the note has with which the bytes begin.
fn note_length(bytes: &[u8]) -> u64
    requires { 12 ≤ length bytes.now }
    ensures { result ≡ notes.note_length bytes.now }
{
    FIELDS as u64 + padded(word_at(bytes, 0)) + padded(word_at(bytes, 4))
}

// The lowest multiple of 4 that isn't below n.
fn padded(n: u32) -> u64
    ensures { result ≡ notes.padded_to_4 n }
{
    4 * ((n as u64 + 3) / 4)
}

// Whether the note is the one of the program's settings.
fn is_xinu_note(bytes: &[u8]) -> bool
    requires { notes.has_note bytes.now ≡ true }
    ensures { result ≡ notes.is_xinu_note bytes.now }
{
    word_at(bytes, 0) == NAME.len() as u32
        && word_at(bytes, 4) == DESCRIPTION
        && word_at(bytes, 8) == SETTINGS
        && &bytes[FIELDS..FIELDS + NAME.len()] == NAME
}
