//! The bytes of a file, as they are written in a session.

use std::alloc::{AllocError, Global};

/// The bytes that words say; none if one says nothing. Digits are bytes, two for each; `07*4096` is the byte 07 so many times; `@512` is
/// zeros up to that place.
///
/// # Errors
/// Out of memory.
pub(crate) fn bytes_of(alloc: Global, words: &str) -> Result<Option<Vec<u8>>, AllocError> {
    let mut bytes = Vec::new(alloc);
    for word in words.split_whitespace() {
        if !add_word(alloc, &mut bytes, word)? {
            return Ok(None);
        }
    }
    Ok(Some(bytes))
}

// Adds the bytes of a word. Whether it says some.
fn add_word(alloc: Global, bytes: &mut Vec<u8>, word: &str) -> Result<bool, AllocError> {
    if let Some(place) = word.strip_prefix("@") {
        let place = place.parse::<usize>().unwrap_or(0);
        let is_ahead = place >= bytes.len();
        if is_ahead {
            bytes.resize(place, 0)?;
        }
        return Ok(is_ahead);
    }
    let (digits, count) = word.split_once("*").unwrap_or((word, "1"));
    let Ok(piece) = hex::decode(alloc, digits.as_bytes()) else {
        return Ok(false);
    };
    let count = count.parse::<usize>().unwrap_or(0);
    if let [byte] = *piece.as_slice() {
        bytes.resize(bytes.len().saturating_add(count), byte)?;
        return Ok(count > 0);
    }
    bytes.extend_from_slice(piece.as_slice())?;
    Ok(count == 1)
}
