//! Names of files, with zeros up to 28 bytes.

/// A text with zeros up to 28 bytes. Of a longer text it has the first 28.
pub(crate) fn padded(text: &[u8]) -> [u8; 28] {
    let mut name = [0u8; 28];
    let n = text.len().min(28);
    name[..n].copy_from_slice(&text[..n]);
    name
}
