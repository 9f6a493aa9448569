//! Bytes among other bytes.

ghost use Rattle.std.specs.Prelude.{◌≡◌, ◌≤◌, ◌+◌, true, length};
ghost use Rattle.files_c.specs.Answers.{patched};
ghost use Rattle.files_c.specs.Spans.{is_span, span};

/// Whether there are so many bytes from a place on.
pub(crate) fn is_span(bytes: &[u8], at: u32, many: u32) -> bool
    ensures span { result ≡ is_span bytes.now at many }
{
    at as usize + many as usize <= bytes.len()
}

/// So many bytes from a place on.
pub(crate) fn span(bytes: &[u8], at: u32, many: u32) -> &[u8]
    requires span { is_span bytes.now at many ≡ true }
    ensures bytes { result.now ≡ span bytes.now at many }
{
    &bytes[at as usize..at as usize + many as usize]
}

/// Puts bytes in the place of those from a place on.
pub(crate) fn put(bytes: &mut [u8], at: u32, given: &[u8])
    requires room { at + length given.now ≤ length bytes.old }
    ensures put { bytes.new ≡ patched bytes.old at given.now }
{
    let at = at as usize;
    bytes[at..at + given.len()].copy_from_slice(given);
}
