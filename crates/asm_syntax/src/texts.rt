//! Quoted texts, byte by byte.

ghost use Rattle.std.specs.Prelude.{◌≡◌, ◌<◌, [], length, is_some, Some, None, MatchOption, IfSome};
ghost use Rattle.asm_syntax.specs.Texts as spec;

/// The first byte that a text stands for, and the text after it, which stands for the others. The text isn't empty. `None`, and the text
/// stands for no bytes, if it begins neither with a printable ASCII character other than a backslash nor with a backslash and `n`, `0`, `"`
/// or `\`.
pub fn next_byte(text: &[u8]) -> Option<(u8, &[u8])>
    requires something { 0 < length text.now }
    ensures byte { MatchOption result (spec.text_bytes text.now ≡ None) (λ cut. spec.text_bytes text.now ≡ spec.byte_before (Some cut.0) (spec.text_bytes cut.1.now)) }
    ensures shorter { IfSome result (λ cut. length cut.1.now < length text.now) }
{
    match text {
        [b'\\', c, rest @ ..] => match escape(*c) {
            Some(b) => Some((b, rest)),
            None => None,
        },
        [b'\\'] => None,
        [b, rest @ ..] => {
            if *b >= b' ' && *b <= b'~' {
                Some((*b, rest))
            } else {
                None
            }
        }
        [] => None,
    }
}

/// Whether a text stands for bytes.
pub(crate) fn is_text(text: &[u8]) -> bool
    ensures bytes { result ≡ is_some (spec.text_bytes text.now) }
{
    let mut rest = text;
    while !rest.is_empty() {
        match next_byte(rest) {
            Some((_, next)) => rest = next,
            None => return false,
        }
    }
    true
}

// The byte that a backslash and another byte stand for.
fn escape(b: u8) -> Option<u8>
    ensures byte { result ≡ spec.escape b }
{
    match b {
        b'n' => Some(b'\n'),
        b'0' => Some(0),
        b'"' | b'\\' => Some(b),
        _ => None,
    }
}
