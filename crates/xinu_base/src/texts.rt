//! Texts that end before their first zero byte, as those of C.

ghost use Rattle.std.specs.Prelude.{◌≡◌, length, ◌≤◌};
ghost use Rattle.xinu_base.specs.Texts as texts;

/// The bytes before the first zero; all bytes if none is zero.
pub fn before_zero(bytes: &[u8]) -> &[u8]
    ensures front { result.now ≡ texts.before_zero bytes.now }
    ensures short { length result.now ≤ length bytes.now }
{
    let mut end = 0;
    for b in bytes {
        if *b == 0 {
            break;
        }
        end += 1;
    }
    &bytes[..end]
}
