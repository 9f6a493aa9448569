//! A text is read: bytes and lines are taken off its front.

ghost use Rattle.std.specs.Prelude.{◌≡◌, Some, None, MatchOption};
ghost use Rattle.reference_check.specs.Places as places;
ghost use Rattle.xinu_model.specs.Text as model;

use transcript::render;
use xinu_base::TranscriptLine;

/// What is left of a text after these lines; `None` if and only if it doesn't begin with them.
pub(crate) fn after_lines<'a>(lines: &[TranscriptLine], text: &'a [u8]) -> Option<&'a [u8]>
    ensures left { MatchOption result (places.after_bytes (model.text lines.now) (Some text.now) ≡ None)
        (λ rest. places.after_bytes (model.text lines.now) (Some text.now) ≡ Some rest.now) }
{
    let mut rest = text;
    for line in lines {
        let Some(more) = after_line(line, rest) else {
            return None;
        };
        rest = more;
    }
    Some(rest)
}

/// What is left of a text after this line.
pub fn after_line<'a>(line: &TranscriptLine, text: &'a [u8]) -> Option<&'a [u8]>
    ensures left { MatchOption result (places.after_bytes (model.line_text line.now) (Some text.now) ≡ None)
        (λ rest. places.after_bytes (model.line_text line.now) (Some text.now) ≡ Some rest.now) }
{
    let rendered = render(line);
    after_bytes(rendered.bytes(), text)
}

/// What is left of a text after these bytes.
pub(crate) fn after_bytes<'a>(bytes: &[u8], text: &'a [u8]) -> Option<&'a [u8]>
    ensures left { MatchOption result (places.after_bytes bytes.now (Some text.now) ≡ None)
        (λ rest. places.after_bytes bytes.now (Some text.now) ≡ Some rest.now) }
{
    text.strip_prefix(bytes)
}
