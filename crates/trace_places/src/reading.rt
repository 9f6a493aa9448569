//! Lines are read off the front of a text.

ghost use Rattle.std.specs.Prelude.{◌≡◌, [], ◌∷◌, IfSome};
ghost use Rattle.trace_places.specs.Places.{mistake_in, mistake_past};
ghost use Rattle.trace_places.specs.Reading.{FoundAs, ReadSo};
ghost use Rattle.trace_places.specs.declared.mistakes.When.TheVariants as when;
ghost use Rattle.xinu_base.specs.declared.lines.TranscriptLine.TheVariants as line;

use crate::mistakes::{Mistake, When};
use reference_check::after_line;
use xinu_base::{End, TranscriptLine};

/// What is left of a text after lines that it begins with, and the first line that doesn't come next, if there is one.
#[derive(Clone, Copy)]
pub(crate) struct Read<'a> {
    pub(crate) rest: &'a [u8],
    pub(crate) due: Option<TranscriptLine>,
}

/// Reads lines off a text, up to one that isn't there.
pub(crate) fn read_lines<'a>(lines: &[TranscriptLine], text: &'a [u8]) -> Read<'a>
    ensures reads { ReadSo lines.now text.now result }
{
    let mut rest = text;
    for line in lines {
        let Some(more) = after_line(line, rest) else {
            return Read {
                rest,
                due: Some(*line),
            };
        };
        rest = more;
    }
    Read { rest, due: None }
}

/// The mistake in a text that should be the line of an end, if there is one.
pub(crate) fn last_mistake(end: End, text: &[u8]) -> Option<Mistake<'_>>
    ensures finds { FoundAs (mistake_in (line.End end ∷ []) text.now mistake_past) result }
    ensures end { IfSome result (λ m. m.when ≡ when.End) }
{
    let last = TranscriptLine::End(end);
    match after_line(&last, text) {
        None => Some(Mistake {
            left: text,
            due: Some(last),
            when: When::End,
        }),
        Some(rest) => {
            if rest.is_empty() {
                return None;
            }
            Some(Mistake {
                left: rest,
                due: None,
                when: When::End,
            })
        }
    }
}
