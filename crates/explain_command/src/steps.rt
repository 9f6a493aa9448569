//! What a process does in a step, in words.

ghost use Rattle.std.specs.Prelude.{◌≡◌};
ghost use Rattle.xinu_base.specs.declared.lines.TranscriptLine.TheVariants as line;
ghost use Rattle.xinu_model.specs.Text.{line_text};

use crate::places::shown;
use crate::sights::{Deed, Sight};
use crate::traps::add_place;
use host_port::Line;
use printed_runs::Text;
use transcript::render;
use xinu_base::{Call, Pid, TranscriptLine};

/// Adds what a process does in its next step: nothing, which call it goes on in, or its place and the instruction there.
pub(crate) fn add_step(text: &mut Text, seen: &Sight, files: &[Vec<u8>]) {
    match seen.deed {
        Deed::Nothing => text.put(" executes nothing"),
        Deed::GoesOn => {
            text.put(" goes on in ");
            add_call(text, seen.call);
        }
        Deed::Executes => {
            text.put(", ");
            add_place(text, seen, files);
        }
    }
}

/// Adds a call, by its name and its arguments.
pub(crate) fn add_call(text: &mut Text, call: Call) {
    let line = render(&TranscriptLine::Call(Pid::at(0), call));
    let mut words = shown(line.bytes()).split_whitespace();
    text.put(words.nth(2).unwrap_or(""));
    for word in words {
        text.put(" ");
        text.put(word);
    }
}

/// The line of a transcript for the call that a process makes or goes on in.
pub(crate) fn call_line(seen: &Sight) -> Line
    ensures line { result ≡ line_text (line.Call seen.now.process seen.now.call) }
{
    render(&TranscriptLine::Call(seen.process, seen.call))
}
