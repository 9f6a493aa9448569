//! Whether something may have been chosen in a run: that is so only if a call on files was made.

ghost use Rattle.std.specs.Prelude.{◌≡◌, ◌&&◌, not, codes, bytes_eq};
ghost use Rattle.std.specs.List.{list_any};
ghost use Rattle.race_runs.specs.Forced as spec;
ghost use Rattle.race_tables.specs.Outcomes.{begin_with};
ghost use Rattle.text_lines.specs.Lines.{lines_of, tokens_of};

use machine::Machine;
use text_lines::{first_line, first_token};

/// Whether a run that was quiet so far stays so: no call on files is under way.
pub(crate) fn stays_quiet(is_quiet: bool, machine: &Machine) -> bool
    ensures quiet { result ≡ (is_quiet && not (spec.has_calls machine.now.state)) }
{
    is_quiet && !machine.state().files.are_calls()
}

/// Whether nothing was chosen in a run that printed this text: it was quiet, and tells of no call on files.
pub(crate) fn is_forced(is_quiet: bool, text: &[u8]) -> bool
    ensures forced { result ≡ (is_quiet && not (spec.tells_files text.now)) }
{
    is_quiet && !tells_files(text)
}

// Whether one of these lines is of a call on files.
#[tactic(auto, unfolding(crate::specs::Forced::tells_files))]
fn tells_files(text: &[u8]) -> bool
    ensures tells { result ≡ spec.tells_files text.now }
{
    let mut rest = text;
    while !rest.is_empty() {
        let (line, next) = first_line(rest);
        if is_of_files(line) {
            return true;
        }
        rest = next;
    }
    false
}

// Whether a line is of a call on files.
fn is_of_files(line: &[u8]) -> bool
    ensures files { result ≡ begin_with (codes "file") (tokens_of line.now) }
{
    match first_token(line) {
        Some((token, _)) => token == b"file".as_slice(),
        None => false,
    }
}
