//! The words of a command, judged by the table of its options.

ghost use Rattle.std.specs.Prelude.{◌≡◌, ◌≤◌, IfOk, length, map, option_map, string_bytes};
ghost use Rattle.std.specs.List.{list_all};
ghost use Rattle.command_line.specs.Reading.{ended};
ghost use Rattle.command_line.specs.RunArgs.{is_file_name};
ghost use Rattle.command_words.specs.ToolNames.{cause_of, need_of, state_of, taken_words, value_row, words_read};
ghost use Rattle.command_words.specs.Tools.{rows_of};
ghost use Rattle.command_words.specs.Words as spec;

use crate::reader::{State, read_args};
use crate::taken::Taken;
use crate::tools::{Need, Tool, ValueRow};
use crate::words_fault::{ReadingFault, WordsFault};
use std::alloc::{AllocError, Global};

/// The most images of a run.
const MOST_IMAGES: usize = 8;

/// What the words of a command say by the table of its options, or the first thing that is wrong with them: a word that can't be read, from
/// the left; else a value, an option that is missing or has no place, or the images, of which there are one to eight.
///
/// # Errors
/// Out of memory.
pub fn words_of<'a>(
    alloc: Global,
    tool: Tool,
    args: &'a [String],
) -> Result<Result<Taken<'a>, WordsFault<'a>>, AllocError>
    ensures words { IfOk result (λ r. words_read r ≡ spec.words_of (rows_of tool) (map string_bytes args.entry.now)) }
    ensures some { IfOk result (λ r. IfOk r (λ t. 1 ≤ length t.images.items)) }
    ensures few { IfOk result (λ r. IfOk r (λ t. length t.images.items ≤ 8)) }
{
    let rows = tool.rows();
    let state = read_args(alloc, rows, args)?;
    Ok(state.judged(rows))
}

impl<'a> State<'a> {
    // What was taken at the end, unless something is wrong with it.
    fn judged(self, rows: &[ValueRow]) -> Result<Taken<'a>, WordsFault<'a>>
        ensures judged { words_read result ≡ spec.judged (map value_row rows.now) (ended (state_of self.entry)) }
        ensures some { IfOk result (λ t. 1 ≤ length t.images.items) }
        ensures few { IfOk result (λ t. length t.images.items ≤ 8) }
    {
        match self {
            State::Choosing(taken) | State::Listing(taken) => judged(rows, taken),
            State::Wanting(name, _) => Err(WordsFault::Unreadable(ReadingFault::NoValue(name))),
            State::Refused(fault) => Err(WordsFault::Unreadable(fault)),
        }
    }
}

// What was taken, unless something is wrong with it.
fn judged<'a>(rows: &[ValueRow], taken: Taken<'a>) -> Result<Taken<'a>, WordsFault<'a>>
    ensures judged { words_read result ≡ spec.unless_fault (spec.taken_fault (map value_row rows.now) (taken_words taken.entry)) (taken_words taken.entry) }
    ensures some { IfOk result (λ t. 1 ≤ length t.images.items) }
    ensures few { IfOk result (λ t. length t.images.items ≤ 8) }
{
    if let Some(fault) = values_fault(rows, &taken) {
        return Err(fault);
    }
    if let Some(fault) = needs_fault(rows, &taken) {
        return Err(fault);
    }
    match images_fault(taken.images.as_slice()) {
        Some(fault) => Err(fault),
        None => Ok(taken),
    }
}

// What is wrong with the values of the options, in the order of the table.
fn values_fault(rows: &[ValueRow], taken: &Taken<'_>) -> Option<WordsFault<'static>>
    ensures fault { option_map cause_of result ≡ spec.values_fault (taken_words taken.now) (map value_row rows.now) }
{
    for row in rows {
        if let Some(fault) = value_fault(*row, taken.value(row.name)) {
            return Some(fault);
        }
    }
    None
}

// What is wrong with the value of an option.
fn value_fault(row: ValueRow, value: Option<&str>) -> Option<WordsFault<'static>>
    ensures fault { option_map cause_of result ≡ spec.value_fault (value_row row) (option_map (λ s. s.now) value.entry) }
{
    match value {
        Some(value) if !row.kind.accepts(value) => Some(WordsFault::BadValue {
            name: row.name,
            kind: row.kind,
        }),
        _ => None,
    }
}

// What is wrong with the choice of options, in the order of the table.
fn needs_fault(rows: &[ValueRow], taken: &Taken<'_>) -> Option<WordsFault<'static>>
    ensures fault { option_map cause_of result ≡ spec.needs_fault (taken_words taken.now) (map value_row rows.now) }
{
    for row in rows {
        if let Some(fault) = need_fault(row.need, row.name, taken) {
            return Some(fault);
        }
    }
    None
}

// What is wrong with the choice of an option.
fn need_fault(need: Need, name: &'static str, taken: &Taken<'_>) -> Option<WordsFault<'static>>
    ensures fault { option_map cause_of result ≡ spec.need_fault (need_of need) name.entry.now (taken_words taken.now) }
{
    let is_given = taken.is_given(name);
    match need {
        Need::Needed if !is_given => Some(WordsFault::Missing(name)),
        Need::With(other) if is_given && !taken.is_given(other) => {
            Some(WordsFault::GoesWith { name, other })
        }
        Need::Without(other) => pair_fault(name, other, taken),
        Need::WithoutBoth(one, two) => match pair_fault(name, one, taken) {
            Some(fault) => Some(fault),
            None => pair_fault(name, two, taken),
        },
        _ => None,
    }
}

// What is wrong if the first option is given with the other.
fn pair_fault(
    name: &'static str,
    other: &'static str,
    taken: &Taken<'_>,
) -> Option<WordsFault<'static>>
    ensures fault { option_map cause_of result ≡ spec.pair_fault name.entry.now other.entry.now (taken_words taken.now) }
{
    if taken.is_given(name) && taken.is_given(other) {
        Some(WordsFault::NotWith { name, other })
    } else {
        None
    }
}

// What is wrong with the images.
fn images_fault(images: &[&str]) -> Option<WordsFault<'static>>
    ensures fault { option_map cause_of result ≡ spec.images_fault (map (λ s. s.now) images.now) }
{
    if images.is_empty() {
        return Some(WordsFault::NoImage);
    }
    if images.len() > MOST_IMAGES {
        return Some(WordsFault::ManyImages);
    }
    if are_file_names(images) {
        None
    } else {
        Some(WordsFault::NamelessImage)
    }
}

// Whether no name is empty.
fn are_file_names(images: &[&str]) -> bool
    ensures names { result ≡ list_all is_file_name (map (λ s. s.now) images.now) }
{
    images.iter().all(|image| !image.is_empty())
}
