//! How the words of a command are read, from the left.

ghost use Rattle.std.specs.Prelude.{◌≡◌, [], IfOk, Some, codes, map, option_map, string_bytes};
ghost use Rattle.command_line.specs.Reading as reading;
ghost use Rattle.command_words.specs.ToolNames.{given_pair, state_of, taken_words, value_row};
ghost use Rattle.command_words.specs.Tools.{option_of};

use crate::forms::{ArgForm, form_of};
use crate::taken::{Given, Taken};
use crate::tools::ValueRow;
use crate::words_fault::ReadingFault;
use std::alloc::{AllocError, Global};

/// The state of the reading between two arguments.
#[derive(Drop)]
pub(crate) enum State<'a> {
    /// Before the first `--`.
    Choosing(Taken<'a>),
    /// The next argument is the value of this option.
    Wanting(&'static str, Taken<'a>),
    /// After the first `--`.
    Listing(Taken<'a>),
    /// These arguments can't be read, whatever follows.
    Refused(ReadingFault<'a>),
}

/// Reads arguments by a table of options.
///
/// # Errors
/// Out of memory.
pub(crate) fn read_args<'a>(
    alloc: Global,
    rows: &[ValueRow],
    args: &'a [String],
) -> Result<State<'a>, AllocError>
    ensures reads { IfOk result (λ s. reading.ended (state_of s) ≡ reading.reading (map option_of (map value_row rows.now)) (map string_bytes args.entry.now)) }
{
    let nothing = Taken {
        options: Vec::new(alloc),
        images: Vec::new(alloc),
    };
    let mut state = State::Choosing(nothing);
    for arg in args {
        state = state.after(rows, arg.as_str())?;
    }
    Ok(state)
}

impl<'a> State<'a> {
    // The state after one more argument.
    fn after(self, rows: &[ValueRow], arg: &'a str) -> Result<State<'a>, AllocError>
        ensures after { IfOk result (λ s. state_of s ≡ reading.after_arg (map option_of (map value_row rows.now)) (state_of self.entry) arg.entry.now) }
    {
        match self {
            State::Choosing(taken) => taken.choose(rows, arg),
            State::Wanting(name, taken) => taken.take_value(name, arg),
            State::Listing(taken) => Ok(State::Listing(taken.with_image(arg)?)),
            State::Refused(fault) => Ok(State::Refused(fault)),
        }
    }
}

impl<'a> Taken<'a> {
    // Takes an argument before the first `--`.
    fn choose(self, rows: &[ValueRow], arg: &'a str) -> Result<State<'a>, AllocError>
        ensures chosen { IfOk result (λ s. state_of s ≡ reading.after_choice (map option_of (map value_row rows.now)) (taken_words self.entry) arg.entry.now (reading.arg_of arg.entry.now)) }
    {
        match form_of(arg) {
            ArgForm::EndMark => Ok(State::Listing(self)),
            ArgForm::Naming(name, value) => self.take_name(arg, row_named(rows, name), value),
            ArgForm::Dashed => Ok(State::Refused(ReadingFault::Unknown(arg))),
            ArgForm::Bare => Ok(State::Choosing(self.with_image(arg)?)),
        }
    }

    // Takes an argument that names an option, with the value that is attached to it.
    fn take_name(
        self,
        arg: &'a str,
        row: Option<ValueRow>,
        value: Option<&'a str>,
    ) -> Result<State<'a>, AllocError>
        ensures named { IfOk result (λ s. state_of s ≡ reading.after_name arg.entry.now (option_map (λ r. option_of (value_row r)) row) (option_map (λ s. s.now) value.entry) (taken_words self.entry)) }
    {
        match row {
            Some(row) => self.take_option(row.name, row.kind.takes_value(), value),
            None => Ok(State::Refused(ReadingFault::Unknown(arg))),
        }
    }

    // Takes the option of this name, with the value that is attached to it.
    fn take_option(
        self,
        name: &'static str,
        takes_value: bool,
        value: Option<&'a str>,
    ) -> Result<State<'a>, AllocError>
        ensures option { IfOk result (λ s. state_of s ≡ reading.after_name [] (Some (record { name = name.entry.now; takes_value = takes_value })) (option_map (λ s. s.now) value.entry) (taken_words self.entry)) }
    {
        match (takes_value, value) {
            (true, None) => Ok(State::Wanting(name, self)),
            (true, Some(value)) => self.with_value(name, value),
            (false, None) => self.with_flag(name),
            (false, Some(_)) => Ok(State::Refused(ReadingFault::TakesNone(name))),
        }
    }

    // Takes an argument as the value of an option: it has no leading hyphen, unless it is one hyphen alone.
    fn take_value(self, name: &'static str, arg: &'a str) -> Result<State<'a>, AllocError>
        ensures value { IfOk result (λ s. state_of s ≡ reading.after_value (reading.value_option name.entry.now) (taken_words self.entry) arg.entry.now (reading.arg_of arg.entry.now)) }
    {
        match form_of(arg) {
            ArgForm::Bare => self.with_value(name, arg),
            _ => Ok(State::Refused(ReadingFault::NoValue(name))),
        }
    }

    // Takes an option with its value.
    fn with_value(self, name: &'static str, value: &'a str) -> Result<State<'a>, AllocError>
        ensures option { IfOk result (λ s. state_of s ≡ reading.with_option (reading.value_option name.entry.now) value.entry.now (taken_words self.entry)) }
    {
        self.with_option(Given {
            name,
            takes_value: true,
            value,
        })
    }

    // Takes an option that has no value.
    fn with_flag(self, name: &'static str) -> Result<State<'a>, AllocError>
        ensures option { IfOk result (λ s. state_of s ≡ reading.with_option (reading.flag_option name.entry.now) [] (taken_words self.entry)) }
    {
        self.with_option(Given {
            name,
            takes_value: false,
            value: "",
        })
    }

    // Takes an option, once.
    fn with_option(self, given: Given<'a>) -> Result<State<'a>, AllocError>
        ensures option { IfOk result (λ s. state_of s ≡ reading.with_option (given_pair given.entry).0 (given_pair given.entry).1 (taken_words self.entry)) }
    {
        if self.is_given(given.name) {
            return Ok(State::Refused(ReadingFault::Twice(given.name)));
        }
        let mut options = self.options;
        options.push(given)?;
        Ok(State::Choosing(Taken { options, ..self }))
    }

    // Takes a positional argument.
    fn with_image(self, arg: &'a str) -> Result<Taken<'a>, AllocError>
        ensures image { IfOk result (λ t. taken_words t ≡ reading.with_positional arg.entry.now (taken_words self.entry)) }
    {
        let mut images = self.images;
        images.push(arg)?;
        Ok(Taken { images, ..self })
    }
}

// The row of this name.
fn row_named(rows: &[ValueRow], name: &str) -> Option<ValueRow>
    ensures row { option_map (λ r. option_of (value_row r)) result ≡ reading.row_named (map option_of (map value_row rows.now)) name.now }
{
    for row in rows {
        if row.name == name {
            return Some(*row);
        }
    }
    None
}
