//! What was taken from the words of a command.

ghost use Rattle.std.specs.Prelude.{◌≡◌, bytes_eq, find, map, option_map, option_and_then};
ghost use Rattle.command_line.specs.Reading as reading;
ghost use Rattle.command_words.specs.ToolNames.{given_pair, taken_words};
ghost use Rattle.command_words.specs.ValueKinds as values;

use crate::value_kinds::{number_in, span_in};

/// An option that was given, with its value.
#[derive(Clone, Copy)]
pub struct Given<'a> {
    /// The name after its two hyphens.
    pub name: &'static str,
    /// Whether it takes a value.
    pub takes_value: bool,
    /// The value: empty if it takes none.
    pub value: &'a str,
}

/// What was taken from the words of a command: the options with their values, and the names of the images, each in their order.
#[derive(Drop)]
pub struct Taken<'a> {
    /// The options.
    pub options: Vec<Given<'a>>,
    /// The names of the images.
    pub images: Vec<&'a str>,
}

impl<'a> Taken<'a> {
    /// The value of an option, empty if it takes none. `None` if and only if it wasn't given.
    pub fn value(&self, name: &str) -> Option<&'a str>
        ensures value { option_map (λ s. s.now) result ≡ reading.option_value name.now (taken_words self.now) }
    {
        value_in(self.options.as_slice(), name)
    }

    /// Whether an option was given.
    pub fn is_given(&self, name: &str) -> bool
        ensures given { result ≡ reading.is_given name.now (taken_words self.now) }
    {
        self.value(name).is_some()
    }

    /// The number that an option has as its value. `None` if and only if it wasn't given, or its value isn't one to ten decimal digits.
    pub fn number(&self, name: &str) -> Option<u64>
        ensures number { result ≡ option_and_then values.number_in (reading.option_value name.now (taken_words self.now)) }
    {
        number_in(self.value(name)?)
    }

    /// The two numbers that an option has as its value `A..B`. `None` if and only if it wasn't given, or its value isn't two such numbers,
    /// each of one to ten decimal digits.
    pub fn span(&self, name: &str) -> Option<(u64, u64)>
        ensures span { result ≡ option_and_then values.span_in (reading.option_value name.now (taken_words self.now)) }
    {
        span_in(self.value(name)?)
    }
}

// The value of an option, if it is among these.
fn value_in<'a>(options: &[Given<'a>], name: &str) -> Option<&'a str>
    ensures value { option_map (λ s. s.now) result ≡ option_map (λ p. p.1) (find (λ p. bytes_eq p.0.name name.now) (map given_pair options.now)) }
{
    for given in options {
        if given.name == name {
            return Some(given.value);
        }
    }
    None
}
