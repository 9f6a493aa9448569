//! What the value of an option is: a file's name, a number, a range of events, a text, or nothing.

ghost use Rattle.std.specs.Prelude.{◌≡◌, option_map};
ghost use Rattle.std.specs.Char.{is_ascii_digit};
ghost use Rattle.std.specs.List.{list_all};
ghost use Rattle.command_words.specs.Tools as tools;
ghost use Rattle.command_words.specs.ValueKinds as spec;

/// What the value of an option has to be.
#[derive(Clone, Copy, PartialEq, Eq)]
pub enum Kind {
    /// The name of a file, which isn't empty.
    File,
    /// A number in a range.
    Number { least: u64, most: u64 },
    /// `A..B`, two numbers from 1 to a greatest one, the first not above the second, with at most so many from the one to the other.
    Span { greatest: u64, most: u64 },
    /// A text of one to so many bytes.
    Title { most: usize },
    /// Nothing: the option takes no value.
    Flag,
}

impl Kind {
    /// Whether an option of this kind takes a value.
    pub(crate) fn takes_value(self) -> bool
        ensures takes { result ≡ tools.takes_value self }
    {
        match self {
            Kind::File | Kind::Number { .. } | Kind::Span { .. } | Kind::Title { .. } => true,
            Kind::Flag => false,
        }
    }

    /// Whether a value is one of this kind.
    pub(crate) fn accepts(self, value: &str) -> bool
        ensures accepts { result ≡ spec.is_value self value.now }
    {
        match self {
            Kind::File => !value.is_empty(),
            Kind::Number { least, most } => match number_in(value) {
                Some(n) => least <= n && n <= most,
                None => false,
            },
            Kind::Span { greatest, most } => match span_in(value) {
                Some((first, last)) => is_span(greatest, most, first, last),
                None => false,
            },
            Kind::Title { most } => !value.is_empty() && value.len() <= most,
            Kind::Flag => true,
        }
    }
}

// Whether these can be the numbers of `A..B`.
fn is_span(greatest: u64, most: u64, first: u64, last: u64) -> bool
    ensures span { result ≡ spec.is_span greatest most first last }
{
    1 <= first && first <= last && last <= greatest && last - first < most
}

/// The number that 1 to 10 decimal digits give.
pub(crate) fn number_in(digits: &str) -> Option<u64>
    ensures number { result ≡ spec.number_in digits.now }
{
    if digits.len() > 10 || !are_digits(digits.as_bytes()) {
        return None;
    }
    match digits.parse::<u64>() {
        Ok(number) => Some(number),
        Err(_) => None,
    }
}

/// The numbers of a value `A..B`.
pub(crate) fn span_in(value: &str) -> Option<(u64, u64)>
    ensures span { result ≡ spec.span_in value.now }
{
    let (first, rest) = parts_at_dot(value)?;
    let last = behind_dot(rest)?;
    match (number_in(first), number_in(last)) {
        (Some(first), Some(last)) => Some((first, last)),
        _ => None,
    }
}

// What stands before the first dot, and after it, if a dot is there.
fn parts_at_dot(value: &str) -> Option<(&str, &str)>
    ensures parts { option_map (λ p. (p.0.now, p.1.now)) result ≡ spec.parts_at_dot value.now }
{
    value.split_once('.')
}

// What follows a dot.
fn behind_dot(text: &str) -> Option<&str>
    ensures behind { option_map (λ s. s.now) result ≡ spec.behind_dot text.now }
{
    text.strip_prefix('.')
}

// Whether all bytes are decimal digits.
fn are_digits(bytes: &[u8]) -> bool
    ensures digits { result ≡ list_all is_ascii_digit bytes.now }
{
    bytes.iter().all(|b| b.is_ascii_digit())
}
