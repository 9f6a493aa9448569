//! What is told of a run: which events are listed, or after how many of them the state.

ghost use Rattle.std.specs.Prelude.{◌≡◌, ◌+◌};
ghost use Rattle.command_words.specs.ToolNames.{taken_words};
ghost use Rattle.explain_command.specs.Words as specs;
ghost use Rattle.explain_command.specs.Words.{asked_in};

use command_words::Taken;

/// The events that are listed, by the numbers of the first and the last, counted from 1, if the words of the command ask for some.
pub(crate) fn steps_in(words: &Taken<'_>) -> Option<(u64, u64)>
    ensures steps { result ≡ (asked_in (taken_words words.now)).steps }
{
    words.span("steps")
}

/// After how many events the state is told, if the words of the command ask for that.
pub(crate) fn told_at(words: &Taken<'_>) -> Option<u32>
    ensures at { result ≡ (asked_in (taken_words words.now)).at }
{
    match words.number("at") {
        Some(number) => small(number),
        None => None,
    }
}

/// Whether each refused call is told, or each kind once.
pub(crate) fn tells_each(words: &Taken<'_>) -> bool
    ensures each { result ≡ (asked_in (taken_words words.now)).each }
{
    words.is_given("refused")
}

// A number of 32 bits.
fn small(number: u64) -> Option<u32>
    ensures small { result ≡ specs.small number }
{
    if number < 4_294_967_296 {
        Some(number as u32)
    } else {
        None
    }
}

/// Whether the event that comes after so many is among those that are listed.
pub(crate) fn is_listed(steps: Option<(u64, u64)>, taken: u32) -> bool {
    match steps {
        Some((first, last)) => first <= number_after(taken) && number_after(taken) <= last,
        None => false,
    }
}

/// The number of the event that comes after so many, counted from 1.
pub(crate) fn number_after(taken: u32) -> u64
    ensures number { result ≡ taken + 1 }
{
    taken as u64 + 1
}
