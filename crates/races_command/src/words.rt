//! What the words of the command ask.

ghost use Rattle.std.specs.Prelude.{◌≡◌, codes};
ghost use Rattle.command_words.specs.ToolNames.{taken_words};
ghost use Rattle.races_command.specs.Words as spec;

use command_words::Taken;

/// At most how many quantum ends are put in.
pub(crate) fn most_in(words: &Taken<'_>) -> u64
    ensures most { result ≡ spec.number_of (codes "preemptions") 0 (taken_words words.now) }
{
    words.number("preemptions").unwrap_or(0)
}

/// After how many steps they begin: after none, if it isn't asked for.
pub(crate) fn from_in(words: &Taken<'_>) -> u64
    ensures from { result ≡ spec.number_of (codes "from") 0 (taken_words words.now) }
{
    words.number("from").unwrap_or(0)
}

/// Within how many steps they are.
pub(crate) fn within_in(words: &Taken<'_>) -> u64
    ensures within { result ≡ spec.number_of (codes "within") 0 (taken_words words.now) }
{
    words.number("within").unwrap_or(0)
}

/// The number of the row whose schedule is written: the second, if none is asked for.
pub(crate) fn outcome_in(words: &Taken<'_>) -> u64
    ensures outcome { result ≡ spec.number_of (codes "outcome") 2 (taken_words words.now) }
{
    words.number("outcome").unwrap_or(2)
}
