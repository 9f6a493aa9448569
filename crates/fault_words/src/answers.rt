//! What is wrong with a word and its operands.

ghost use Rattle.std.specs.Prelude.{◌≡◌, [], ◌∷◌, map, Option, Some, None, MatchOption};
ghost use Rattle.asm_syntax.specs.CodeMeanings.{seen_meaning};
ghost use Rattle.asm_syntax.specs.CodeOperands.{seen_operand, first_four};
ghost use Rattle.asm_syntax.specs.Meanings.{meaning_of};
ghost use Rattle.asm_syntax.specs.Meanings as meanings;
ghost use Rattle.asm_syntax.specs.Operands.{operands_of};
ghost use Rattle.asm_syntax.specs.Statements.{said};
ghost use Rattle.asm_syntax.specs.Tokens.{tokens_of, solid};
ghost use Rattle.asm_syntax.specs.Values as values;
ghost use Rattle.fault_words.specs.Causes as causes;
ghost use Rattle.fault_words.specs.CodeCauses.{seen_cause, seen_option, seen_slot};
ghost use Rattle.fault_words.specs.Reasons as spec;

use crate::causes::Cause;
use crate::slots::{Slot, limits_of, slots_of};
use asm_syntax::{Meaning, Operand, call_of, meaning_of, operands_in, register_of, word_in};

/// Why the word of a line without labels hasn't the form that it takes.
pub(crate) fn form_cause(line: &[u8]) -> Cause<'_>
    ensures cause { seen_cause result ≡ spec.answer_said spec.WhichForm (said (tokens_of line.now)) }
{
    match word_in(line) {
        None => Cause::NoForm,
        Some((word, rest)) => match (meaning_of(word), operands_in(rest)) {
            (Some(meaning), _) => Cause::Takes(word, meaning),
            (None, Some(_)) => Cause::NoWord(word),
            (None, None) => Cause::NoForm,
        },
    }
}

/// Which name of the word of a line without labels and its operands isn't known.
pub(crate) fn name_cause(line: &[u8]) -> Cause<'_>
    ensures cause { seen_cause result ≡ spec.answer_said spec.WhichName (said (tokens_of line.now)) }
{
    match word_in(line) {
        None => Cause::NoForm,
        Some((word, rest)) => match (meaning_of(word), operands_in(rest)) {
            (Some(meaning), Some(operands)) => unknown_name(meaning, operands.as_slice()),
            (Some(meaning), None) => Cause::Takes(word, meaning),
            (None, Some(_)) => Cause::NoWord(word),
            (None, None) => Cause::NoForm,
        },
    }
}

/// Which number of the word of a line without labels and its operands doesn't fit.
pub(crate) fn number_cause(line: &[u8]) -> Cause<'_>
    ensures cause { seen_cause result ≡ spec.answer_said spec.WhichNumber (said (tokens_of line.now)) }
{
    match word_in(line) {
        None => Cause::NoForm,
        Some((word, rest)) => match (meaning_of(word), operands_in(rest)) {
            (Some(meaning), Some(operands)) => exceeding(meaning, number_in(operands.as_slice())),
            (Some(meaning), None) => Cause::Takes(word, meaning),
            (None, Some(_)) => Cause::NoWord(word),
            (None, None) => Cause::NoForm,
        },
    }
}

// Which name in the operands of a word isn't known.
fn unknown_name<'a>(meaning: Meaning, operands: &[Operand<'a>]) -> Cause<'a>
    ensures cause { seen_cause result ≡ spec.or_no_form (spec.first_unknown (meanings.slots_of (seen_meaning meaning)) (map seen_operand operands.now)) }
{
    match first_unknown(slots_of(meaning), operands) {
        Some(cause) => cause,
        None => Cause::NoForm,
    }
}

// The first name in operands that isn't known in its place.
fn first_unknown<'a>(slots: &[Slot], operands: &[Operand<'a>]) -> Option<Cause<'a>>
    ensures first { seen_option result ≡ spec.first_unknown (map seen_slot slots.now) (map seen_operand operands.now) }
{
    let mut places = slots;
    let mut rest = operands;
    while let [place, next_places @ ..] = places {
        match rest {
            [operand, next @ ..] => {
                let cause = unknown_in(*place, operand);
                if cause.is_some() {
                    return cause;
                }
                places = next_places;
                rest = next;
            }
            [] => return None,
        }
    }
    None
}

// The name in an operand that isn't known in its place.
fn unknown_in<'a>(slot: Slot, operand: &Operand<'a>) -> Option<Cause<'a>>
    ensures unknown { seen_option result ≡ spec.unknown_in (seen_slot slot) (seen_operand operand.now) }
{
    match (slot, operand) {
        (Slot::Register, Operand::Name(name)) => unknown_register(*name),
        (Slot::Offset, Operand::Offset(_, name)) => unknown_register(*name),
        (Slot::Number, Operand::Name(name)) => Some(Cause::NameForNumber(*name)),
        (Slot::Offset, Operand::NamedOffset) => Some(Cause::NameForOffset),
        (Slot::Call, Operand::Name(name)) => match call_of(name) {
            Some(_) => None,
            None => Some(Cause::NoCall(*name)),
        },
        _ => None,
    }
}

// A name that is no register.
fn unknown_register(name: &[u8]) -> Option<Cause<'_>>
    ensures unknown { seen_option result ≡ spec.unless_known (values.register_of name.now) (causes.NoRegister name.now) }
{
    match register_of(name) {
        Some(_) => None,
        None => Some(Cause::NoRegister(name)),
    }
}

// The first number of some operands.
fn number_in(operands: &[Operand<'_>]) -> Option<i64>
    ensures number { result ≡ spec.number_in (map seen_operand operands.now) }
{
    let mut rest = operands;
    while let [operand, next @ ..] = rest {
        match operand {
            Operand::Number(n) => return Some(*n),
            Operand::Offset(n, _) => return Some(*n),
            _ => rest = next,
        }
    }
    None
}

// Why a number doesn't fit a word.
fn exceeding(meaning: Meaning, number: Option<i64>) -> Cause<'static>
    ensures cause { seen_cause result ≡ spec.exceeding_if (seen_meaning meaning) number }
{
    match number {
        None => Cause::NoForm,
        Some(n) => match meaning {
            Meaning::DotPlace => Cause::NoPlace(n),
            _ => {
                let (low, high) = limits_of(meaning);
                Cause::Exceeds(n, low, high)
            }
        },
    }
}
