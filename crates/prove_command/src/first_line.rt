//! How what is sent begins: with status 0 by a whole line.

ghost use Rattle.std.specs.Prelude.{◌≡◌, ◌++◌, OnOk, map};
ghost use Rattle.std.specs.Fmt.{decimal};
ghost use Rattle.std.specs.String.{string_bytes};
ghost use Rattle.prove_command.specs.FirstLine as spec;

use itoa::Buffer;
use program_logic::{Lock, Term};
use std::alloc::AllocError;

/// Appends the beginning of what is sent with a status, for this lock and images of these names.
pub(crate) fn push_head(
    text: &mut Vec<u8>,
    status: u8,
    lock: &Lock,
    names: &[String],
) -> Result<(), AllocError>
    ensures head { OnOk result (text.new.items ≡ text.old.items ++ spec.head_of (record { lock = lock.now; images = map string_bytes names.now }) status) }
{
    match status {
        0 => push_proof(text, lock, names),
        10 => text.extend_from_slice(b"not proved: "),
        _ => text.extend_from_slice(b"cannot follow: "),
    }
}

// Appends what is proved.
#[tactic(auto, unfolding(crate::specs::FirstLine::proof_line))]
fn push_proof(text: &mut Vec<u8>, lock: &Lock, names: &[String]) -> Result<(), AllocError>
    ensures line { OnOk result (text.new.items ≡ text.old.items ++ spec.proof_line (record { lock = lock.now; images = map string_bytes names.now })) }
{
    text.extend_from_slice(b"proved: ")?;
    push_rule(text, lock.word, lock.rule)?;
    push_lock(text, lock.sem)?;
    push_names(text, names)?;
    text.extend_from_slice(b"\n")
}

// Appends what the word is.
#[tactic(auto, unfolding(crate::specs::FirstLine::rule_text))]
fn push_rule(text: &mut Vec<u8>, word: u32, rule: Term) -> Result<(), AllocError>
    ensures rule { OnOk result (text.new.items ≡ text.old.items ++ spec.rule_text word rule) }
{
    text.extend_from_slice(b"the word at ")?;
    push_number(text, word)?;
    text.extend_from_slice(b" = ")?;
    push_term(text, rule)
}

// Appends when it is.
#[tactic(auto, unfolding(crate::specs::FirstLine::lock_text))]
fn push_lock(text: &mut Vec<u8>, sem: u32) -> Result<(), AllocError>
    ensures lock { OnOk result (text.new.items ≡ text.old.items ++ spec.lock_text sem) }
{
    text.extend_from_slice(b" whenever lock ")?;
    push_number(text, sem)?;
    push_always(text)?;
    Ok(())
}

// Appends that it is so on every schedule.
#[tactic(auto, unfolding(crate::specs::FirstLine::always_text))]
fn push_always(text: &mut Vec<u8>) -> Result<(), AllocError>
    ensures always { OnOk result (text.new.items ≡ text.old.items ++ spec.always_text) }
{
    text.extend_from_slice(b" is free, on every schedule, from boot of")
}

// Appends names.
#[tactic(auto, unfolding(crate::specs::FirstLine::names_text))]
fn push_names(text: &mut Vec<u8>, names: &[String]) -> Result<(), AllocError>
    ensures names { OnOk result (text.new.items ≡ text.old.items ++ spec.names_text (map string_bytes names.now)) }
{
    match names {
        [] => Ok(()),
        [name, rest @ ..] => {
            text.extend_from_slice(b" ")?;
            text.extend_from_slice(name.as_str().as_bytes())?;
            push_names(text, rest)
        }
    }
}

// Appends a term.
#[tactic(auto, unfolding(crate::specs::FirstLine::term_text))]
fn push_term(text: &mut Vec<u8>, term: Term) -> Result<(), AllocError>
    ensures term { OnOk result (text.new.items ≡ text.old.items ++ spec.term_text term) }
{
    if term.times == 0 {
        return push_signed(text, term.plus);
    }
    if term.times == 4_294_967_295 && 0 < term.plus && term.plus < 0x8000_0000 {
        push_number(text, term.plus)?;
        return text.extend_from_slice(b" - rounds");
    }
    push_times(text, term.times)?;
    push_more(text, term.plus)
}

// Appends so many times the rounds.
#[tactic(auto, unfolding(crate::specs::FirstLine::times_text))]
fn push_times(text: &mut Vec<u8>, n: u32) -> Result<(), AllocError>
    ensures times { OnOk result (text.new.items ≡ text.old.items ++ spec.times_text n) }
{
    if n == 1 {
        return text.extend_from_slice(b"rounds");
    }
    push_signed(text, n)?;
    text.extend_from_slice(b" * rounds")
}

// Appends what is more than the rounds, or less.
#[tactic(auto, unfolding(crate::specs::FirstLine::more_text))]
fn push_more(text: &mut Vec<u8>, n: u32) -> Result<(), AllocError>
    ensures more { OnOk result (text.new.items ≡ text.old.items ++ spec.more_text n) }
{
    if n == 0 {
        return Ok(());
    }
    if n < 0x8000_0000 {
        text.extend_from_slice(b" + ")?;
        return push_number(text, n);
    }
    text.extend_from_slice(b" - ")?;
    push_number(text, n.wrapping_neg())
}

// Appends a word as a signed number.
#[tactic(auto, unfolding(crate::specs::FirstLine::signed_text))]
fn push_signed(text: &mut Vec<u8>, n: u32) -> Result<(), AllocError>
    ensures signed { OnOk result (text.new.items ≡ text.old.items ++ spec.signed_text n) }
{
    if n < 0x8000_0000 {
        return push_number(text, n);
    }
    text.extend_from_slice(b"-")?;
    push_number(text, n.wrapping_neg())
}

// Appends a number in decimal digits.
fn push_number(text: &mut Vec<u8>, n: u32) -> Result<(), AllocError>
    ensures number { OnOk result (text.new.items ≡ text.old.items ++ decimal n) }
{
    let mut digits = Buffer::new();
    text.extend_from_slice(digits.format(n as u64).as_bytes())
}
