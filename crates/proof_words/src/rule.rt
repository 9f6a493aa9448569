//! A rule in words: an item, the sum of two or the difference of two; an item is a number, `rounds`, or a number times `rounds`.

ghost use Rattle.std.specs.Prelude.{◌≡◌, ◌<◌, if◌then◌else◌, option_map};
ghost use Rattle.program_logic.specs.Terms as terms;
ghost use Rattle.proof_words.specs.Rules as rules;
ghost use Rattle.run_inputs.specs.Numbers as numbers;

use program_logic::Term;
use run_inputs::number;

/// The greatest number of a rule.
const GREATEST: u64 = 999_999_999;

/// The term that a rule says, as `rounds`, `3 * rounds` or `100 - rounds`, if it says one. A space may stand on either side of a sign.
#[tactic(auto, unfolding(crate::specs::Rules::rule_in))]
pub(crate) fn rule_in(text: &str) -> Option<Term>
    ensures rule { result ≡ rules.rule_in text.now }
{
    match parts_at(text, '+') {
        Some((first, second)) => {
            let first = item_in(first)?;
            let second = item_in(second)?;
            Some(sum(first, second))
        }
        None => difference_in(text),
    }
}

// An item, or the difference of two.
fn difference_in(text: &str) -> Option<Term>
    ensures difference { result ≡ rules.difference_by (rules.parts_at 45 text.now) text.now }
{
    match parts_at(text, '-') {
        Some((first, second)) => {
            let first = item_in(first)?;
            let second = item_in(second)?;
            Some(difference(first, second))
        }
        None => item_in(text),
    }
}

// A number times `rounds`, `rounds`, or a number.
fn item_in(text: &str) -> Option<Term>
    ensures item { result ≡ rules.item_in text.now }
{
    match parts_at(text, '*') {
        Some((times, name)) => {
            if bare(name) != "rounds" {
                return None;
            }
            let times = number_in(bare(times))?;
            Some(Term { times, plus: 0 })
        }
        None => single_in(bare(text)),
    }
}

// `rounds`, or a number.
fn single_in(text: &str) -> Option<Term>
    ensures single { result ≡ (if rules.is_rounds text.now then Some (rules.times_rounds 1) else option_map terms.constant (rules.number_in text.now)) }
{
    if text == "rounds" {
        return Some(Term { times: 1, plus: 0 });
    }
    let plus = number_in(text)?;
    Some(Term { times: 0, plus })
}

// The sum of two terms.
fn sum(a: Term, b: Term) -> Term
    ensures sum { result ≡ terms.added a b }
{
    Term {
        times: a.times.wrapping_add(b.times),
        plus: a.plus.wrapping_add(b.plus),
    }
}

// The difference of two terms.
fn difference(a: Term, b: Term) -> Term
    ensures difference { result ≡ terms.taken a b }
{
    Term {
        times: a.times.wrapping_sub(b.times),
        plus: a.plus.wrapping_sub(b.plus),
    }
}

/// What stands before the first of a mark and after it, if there is one.
pub(crate) fn parts_at(text: &str, mark: char) -> Option<(&str, &str)>
    requires low { mark < 128 }
    ensures parts { option_map (λ p. (p.0.now, p.1.now)) result ≡ rules.parts_at mark text.now }
{
    text.split_once(mark)
}

// A text without a space in front of it, and without one behind it.
fn bare(text: &str) -> &str
    ensures bare { result.now ≡ rules.bare text.now }
{
    before_space(after_space(text))
}

// A text without a space in front of it.
fn after_space(text: &str) -> &str
    ensures bare { result.now ≡ rules.after_space text.now }
{
    match parts_at(text, ' ') {
        Some((first, rest)) if first.is_empty() => rest,
        _ => text,
    }
}

// A text without a space behind it.
fn before_space(text: &str) -> &str
    ensures bare { result.now ≡ rules.without_last (rules.parts_at 32 text.now) text.now }
{
    match parts_at(text, ' ') {
        Some((rest, last)) if last.is_empty() => rest,
        _ => text,
    }
}

// The number that a text is: 0, or one to ten decimal digits.
fn number_in(text: &str) -> Option<u32>
    ensures number { result ≡ rules.number_in text.now }
{
    if text == "0" {
        return Some(0);
    }
    small_number(text, GREATEST)
}

/// The number that decimal digits give, if it is from 1 to a bound.
#[tactic(auto, using(crate::proofs::Numbers::at_most))]
pub(crate) fn small_number(text: &str, most: u64) -> Option<u32>
    requires small { most < 4294967296 }
    ensures number { result ≡ numbers.number text.now most }
{
    match number(text, most) {
        Some(value) => Some(value as u32),
        None => None,
    }
}
