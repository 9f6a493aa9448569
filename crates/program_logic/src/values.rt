//! What is known of a value: that it is a term in how often the token was given back.

ghost use Rattle.std.specs.Prelude.{◌≡◌};
ghost use Rattle.program_logic.specs.PlaceCheck as places;
ghost use Rattle.program_logic.specs.Terms as terms;
ghost use Rattle.xinu_model.specs.Isa.Effects.{less, less_unsigned};

/// A number of times the count, and a number more.
#[derive(Clone, Copy)]
pub struct Term {
    /// How many times the count.
    pub times: u32,
    /// How much more.
    pub plus: u32,
}

/// What is known of a value.
#[derive(Clone, Copy)]
pub enum Slot {
    /// Nothing.
    Unknown,
    /// That it is a term.
    Known(Term),
}

/// A value that is known to be this number.
pub fn constant(number: u32) -> Slot
    ensures { result ≡ Slot.Known (terms.constant number) }
{
    Slot::Known(Term {
        times: 0,
        plus: number,
    })
}

/// What is known of a sum.
pub(crate) fn slots_added(a: Slot, b: Slot) -> Slot
    ensures { result ≡ terms.slots_added a b }
{
    match (a, b) {
        (Slot::Known(a), Slot::Known(b)) => Slot::Known(Term {
            times: a.times.wrapping_add(b.times),
            plus: a.plus.wrapping_add(b.plus),
        }),
        _ => Slot::Unknown,
    }
}

/// What is known of a difference.
pub(crate) fn slots_taken(a: Slot, b: Slot) -> Slot
    ensures { result ≡ terms.slots_taken a b }
{
    match (a, b) {
        (Slot::Known(a), Slot::Known(b)) => Slot::Known(Term {
            times: a.times.wrapping_sub(b.times),
            plus: a.plus.wrapping_sub(b.plus),
        }),
        _ => Slot::Unknown,
    }
}

/// What is known of a value that is shifted left by an amount, if that is known.
pub(crate) fn slot_shifted(slot: Slot, amount: Option<u32>) -> Slot
    ensures { result ≡ terms.slot_shifted slot amount }
{
    match (slot, amount) {
        (Slot::Known(a), Some(amount)) => Slot::Known(Term {
            times: a.times.wrapping_shl(amount),
            plus: a.plus.wrapping_shl(amount),
        }),
        _ => Slot::Unknown,
    }
}

/// The number that a value is known to be. `None` if and only if it isn't known to be one.
pub fn number_in(slot: Slot) -> Option<u32>
    ensures { result ≡ terms.number_in slot }
{
    match slot {
        Slot::Known(t) if t.times == 0 => Some(t.plus),
        _ => None,
    }
}

/// The term once the count is greater by one.
pub fn once_more(t: Term) -> Term
    ensures { result ≡ terms.once_more t }
{
    Term {
        times: t.times,
        plus: t.plus.wrapping_add(t.times),
    }
}

/// Whether a value is known to be this number.
pub fn is_constant(slot: Slot, number: u32) -> bool
    ensures { result ≡ terms.is_constant slot number }
{
    match slot {
        Slot::Unknown => false,
        Slot::Known(t) => t.times == 0 && t.plus == number,
    }
}

/// Whether two values are known to be the same.
pub fn are_same(a: Slot, b: Slot) -> bool
    ensures { result ≡ terms.are_same a b }
{
    match (a, b) {
        (Slot::Known(a), Slot::Known(b)) => a.times == b.times && a.plus == b.plus,
        _ => false,
    }
}

/// Whether two values are known to be two numbers that differ.
pub(crate) fn differ(a: Slot, b: Slot) -> bool
    ensures { result ≡ terms.differ a b }
{
    match (a, b) {
        (Slot::Known(a), Slot::Known(b)) => a.times == 0 && b.times == 0 && a.plus != b.plus,
        _ => false,
    }
}

/// Whether two values are equal, if that is known.
pub(crate) fn are_equal(a: Slot, b: Slot) -> Option<bool>
    ensures { result ≡ terms.are_equal a b }
{
    if are_same(a, b) {
        Some(true)
    } else if differ(a, b) {
        Some(false)
    } else {
        None
    }
}

/// Whether one value is less than another, as signed numbers, if that is known.
pub(crate) fn is_less(a: Slot, b: Slot) -> Option<bool>
    ensures { result ≡ terms.compared less a b }
{
    match (number_in(a), number_in(b)) {
        (Some(a), Some(b)) => Some(a.cast_signed() < b.cast_signed()),
        _ => None,
    }
}

/// The same, as unsigned numbers.
pub(crate) fn is_below(a: Slot, b: Slot) -> Option<bool>
    ensures { result ≡ terms.compared less_unsigned a b }
{
    match (number_in(a), number_in(b)) {
        (Some(a), Some(b)) => Some(a < b),
        _ => None,
    }
}

/// The contrary of what is known.
pub(crate) fn negated(known: Option<bool>) -> Option<bool>
    ensures { result ≡ terms.negated known }
{
    match known {
        Some(holds) => Some(!holds),
        None => None,
    }
}

// Whether what is known has all that is to be known.
pub(crate) fn slot_entails(have: Slot, want: Slot) -> bool
    ensures { result ≡ terms.slot_entails have want }
{
    match (have, want) {
        (_, Slot::Unknown) => true,
        (Slot::Unknown, Slot::Known(_)) => false,
        (Slot::Known(a), Slot::Known(b)) => a.times == b.times && a.plus == b.plus,
    }
}

// What stays known when the count does not: numbers.
pub(crate) fn fixed(slot: Slot) -> Slot
    ensures { result ≡ terms.fixed slot }
{
    match slot {
        Slot::Known(t) if t.times == 0 => slot,
        _ => Slot::Unknown,
    }
}

/// Whether it is known to be a number of ticks.
pub fn is_ticks(slot: Slot) -> bool
    ensures { result ≡ places.is_ticks slot }
{
    match slot {
        Slot::Unknown => false,
        Slot::Known(t) => t.times == 0 && 0 < t.plus && t.plus < 0x8000_0000,
    }
}
