//! Numbers, places and lines in a text.

ghost use Rattle.std.specs.Prelude.{◌≡◌, ◌≤◌, ◌++◌, length, OnOk};
ghost use Rattle.std.specs.Fmt.{decimal};
ghost use Rattle.std.specs.List.{flat_map};
ghost use Rattle.preemptions.specs.Moments.{moments};
ghost use Rattle.races_command.specs.Shown as spec;

use itoa::Buffer;
use preemptions::events_before;
use printed_runs::push_named;
use std::alloc::AllocError;
use text_lines::first_line;
use xinu_base::Event;

/// Appends a number in decimal digits.
pub(crate) fn push_number(text: &mut Vec<u8>, n: u64) -> Result<(), AllocError>
    ensures number { OnOk result (text.new.items ≡ text.old.items ++ decimal n) }
{
    let mut digits = Buffer::new();
    text.extend_from_slice(digits.format(n).as_bytes())
}

/// Appends so many of a thing.
#[tactic(auto, unfolding(crate::specs::Shown::number_of))]
pub(crate) fn push_number_of(text: &mut Vec<u8>, n: u64, thing: &str) -> Result<(), AllocError>
    ensures number { OnOk result (text.new.items ≡ text.old.items ++ spec.number_of n thing.now) }
{
    push_number(text, n)?;
    text.extend_from_slice(b" ")?;
    text.extend_from_slice(thing.as_bytes())?;
    push_plural(text, n)
}

// Appends what is added to the name of a thing if there isn't one of it.
fn push_plural(text: &mut Vec<u8>, n: u64) -> Result<(), AllocError>
    ensures plural { OnOk result (text.new.items ≡ text.old.items ++ spec.plural n) }
{
    if n == 1 {
        return Ok(());
    }
    text.extend_from_slice(b"s")
}

/// Appends the places of a placement.
pub(crate) fn push_places(text: &mut Vec<u8>, places: &[u32]) -> Result<(), AllocError>
    ensures places { OnOk result (text.new.items ≡ text.old.items ++ spec.places_text places.now) }
{
    if places.is_empty() {
        text.extend_from_slice(b" none")?;
        return Ok(());
    }
    for place in places {
        text.extend_from_slice(b" ")?;
        push_number(text, *place as u64)?;
    }
    Ok(())
}

/// Appends when preemptions at these places of a schedule come: how many events come before each.
#[tactic(auto, unfolding(crate::specs::Shown::moments_text))]
pub(crate) fn push_moments(
    text: &mut Vec<u8>,
    base: &[Event],
    places: &[u32],
) -> Result<(), AllocError>
    requires base { length base.now ≤ 1000000 }
    requires few { length places.now ≤ 3 }
    ensures moments { OnOk result (text.new.items ≡ text.old.items ++ spec.moments_text places.now base.now) }
{
    if places.len() == 0 {
        return Ok(());
    }
    text.extend_from_slice(b", at event")?;
    push_plural(text, places.len() as u64)?;
    push_each(text, base, places)?;
    Ok(())
}

// Appends how many events come before each preemption.
fn push_each(text: &mut Vec<u8>, base: &[Event], places: &[u32]) -> Result<(), AllocError>
    requires base { length base.now ≤ 1000000 }
    requires few { length places.now ≤ 3 }
    ensures each { OnOk result (text.new.items ≡ text.old.items ++ flat_map spec.place_text (moments places.now base.now)) }
{
    for i in 0..places.len() {
        let place = places[i];
        text.extend_from_slice(b" ")?;
        push_number(text, events_before(base, place) as u64 + 2 * i as u64)?;
    }
    Ok(())
}

/// Appends the lines of another text, each behind two blanks, with the name of a process as a text after it.
pub(crate) fn push_listed(text: &mut Vec<u8>, lines: &[u8]) -> Result<(), AllocError>
    ensures listed { OnOk result (text.new.items ≡ text.old.items ++ spec.listed lines.now) }
{
    let mut rest = lines;
    while !rest.is_empty() {
        let (line, next) = first_line(rest);
        text.extend_from_slice(b"  ")?;
        push_named(text, line)?;
        text.extend_from_slice(b"\n")?;
        rest = next;
    }
    Ok(())
}
