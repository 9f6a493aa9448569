//! The placement that comes next.

ghost use Rattle.std.specs.Prelude.{◌≡◌, ◌+◌, ◌-◌, ◌≤◌, ◌<◌, ◌++◌, ◌∷◌, [], false, if◌then◌else◌, length, take, drop, slice_index, IfOk, OnOk, OnErr};
ghost use Rattle.std.specs.List.{range_with_len};
ghost use Rattle.preemptions.specs.Placements as spec;

use crate::stretches::Stretch;
use std::alloc::AllocError;

/// Makes these places the next placement of at most `most` places in a stretch, and answers whether there is any. If not, they stay.
///
/// # Errors
/// Out of memory; the places stay.
pub(crate) fn next_places(
    places: &mut Vec<u32>,
    most: u32,
    stretch: Stretch,
) -> Result<bool, AllocError>
    requires few { length places.old.items ≤ most }
    ensures next { IfOk result (λ is_more. spec.placements_after most stretch places.old.items ≡ (if is_more then places.new.items ∷ spec.placements_after most stretch places.new.items else [])) }
    ensures few { OnOk result (length places.new.items ≤ most) }
    ensures kept { OnErr result (places.new.items ≡ places.old.items) }
{
    if keep_size(places, stretch.within) {
        return Ok(true);
    }
    if places.len() >= most as usize {
        return Ok(false);
    }
    if places.len() >= stretch.size() as usize {
        return Ok(false);
    }
    grow(places, stretch.after + 1)?;
    Ok(true)
}

// Makes these places the next ones of as many places, and answers whether there are any.
fn keep_size(places: &mut Vec<u32>, within: u32) -> bool
    ensures next { spec.later within places.old.items ≡ (if result then places.new.items ∷ spec.later within places.new.items else []) }
    ensures length { length places.new.items ≡ length places.old.items }
    ensures kept { result ≡ false → places.new.items ≡ places.old.items }
{
    move_on(places.as_mut_slice(), within)
}

// Makes these places the first ones of one place more, from this one on.
fn grow(places: &mut Vec<u32>, first: u32) -> Result<(), AllocError>
    requires few { first + length places.old.items < 4294967296 }
    ensures first { OnOk result (places.new.items ≡ range_with_len first (length places.old.items + 1)) }
    ensures kept { OnErr result (places.new.items ≡ places.old.items) }
{
    places.push(0)?;
    fill(places.as_mut_slice(), 0, first);
    Ok(())
}

// Makes these places the next ones of as many places, and answers whether there are any: the last place that can move moves by one step, and
// those after it follow it closely.
fn move_on(places: &mut [u32], within: u32) -> bool
    ensures next { spec.later within places.old ≡ (if result then places.new ∷ spec.later within places.new else []) }
    ensures length { length places.new ≡ length places.old }
    ensures kept { result ≡ false → places.new ≡ places.old }
{
    let end = last_that_moves(places, within);
    if end == 0 {
        return false;
    }
    let place = places[end - 1];
    fill(places, end - 1, place + 1);
    true
}

// The place after the last one that can move; 0, if none can.
fn last_that_moves(places: &[u32], within: u32) -> usize
    ensures full { spec.later within (drop result places.now) ≡ [] }
    ensures inside { result ≤ length places.now }
    ensures moves { 0 < result → slice_index places.now (result - 1) + (length places.now - result) < within }
{
    let mut end = places.len();
    while end > 0 {
        let place = places[end - 1] as usize;
        if place + (places.len() - end) < within as usize {
            return end;
        }
        end -= 1;
    }
    0
}

// Makes the numbers from this index on follow one another.
fn fill(places: &mut [u32], from: usize, first: u32)
    requires inside { from ≤ length places.old }
    requires fits { first + (length places.old - from) ≤ 4294967296 }
    ensures filled { places.new ≡ take from places.old ++ range_with_len first (length places.old - from) }
{
    for i in 0..places.len() - from {
        places[from + i] = first + i as u32;
    }
}
