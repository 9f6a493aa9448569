//! The heap: memory and stacks that are taken from its cells and given back (book, chapter 9).

ghost use Rattle.std.specs.Prelude.{◌≡◌, ◌+◌, ◌-◌, ◌*◌, ◌≤◌, IfSome, IfNone, Some, None, false, if◌then◌else◌, length, unwrap_or};
ghost use Rattle.xinu_model.specs.Heap.Cells as model;

use crate::cells::{are_taken, cells_for, highest_free, lowest_free, mark};
use reference_state::Heap;

/// n bytes, from the lowest cells that are free; their address. `None`, and nothing changes, if n is 0 or there are no such cells.
pub fn take_memory(h: &mut Heap, n: u32) -> Option<u32>
    ensures grants { IfSome result (λ a. model.take_memory n h.old ≡ Some (record { address = a; heap = h.new })) }
    ensures refuses { IfNone result (model.take_memory n h.old ≡ None) }
    ensures stays { IfNone result (h.new ≡ h.old) }
    ensures in_ram { IfSome result (λ a. a ≤ 1048576) }
{
    if n == 0 {
        return None;
    }
    let k = cells_for(n);
    let Some(start) = lowest(h, k) else {
        return None;
    };
    let address = address_of(h, start);
    take(h, start, k);
    Some(address)
}

/// A stack of n bytes, from the highest cells that are free; the address of its highest word. `None`, and nothing changes, if n is 0 or
/// there are no such cells.
pub fn take_stack(h: &mut Heap, n: u32) -> Option<u32>
    ensures grants { IfSome result (λ top. model.take_stack n h.old ≡ Some (record { top = top; heap = h.new })) }
    ensures refuses { IfNone result (model.take_stack n h.old ≡ None) }
    ensures stays { IfNone result (h.new ≡ h.old) }
    ensures in_ram { IfSome result (λ top. top ≤ 1048576) }
    ensures fits { IfSome result (λ _. 8 * model.cells_for n ≤ 1048576) }
{
    if n == 0 {
        return None;
    }
    let k = cells_for(n);
    let Some(start) = highest(h, k) else {
        return None;
    };
    let end = address_of(h, start + k);
    take(h, start, k);
    Some(end - 4)
}

/// n bytes from address a on are given back. False, and nothing changes, unless they are whole cells of the heap that are taken.
pub fn free_memory(h: &mut Heap, a: u32, n: u32) -> bool
    ensures frees { model.free_memory a n h.old ≡ (if result then Some h.new else None) }
    ensures stays { h.new ≡ unwrap_or (model.free_memory a n h.old) h.old }
{
    if n == 0 || a % 8 != 0 || a < h.low {
        return false;
    }
    let start = (a - h.low) / 8;
    give(h, start as usize, cells_for(n))
}

/// A stack of n bytes whose highest word is at a is given back. False, and nothing changes, as `free_memory`.
pub fn free_stack(h: &mut Heap, a: u32, n: u32) -> bool
    ensures frees { model.free_stack a n h.old ≡ (if result then Some h.new else None) }
    ensures stays { h.new ≡ unwrap_or (model.free_stack a n h.old) h.old }
{
    if n == 0 {
        return false;
    }
    let bytes = 8 * cells_for(n);
    let end = a as usize + 4;
    if end < bytes {
        return false;
    }
    let first = (end - bytes) as u32;
    free_memory(h, first, n)
}

// The least start of k free cells in a row, for a k that isn't 0.
fn lowest(h: &Heap, k: usize) -> Option<usize>
    requires some { 1 ≤ k }
    ensures lowest { result ≡ model.lowest_free k h.now.cells }
    ensures within { IfSome result (λ i. i + k ≤ length h.now.cells) }
{
    lowest_free(k, &h.cells)
}

// The greatest start of k free cells in a row.
fn highest(h: &Heap, k: usize) -> Option<usize>
    ensures highest { result ≡ model.highest_free k h.now.cells }
    ensures within { IfSome result (λ i. i + k ≤ length h.now.cells) }
    ensures most { IfSome result (λ i. i + k ≤ 131072) }
{
    highest_free(k, &h.cells)
}

// The address of a cell, or the one after the last.
fn address_of(h: &Heap, cell: usize) -> u32
    requires within { cell ≤ length h.now.cells }
    ensures address { result ≡ h.now.low + 8 * cell }
    ensures in_ram { result ≤ 1048576 }
{
    h.low + 8 * cell as u32
}

// The k cells from a start on are taken.
fn take(h: &mut Heap, start: usize, k: usize)
    requires within { start + k ≤ length h.old.cells }
    ensures taken { h.new ≡ record h.old { cells = model.marked false start k h.old.cells } }
{
    mark(false, start, k, &mut h.cells);
}

// The k cells from a start on are free again. False, and nothing changes, unless they exist and are taken.
fn give(h: &mut Heap, start: usize, k: usize) -> bool
    requires some { 1 ≤ k }
    requires few { start + k ≤ 4294967295 }
    ensures given { model.freed h.old start k ≡ (if result then Some h.new else None) }
    ensures stays { h.new ≡ unwrap_or (model.freed h.old start k) h.old }
{
    if start + k > h.cells.len() {
        return false;
    }
    if !are_taken(start, k, &h.cells) {
        return false;
    }
    mark(true, start, k, &mut h.cells);
    true
}
