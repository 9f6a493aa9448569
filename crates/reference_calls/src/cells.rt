//! Cells of eight bytes, each free or taken: the searches for free ones, and how they are marked (book, chapter 9). A search reads each
//! cell once, however many cells it looks for, and none if it looks for more than there are.

ghost use Rattle.std.specs.Prelude.{◌≡◌, ◌+◌, ◌≤◌, IfSome, length, drop, true, false};
ghost use Rattle.xinu_model.specs.Heap.Cells as model;

/// How many cells hold n bytes.
pub(crate) fn cells_for(n: u32) -> usize
    ensures cells { result ≡ model.cells_for n }
    ensures most { result ≤ 536870912 }
{
    n.div_ceil(8) as usize
}

/// The least start of k free cells in a row, for a k that isn't 0.
pub(crate) fn lowest_free(k: usize, cells: &[bool]) -> Option<usize>
    requires some { 1 ≤ k }
    ensures lowest { result ≡ model.lowest_free k cells.now }
    ensures within { IfSome result (λ i. i + k ≤ length cells.now) }
{
    if k > cells.len() {
        return None;
    }
    let mut start = 0usize;
    for i in 0..cells.len() {
        if !cells[i] {
            start = i + 1;
        } else if i + 1 - start == k {
            return Some(start);
        }
    }
    None
}

/// The greatest start of k free cells in a row.
pub(crate) fn highest_free(k: usize, cells: &[bool]) -> Option<usize>
    ensures highest { result ≡ model.highest_free k cells.now }
    ensures within { IfSome result (λ i. i + k ≤ length cells.now) }
{
    if k > cells.len() {
        return None;
    }
    let mut free = 0usize;
    for i in (0..cells.len()).rev() {
        if cells[i] {
            free += 1;
        } else {
            free = 0;
        }
        if free >= k {
            return Some(i);
        }
    }
    None
}

/// The k cells from a start on are of this kind now.
pub(crate) fn mark(kind: bool, start: usize, k: usize, cells: &mut [bool])
    requires within { start + k ≤ length cells.old }
    ensures marked { cells.new ≡ model.marked kind start k cells.old }
    ensures same { length cells.new ≡ length cells.old }
{
    cells[start..start + k].fill(kind);
}

/// Whether the k cells from a start on, which exist, are taken.
pub(crate) fn are_taken(start: usize, k: usize, cells: &[bool]) -> bool
    requires within { start + k ≤ length cells.now }
    ensures taken { result ≡ model.begins_with false k (drop start cells.now) }
{
    let (_, rest) = cells.split_at(start);
    for i in 0..k {
        if rest[i] {
            return false;
        }
    }
    true
}
