//! What the heap hands out, where it does so, and when it refuses.

ghost use Rattle.std.specs.Prelude.{◌≡◌, ◌<◌, ◌≤◌, ◌+◌, ℕ, Bool, pos, true, false, List, Some, None};
ghost use Rattle.part_laws.specs.FreeCells.{is_in_free, IsLeast, IsGreatest, BeginNowhere};
ghost use Rattle.xinu_model.specs.Heap.Calls.{getmem, getstk};
ghost use Rattle.xinu_model.specs.Heap.Cells.{Heap, Grant, Stack, cells_for, lowest_free, highest_free, take_memory, take_stack};
ghost use Rattle.xinu_model.specs.Machine.{Xinu, Returns};

/// Memory comes from the least start at which there are enough free cells in a row, and a stack from the greatest.
pub fn places_are_extreme()
    ensures lowest { (k : ℕ) (cells : List Bool) (start : ℕ) → lowest_free k cells ≡ Some start → IsLeast k cells start }
    ensures highest { (k : ℕ) (cells : List Bool) (start : ℕ) → highest_free k cells ≡ Some start → IsGreatest k cells start }
{}

/// The heap hands out only what was free just before, and isn't afterwards: bytes, stacks, and what calls 10 and 12 answer.
pub fn grants_were_free()
    ensures memory { (n : ℕ) (h : Heap) (grant : Grant) → take_memory n h ≡ Some grant → (a : ℕ) → grant.address ≤ a →
        a < grant.address + n → (is_in_free a h ≡ true) × (is_in_free a grant.heap ≡ false) }
    ensures stacks { (n : ℕ) (h : Heap) (stack : Stack) → take_stack n h ≡ Some stack → (a : ℕ) → a < stack.top + 4 →
        stack.top + 4 ≤ a + n → (is_in_free a h ≡ true) × (is_in_free a stack.heap ≡ false) }
    ensures getmem { (n address : ℕ) (s : Xinu) → (getmem n s).answer ≡ Returns (pos address) → (a : ℕ) → address ≤ a → a < address + n →
        (is_in_free a s.parts.heap ≡ true) × (is_in_free a (getmem n s).call.state.parts.heap ≡ false) }
    ensures getstk { (n top : ℕ) (s : Xinu) → (getstk n s).answer ≡ Returns (pos top) → (a : ℕ) → a < top + 4 → top + 4 ≤ a + n →
        (is_in_free a s.parts.heap ≡ true) × (is_in_free a (getstk n s).call.state.parts.heap ≡ false) }
{}

/// Memory and stacks are refused only if nowhere enough free cells are in a row.
pub fn heap_refuses_rightly()
    ensures memory { (n : ℕ) (h : Heap) → 0 < n → take_memory n h ≡ None → BeginNowhere (cells_for n) h.cells }
    ensures stacks { (n : ℕ) (h : Heap) → 0 < n → take_stack n h ≡ None → BeginNowhere (cells_for n) h.cells }
{}
