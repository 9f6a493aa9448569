//! The calls on the heap, `getmem`, `freemem`, `getstk` and `freestk`, and the same of the machine's heap for those who take memory within
//! a call (book, chapter 9).

ghost use Rattle.std.specs.Prelude.{◌≡◌, ◌*◌, ◌≤◌, IfOk, IfSome, IfNone, Some, None, if◌then◌else◌, is_ok, true, unwrap_or};
ghost use Rattle.reference_calls.specs.Heaps.{with_heap};
ghost use Rattle.reference_state.specs.Answers.{came_to, IsStart};
ghost use Rattle.xinu_model.specs.Heap.Calls as model;
ghost use Rattle.xinu_model.specs.Heap.Cells as cells;

use crate::heap::{free_memory, free_stack, take_memory, take_stack};
use reference_state::{Answer, Machine};
use xinu_base::{NoMemory, SYSERR};

/// Call 10: n bytes of the lowest free cells; their address. Refused if n is 0 or no such cells are free.
pub fn getmem(m: &mut Machine, n: u32) -> Result<Answer, NoMemory>
    requires start { IsStart m.old }
    ensures getmem { IfOk result (λ r. came_to m.new r ≡ model.getmem n m.old.state) }
    ensures answers { is_ok result ≡ true }
{
    match memory_taken(m, n) {
        None => Ok(Answer::Returns(SYSERR)),
        Some(address) => Ok(Answer::Returns(address as i32)),
    }
}

/// Call 11: n bytes from an address on are given back. Refused if they aren't whole cells of the heap that are taken.
pub fn freemem(m: &mut Machine, a: u32, n: u32) -> Result<Answer, NoMemory>
    requires start { IsStart m.old }
    ensures freemem { IfOk result (λ r. came_to m.new r ≡ model.freemem a n m.old.state) }
    ensures answers { is_ok result ≡ true }
{
    if memory_freed(m, a, n) {
        Ok(Answer::Returns(0))
    } else {
        Ok(Answer::Returns(SYSERR))
    }
}

/// Call 12: a stack of n bytes of the highest free cells; the address of its highest word. Refused as call 10.
pub fn getstk(m: &mut Machine, n: u32) -> Result<Answer, NoMemory>
    requires start { IsStart m.old }
    ensures getstk { IfOk result (λ r. came_to m.new r ≡ model.getstk n m.old.state) }
    ensures answers { is_ok result ≡ true }
{
    match stack_taken(m, n) {
        None => Ok(Answer::Returns(SYSERR)),
        Some(top) => Ok(Answer::Returns(top as i32)),
    }
}

/// Call 13: a stack of n bytes whose highest word is at an address is given back. Refused as call 11.
pub fn freestk(m: &mut Machine, a: u32, n: u32) -> Result<Answer, NoMemory>
    requires start { IsStart m.old }
    ensures freestk { IfOk result (λ r. came_to m.new r ≡ model.freestk a n m.old.state) }
    ensures answers { is_ok result ≡ true }
{
    if stack_freed(m, a, n) {
        Ok(Answer::Returns(0))
    } else {
        Ok(Answer::Returns(SYSERR))
    }
}

/// n bytes of the machine's heap; their address.
pub fn memory_taken(m: &mut Machine, n: u32) -> Option<u32>
    ensures grants { IfSome result (λ a. cells.take_memory n m.old.state.parts.heap ≡
        Some (record { address = a; heap = m.new.state.parts.heap })) }
    ensures refuses { IfNone result (cells.take_memory n m.old.state.parts.heap ≡ None) }
    ensures heap { m.new ≡ with_heap m.new.state.parts.heap m.old }
    ensures stays { IfNone result (m.new ≡ m.old) }
    ensures in_ram { IfSome result (λ a. a ≤ 1048576) }
{
    take_memory(&mut m.heap, n)
}

/// A stack of n bytes of the machine's heap; the address of its highest word.
pub fn stack_taken(m: &mut Machine, n: u32) -> Option<u32>
    ensures grants { IfSome result (λ top. cells.take_stack n m.old.state.parts.heap ≡
        Some (record { top = top; heap = m.new.state.parts.heap })) }
    ensures refuses { IfNone result (cells.take_stack n m.old.state.parts.heap ≡ None) }
    ensures heap { m.new ≡ with_heap m.new.state.parts.heap m.old }
    ensures stays { IfNone result (m.new ≡ m.old) }
    ensures in_ram { IfSome result (λ top. top ≤ 1048576) }
    ensures fits { IfSome result (λ _. 8 * cells.cells_for n ≤ 1048576) }
{
    take_stack(&mut m.heap, n)
}

/// n bytes from an address on of the machine's heap are free, unless it refuses them.
pub fn memory_freed(m: &mut Machine, a: u32, n: u32) -> bool
    ensures frees { cells.free_memory a n m.old.state.parts.heap ≡ (if result then Some m.new.state.parts.heap else None) }
    ensures stays { m.new ≡ with_heap (unwrap_or (cells.free_memory a n m.old.state.parts.heap) m.old.state.parts.heap) m.old }
{
    free_memory(&mut m.heap, a, n)
}

/// A stack of n bytes of the machine's heap is free, unless the heap refuses it.
pub fn stack_freed(m: &mut Machine, a: u32, n: u32) -> bool
    ensures frees { cells.free_stack a n m.old.state.parts.heap ≡ (if result then Some m.new.state.parts.heap else None) }
    ensures stays { m.new ≡ with_heap (unwrap_or (cells.free_stack a n m.old.state.parts.heap) m.old.state.parts.heap) m.old }
{
    free_stack(&mut m.heap, a, n)
}
