//! The calls on memory, 10 to 13 (book, chapter 9, `getmem.c`, `freemem.c`, `getstk.c`).

ghost use Rattle.std.specs.Prelude.{◌≡◌};
ghost use Rattle.kernel_state.specs.Results.{came_to, IsStart};
ghost use Rattle.xinu_model.specs.Heap.Calls as model;

use kernel_state::KernelState;
use xinu_base::{Next, SYSERR};

/// Call 10: `n` bytes of the lowest free cells; their address. Refused if n is 0 or no such cells are free.
pub(crate) fn getmem(k: &mut KernelState, n: u32) -> Next
    requires start { IsStart k.old.call }
    ensures getmem { came_to k.new.call result ≡ model.getmem n k.old.call.state }
    ensures image { k.new.image ≡ k.old.image }
{
    match k.heap.getmem(n) {
        Some(a) => Next::Returns(a as i32),
        None => Next::Returns(SYSERR),
    }
}

/// Call 11: `n` bytes from an address on are given back. Refused if they aren't whole cells of the heap that are taken.
pub(crate) fn freemem(k: &mut KernelState, a: u32, n: u32) -> Next
    requires start { IsStart k.old.call }
    ensures freemem { came_to k.new.call result ≡ model.freemem a n k.old.call.state }
    ensures image { k.new.image ≡ k.old.image }
{
    if k.heap.freemem(a, n) {
        Next::Returns(0)
    } else {
        Next::Returns(SYSERR)
    }
}

/// Call 12: a stack of `n` bytes of the highest free cells; the address of its highest word. Refused as `getmem`.
pub(crate) fn getstk(k: &mut KernelState, n: u32) -> Next
    requires start { IsStart k.old.call }
    ensures getstk { came_to k.new.call result ≡ model.getstk n k.old.call.state }
    ensures image { k.new.image ≡ k.old.image }
{
    match k.heap.getstk(n) {
        Some(a) => Next::Returns(a as i32),
        None => Next::Returns(SYSERR),
    }
}

/// Call 13: a stack of `n` bytes whose highest word is at an address is given back. Refused as `freemem`.
pub(crate) fn freestk(k: &mut KernelState, a: u32, n: u32) -> Next
    requires start { IsStart k.old.call }
    ensures freestk { came_to k.new.call result ≡ model.freestk a n k.old.call.state }
    ensures image { k.new.image ≡ k.old.image }
{
    if k.heap.freestk(a, n) {
        Next::Returns(0)
    } else {
        Next::Returns(SYSERR)
    }
}
