//! Why the calls on the heap are refused (book, chapter 9).

ghost use Rattle.std.specs.Prelude.{◌≡◌, ◌<◌, ◌%◌, ◌≤◌, IfOk, not};
ghost use Rattle.refusal_reasons.specs.Causes.{first_reason};
ghost use Rattle.refusal_reasons.specs.Memory as specs;
ghost use Rattle.xinu_model.specs.Heap.Cells.{cells_for};
ghost use Rattle.xinu_model.specs.Memory.{ranges_meet};
ghost use Rattle.xinu_model.specs.Process.Creation.{stack_size};

use crate::reasons::{Cause, Reason, first_of};
use freelist_memory::Heap;
use kernel_state::KernelState;
use std::alloc::AllocError;

/// The heap has no free block of `n` bytes.
pub(crate) fn no_block(k: &KernelState, n: u32) -> Cause
    requires some { 0 < n }
    ensures cause { result ≡ specs.no_block n k.now.call.state }
{
    Cause::new(Reason::NoBlock, has_no_block(&k.heap, n))
}

/// The heap has no free block for a stack of a process that asks for so many bytes.
pub(crate) fn no_stack(k: &KernelState, wanted: u32) -> Cause
    ensures cause { result ≡ specs.no_block (stack_size wanted) k.now.call.state }
{
    Cause::new(Reason::NoBlock, has_no_stack(&k.heap, wanted))
}

// Whether a heap has no free block of `n` bytes.
#[tactic(auto, using(crate::proofs::Blocks::place_none))]
fn has_no_block(heap: &Heap, n: u32) -> bool
    requires some { 0 < n }
    ensures none { result ≡ not (specs.has_free (cells_for n) heap.now.cells) }
{
    heap.place_for(n).is_none()
}

// The same of a stack.
#[tactic(auto, using(crate::proofs::Blocks::whole_stack))]
fn has_no_stack(heap: &Heap, wanted: u32) -> bool
    ensures none { result ≡ not (specs.has_free (cells_for (stack_size wanted)) heap.now.cells) }
{
    has_no_block(heap, wanted.max(400))
}

/// `getmem` and `getstk`.
pub(crate) fn taking(k: &KernelState, n: u32) -> Option<Reason>
    ensures reason { result ≡ first_reason (specs.taking_causes n k.now.call.state) }
{
    if n == 0 {
        return Some(Reason::NoBytes);
    }
    first_of(&[no_block(k, n)])
}

/// `freemem`, with an address and a number of bytes.
///
/// # Errors
/// Out of memory, for a copy of the heap's records.
pub(crate) fn freemem(k: &KernelState, a: u32, n: u32) -> Result<Option<Reason>, AllocError>
    ensures reason { IfOk result (λ r. r ≡ first_reason (specs.freemem_causes a n k.now.call.state.parts.heap)) }
{
    if n == 0 {
        return Ok(Some(Reason::NoBytes));
    }
    if a % 8 != 0 {
        return Ok(Some(Reason::NotAligned));
    }
    let taken = takes_back(&k.heap, a, n)?;
    let free = are_free(&k.heap, a, n);
    Ok(first_of(&[
        Cause::new(Reason::FreeAlready, !taken && free),
        Cause::new(Reason::NotTaken, !taken),
    ]))
}

/// `freestk`, with an address and a number of bytes.
///
/// # Errors
/// Out of memory, for a copy of the heap's records.
pub(crate) fn freestk(k: &KernelState, a: u32, n: u32) -> Result<Option<Reason>, AllocError>
    ensures reason { IfOk result (λ r. r ≡ first_reason (specs.freestk_causes a n k.now.call.state.parts.heap)) }
{
    if n == 0 {
        return Ok(Some(Reason::NoBytes));
    }
    let end = a as u64 + 4;
    let bytes = 8 * ((n as u64 + 7) / 8);
    if end < bytes || (end - bytes) % 8 != 0 {
        return Ok(Some(Reason::NotTop));
    }
    let bottom = (end - bytes) as u32;
    let taken = takes_back(&k.heap, bottom, n)?;
    let free = are_free(&k.heap, bottom, n);
    Ok(first_of(&[
        Cause::new(Reason::FreeAlready, !taken && free),
        Cause::new(Reason::NotTaken, !taken),
    ]))
}

// Whether `n` bytes from an address on are taken, so that a copy of the heap takes them back.
fn takes_back(heap: &Heap, a: u32, n: u32) -> Result<bool, AllocError>
    requires some { 0 < n }
    requires aligned { a % 8 ≡ 0 }
    ensures taken { IfOk result (λ r. r ≡ specs.are_taken a n heap.now) }
{
    let mut copy = heap.clone()?;
    Ok(copy.freemem(a, n))
}

// Whether `n` bytes from an address on share one with a free block.
fn are_free(heap: &Heap, a: u32, n: u32) -> bool
    ensures free { result ≡ specs.are_free a n heap.now }
{
    let bytes = 8 * ((n as u64 + 7) / 8);
    let mut next = heap.block_from(0);
    while let Some((address, size)) = next {
        if do_meet(a, bytes, address, size) {
            return true;
        }
        next = heap.block_from(address + size);
    }
    false
}

// Whether two ranges share an address, each by its first address and how many it has.
fn do_meet(a: u32, n: u64, b: u32, m: u32) -> bool
    requires few { n ≤ 4294967296 }
    ensures meet { result ≡ ranges_meet a n b m }
{
    (0 < n && 0 < m) && ((a as u64) < b as u64 + m as u64 && (b as u64) < a as u64 + n)
}
