//! The heap for C: what it answers to a list of calls, one after another.
//!
//! A heap can't be handed to C, since its values own memory; a list of calls and the list of their answers can. So a program in C that
//! has a heap of its own notes its calls, and asks what the proved heap answers to them: the first answer that differs is the first
//! mistake. `examples/heap_in_c` has such a program.
//!
//! [`heap_answers`] is the call. What the heap answers to a list of calls is `answers_of` in `specs/Answers.antt`.
//!
//! The archive needs `rattle_alloc` and `rattle_dealloc`, which the toolchain's C library has.
#![tactic(auto)]

ghost use Rattle.std.specs.Prelude.{◌≡◌, ◌==◌, ◌⊎◌, not, length};
ghost use Rattle.heap_c.specs.Answers.{answers_of, is_heap, whole};

mod calls;

pub use calls::HeapCall;
use calls::answer_all;
use freelist_memory::Heap;
use std::alloc::Global;

/// All calls were answered.
pub const ANSWERED: u32 = 0;
/// There is no such heap, or there isn't an answer for each call.
pub const NO_HEAP: u32 = 1;
/// Out of memory.
pub const NO_MEMORY: u32 = 2;

/// Makes these calls, one after another, on a heap from `low` up to `high`, all of which is free at first, and writes what each answers.
///
/// `getmem` and `getstk` answer an address, `freemem` and `freestk` 0; a call that is refused is answered by 0xffffffff.
///
/// The result is [`ANSWERED`], [`NO_HEAP`] or [`NO_MEMORY`]. It is `NO_HEAP` if and only if a bound isn't a multiple of 8, `low` is above
/// `high`, `high` is above 1048576, or there aren't as many answers as calls. Unless it is `ANSWERED`, nothing is written.
#[unsafe(no_mangle)]
pub extern "C" fn heap_answers(
    alloc: Global,
    low: u32,
    high: u32,
    calls: &[HeapCall],
    answers: &mut [u32],
) -> u32
    ensures answered { (result ≡ 0) → (answers.new ≡ answers_of (whole low high) calls.now) }
    ensures ranges { (result == 1) ≡ not (is_heap low high (length calls.now) (length answers.old)) }
    ensures stays { (result ≡ 0) ⊎ (answers.new ≡ answers.old) }
{
    if low % 8 != 0 || high % 8 != 0 || low > high || high > 1_048_576 {
        return NO_HEAP;
    }
    if calls.len() != answers.len() {
        return NO_HEAP;
    }
    let Ok(mut heap) = Heap::new(alloc, low, high) else {
        return NO_MEMORY;
    };
    answer_all(&mut heap, calls, answers);
    ANSWERED
}
