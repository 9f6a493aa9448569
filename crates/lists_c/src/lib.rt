//! The lists for C: what the ready list, the waiters and the sleepers answer to a list of calls, one after another.
//!
//! So a program in C that has lists of its own notes the calls on them, and asks what the proved ones answer: the first answer that
//! differs is the first mistake. `examples/lists_in_c` has such a program.
//!
//! [`list_answers`] is the call: its answers are those of `answers_of` in `specs/Answers.antt`.
//!
//! The archive needs `rattle_alloc`, `rattle_realloc` and `rattle_dealloc`, which the toolchain's C library has.
#![tactic(auto)]

ghost use Rattle.std.specs.Prelude.{◌≡◌, ◌==◌, ◌⊎◌, not, length};
ghost use Rattle.lists_c.specs.Answers.{answers_of};
ghost use Rattle.lists_c.specs.Held.{no_lists};

mod calls;
mod lists;

pub use calls::ListCall;
use calls::answer_all;
use lists::HeldLists;
use std::alloc::Global;

/// All calls were answered.
pub const ANSWERED: u32 = 0;
/// There isn't an answer for each call.
pub const NO_ROOM: u32 = 1;
/// Out of memory.
pub const NO_MEMORY: u32 = 2;

/// Makes these calls, one after another, on lists that are empty at first, and writes what each answers.
///
/// Answers [`ANSWERED`]; [`NO_ROOM`] if and only if there aren't as many answers as calls; or [`NO_MEMORY`]. In the last two cases
/// nothing is written. What each kind of call answers is said at [`ListCall::kind`].
#[unsafe(no_mangle)]
pub extern "C" fn list_answers(alloc: Global, calls: &[ListCall], answers: &mut [i64]) -> u32
    ensures answered { (result ≡ 0) → (answers.new ≡ answers_of no_lists calls.now) }
    ensures ranges { (result == 1) ≡ not (length calls.now == length answers.old) }
    ensures stays { (result ≡ 0) ⊎ (answers.new ≡ answers.old) }
{
    if calls.len() != answers.len() {
        return NO_ROOM;
    }
    let Ok(mut lists) = HeldLists::new(alloc) else {
        return NO_MEMORY;
    };
    answer_all(&mut lists, calls, answers);
    ANSWERED
}
