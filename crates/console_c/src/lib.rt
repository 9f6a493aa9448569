//! The console for C: what it answers to a list of calls, one after another.
//!
//! So a program in C that has a console of its own notes the bytes that are typed, the calls on it and the bytes that it sends, and asks
//! what the proved console answers to them: the first answer that differs is the first mistake. `examples/console_in_c` has such a program.
//!
//! [`console_answers`] is the call, and `specs/Answers.antt` has what the console answers.
//!
//! The archive needs `rattle_alloc` and `rattle_dealloc`, which the toolchain's C library has.
#![tactic(auto)]

ghost use Rattle.std.specs.Prelude.{◌≡◌, ◌==◌, ◌⊎◌, not, length};
ghost use Rattle.console_c.specs.Answers.{answers_of};
ghost use Rattle.xinu_model.specs.Console.State.{first_console};

mod calls;

pub use calls::ConsoleCall;
use calls::answer_all;
use std::alloc::Global;
use tty_driver::Tty;

/// All calls were answered.
pub const ANSWERED: u32 = 0;
/// There aren't as many answers as calls.
pub const NO_ROOM: u32 = 1;
/// Out of memory.
pub const NO_MEMORY: u32 = 2;

/// Makes these calls, one after another, on a console in cooked mode with echo on, and writes what each answers.
///
/// There must be as many answers as calls. What each kind of call answers is said at [`ConsoleCall::kind`].
///
/// [`ANSWERED`] if all calls were answered. [`NO_ROOM`] if and only if there aren't as many answers as calls, and [`NO_MEMORY`] if memory
/// runs out; then nothing is written.
#[unsafe(no_mangle)]
pub extern "C" fn console_answers(alloc: Global, calls: &[ConsoleCall], answers: &mut [i64]) -> u32
    ensures answered { (result ≡ 0) → (answers.new ≡ answers_of first_console calls.now) }
    ensures ranges { (result == 1) ≡ not (length calls.now == length answers.old) }
    ensures stays { (result ≡ 0) ⊎ (answers.new ≡ answers.old) }
{
    if calls.len() != answers.len() {
        return NO_ROOM;
    }
    let Ok(mut tty) = Tty::new(alloc) else {
        return NO_MEMORY;
    };
    answer_all(&mut tty, calls, answers);
    ANSWERED
}
