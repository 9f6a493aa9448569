//! What a call leads to: `wait`, which grants the token, `signal`, which gives it back, `semcreate`, `yield` and `sleepms`, and calls that only
//! answer.

ghost use Rattle.std.specs.Prelude.{◌≡◌, ◌<◌, length};
ghost use Rattle.program_logic.specs.PlaceCheck as places;

use crate::knowledge::{Facts, after_call, given, slot_of};
use crate::outline::{Lock, Place, follows};
use crate::values::{Slot, constant, is_constant, is_ticks, once_more, slot_entails};

fn wait_checks(lock: &Lock, table: &[Place], k: usize, held: bool, facts: &Facts) -> bool
    requires { k < length table.now }
    ensures { result ≡ places.wait_checks lock.now table.now k held facts.now }
{
    is_constant(slot_of(facts, 17), 18)
        && is_constant(slot_of(facts, 10), lock.sem)
        && !held
        && follows(
            table,
            true,
            k + 1,
            &after_call(facts, Slot::Known(lock.rule)),
        )
        && follows(table, false, k + 1, &given(facts, 10, constant(4294967295)))
}

fn signal_checks(lock: &Lock, table: &[Place], k: usize, held: bool, facts: &Facts) -> bool
    requires { k < length table.now }
    ensures { result ≡ places.signal_checks lock.now table.now k held facts.now }
{
    is_constant(slot_of(facts, 17), 19)
        && is_constant(slot_of(facts, 10), lock.sem)
        && held
        && slot_entails(facts.word, Slot::Known(once_more(lock.rule)))
        && follows(table, false, k + 1, &after_call(facts, Slot::Unknown))
}

fn create_checks(table: &[Place], k: usize, held: bool, facts: &Facts) -> bool
    requires { k < length table.now }
    ensures { result ≡ places.create_checks table.now k held facts.now }
{
    is_constant(slot_of(facts, 17), 14)
        && is_constant(slot_of(facts, 10), 1)
        && !held
        && follows(table, false, k + 1, &given(facts, 10, Slot::Unknown))
}

fn yield_checks(table: &[Place], k: usize, held: bool, facts: &Facts) -> bool
    requires { k < length table.now }
    ensures { result ≡ places.yield_checks table.now k held facts.now }
{
    is_constant(slot_of(facts, 17), 6)
        && follows(table, held, k + 1, &given(facts, 10, constant(0)))
}

fn sleep_checks(table: &[Place], k: usize, held: bool, facts: &Facts) -> bool
    requires { k < length table.now }
    ensures { result ≡ places.sleep_checks table.now k held facts.now }
{
    is_constant(slot_of(facts, 17), 26)
        && is_ticks(slot_of(facts, 10))
        && follows(table, held, k + 1, &given(facts, 10, constant(0)))
}

/// Whether it is known to be the number of a call that only answers: `getpid`, `getprio`, `semcount` or `clktime`.
pub fn only_answers(number: Slot) -> bool
    ensures { result ≡ places.only_answers number }
{
    is_constant(number, 1)
        || (is_constant(number, 8) || (is_constant(number, 17) || is_constant(number, 27)))
}

fn answer_checks(table: &[Place], k: usize, held: bool, facts: &Facts) -> bool
    requires { k < length table.now }
    ensures { result ≡ places.answer_checks table.now k held facts.now }
{
    only_answers(slot_of(facts, 17))
        && follows(table, held, k + 1, &given(facts, 10, Slot::Unknown))
}

// Whether it is one of these calls, and what is known where it leads is known there.
pub(crate) fn call_checks(lock: &Lock, table: &[Place], k: usize, held: bool, facts: &Facts) -> bool
    requires { k < length table.now }
    ensures { result ≡ places.call_checks lock.now table.now k held facts.now }
{
    wait_checks(lock, table, k, held, facts)
        || (signal_checks(lock, table, k, held, facts)
            || (create_checks(table, k, held, facts)
                || (yield_checks(table, k, held, facts)
                    || (sleep_checks(table, k, held, facts)
                        || answer_checks(table, k, held, facts)))))
}
