//! The calls on the lists.

ghost use Rattle.std.specs.Prelude.{◌≡◌, ◌&&◌, ◌<◌, IfSome, length, nat_le, nat_lt, pos};
ghost use Rattle.lists_c.specs.Answers.{answered, answers_of, joined, key_or_none, may_join, number, passed, removed, woken};
ghost use Rattle.lists_c.specs.Held.{with_ready, with_sleeper, with_waiter};

use crate::lists::HeldLists;

/// What is answered to a call that is refused.
const REFUSED: i64 = -1;

/// The greatest priority, and the most ticks.
const MOST: u32 = 2_147_483_647;

/// A call on the lists.
#[repr(C)]
#[derive(Clone, Copy)]
pub struct ListCall {
    /// 0: the process becomes ready, and the key is its priority, at most 2147483647; the answer is 0.
    /// 1: the process waits; the answer is 0.
    /// 2: the process sleeps for so many ticks as the key says, 1 to 2147483647; the answer is 0.
    /// 3, 4: the first that is ready leaves its list, or that waits; the answer is its number.
    /// 5: the process leaves its list; the answer is 0.
    /// 6, 7: the answer is the priority of the first that is ready, or how many ticks are left to the first sleeper.
    /// 8: a tick passes; the answer is 0; refused while a sleeper is due.
    /// 9: the first sleeper wakes; the answer is its number; refused if none is due.
    /// A process from 0 to 999 joins a list if it is in none. What can't be done is refused, and so is any other call: the answer is -1.
    pub kind: u32,
    /// The process of a call that names one.
    pub process: u32,
    /// The priority or the ticks.
    pub key: u32,
}

/// Makes the calls one after another, and writes what each answers.
pub(crate) fn answer_all(lists: &mut HeldLists, calls: &[ListCall], answers: &mut [i64])
    requires same { length answers.old ≡ length calls.now }
    ensures answers { answers.new ≡ answers_of lists.old calls.now }
{
    for k in 0..calls.len() {
        answers[k] = answer(lists, calls[k]);
    }
}

// Makes a call.
fn answer(lists: &mut HeldLists, call: ListCall) -> i64
    ensures answer { result ≡ (answered lists.old call).answer }
    ensures lists { lists.new ≡ (answered lists.old call).lists }
{
    match call.kind {
        0 => make_ready(lists, call),
        1 => make_wait(lists, call),
        2 => make_sleep(lists, call),
        3 => number(lists.next_ready()),
        4 => number(lists.next_waiter()),
        5 => take_out(lists, call.process),
        6 => key_or_none(lists.first_priority()),
        7 => key_or_none(lists.first_delay()),
        8 => tick(lists),
        9 => wake(lists),
        _ => REFUSED,
    }
}

// Whether a process may join a list.
fn may_join(lists: &HeldLists, p: u32) -> bool
    ensures may { result ≡ may_join p lists.now }
{
    p < 1000 && !lists.is_held(p as usize)
}

// A process becomes ready, if it may.
fn make_ready(lists: &mut HeldLists, call: ListCall) -> i64
    ensures answer { result ≡ (joined (may_join call.process lists.old && nat_le call.key 2147483647) lists.old (with_ready call.process (pos call.key) lists.old)).answer }
    ensures lists { lists.new ≡ (joined (may_join call.process lists.old && nat_le call.key 2147483647) lists.old (with_ready call.process (pos call.key) lists.old)).lists }
{
    if !may_join(lists, call.process) || call.key > MOST {
        return REFUSED;
    }
    lists.insert(call.process as usize, call.key as i32);
    0
}

// A process waits, if it may.
fn make_wait(lists: &mut HeldLists, call: ListCall) -> i64
    ensures answer { result ≡ (joined (may_join call.process lists.old) lists.old (with_waiter call.process lists.old)).answer }
    ensures lists { lists.new ≡ (joined (may_join call.process lists.old) lists.old (with_waiter call.process lists.old)).lists }
{
    if !may_join(lists, call.process) {
        return REFUSED;
    }
    lists.enqueue(call.process as usize);
    0
}

// A process sleeps, if it may.
fn make_sleep(lists: &mut HeldLists, call: ListCall) -> i64
    ensures answer { result ≡ (joined (may_join call.process lists.old && (nat_lt 0 call.key && nat_le call.key 2147483647)) lists.old (with_sleeper call.process (pos call.key) lists.old)).answer }
    ensures lists { lists.new ≡ (joined (may_join call.process lists.old && (nat_lt 0 call.key && nat_le call.key 2147483647)) lists.old (with_sleeper call.process (pos call.key) lists.old)).lists }
{
    if !may_join(lists, call.process) || call.key == 0 || call.key > MOST {
        return REFUSED;
    }
    lists.insert_delay(call.process as usize, call.key as i32);
    0
}

// A process leaves its list, if it is in one.
fn take_out(lists: &mut HeldLists, p: u32) -> i64
    ensures answer { result ≡ (removed p lists.old).answer }
    ensures lists { lists.new ≡ (removed p lists.old).lists }
{
    if p >= 1000 || !lists.is_held(p as usize) {
        return REFUSED;
    }
    lists.remove(p as usize);
    0
}

// A tick passes, unless a sleeper is due.
fn tick(lists: &mut HeldLists) -> i64
    ensures answer { result ≡ (passed lists.old).answer }
    ensures lists { lists.new ≡ (passed lists.old).lists }
{
    if lists.is_due() {
        return REFUSED;
    }
    lists.tick();
    0
}

// The first sleeper wakes, if it is due.
fn wake(lists: &mut HeldLists) -> i64
    ensures answer { result ≡ (woken lists.old).answer }
    ensures lists { lists.new ≡ (woken lists.old).lists }
{
    if !lists.is_due() {
        return REFUSED;
    }
    let first = lists.next_sleeper();
    number(first)
}

// A process as it is answered.
fn number(p: Option<usize>) -> i64
    requires below { IfSome p (λ p. p < 1000) }
    ensures number { result ≡ number p }
{
    match p {
        Some(p) => p as i64,
        None => REFUSED,
    }
}

// A key as it is answered.
fn key_or_none(key: Option<i32>) -> i64
    ensures key { result ≡ key_or_none key }
{
    match key {
        Some(key) => key as i64,
        None => REFUSED,
    }
}
