//! Semaphores: tokens, and the processes that wait for one (book, chapter 7). The calls are `semcreate`, `semdelete`, `semreset`,
//! `semcount`, `wait`, `signal` and `signaln`.

ghost use Rattle.std.specs.Prelude.{◌≡◌, ◌≤◌, ◌+ℤ◌, IfOk, int_lt, is_ok, length, pos, true};
ghost use Rattle.reference_state.specs.Answers.{came_to, IsStart};
ghost use Rattle.xinu_model.specs.Machine.{with_tables};
ghost use Rattle.xinu_model.specs.Semaphores.Calls as model;
ghost use Rattle.xinu_model.specs.Semaphores.Counts.{count_of, make_semaphore, most_tokens, with_semaphore};
ghost use Rattle.xinu_model.specs.Tables.{no_semaphore, semaphore_at};

use reference_state::{Answer, Machine};
use xinu_base::{NoMemory, Owner, Rest, SYSERR, Sem};

// The greatest count of a semaphore.
const MOST_TOKENS: i64 = 2147483647;

/// Call 14: a new semaphore with this count. Refused if that is negative or no number is free.
pub fn semcreate(m: &mut Machine, n: i32) -> Result<Answer, NoMemory>
    requires start { IsStart m.old }
    ensures semcreate { IfOk result (λ a. came_to m.new a ≡ model.semcreate n m.old.state) }
    ensures answers { is_ok result ≡ true }
{
    if n < 0 {
        return Ok(Answer::Returns(SYSERR));
    }
    match m.free_semaphore() {
        None => Ok(Answer::Returns(SYSERR)),
        Some(sem) => {
            make(m, sem, n as u32);
            Ok(Answer::Returns(sem.index() as i32))
        }
    }
}

/// Call 15: the semaphore is given up, and all who wait on it are refused. Refused if it isn't a process's.
pub fn semdelete(m: &mut Machine, sem: u32) -> Result<Answer, NoMemory>
    requires start { IsStart m.old }
    ensures semdelete { IfOk result (λ a. came_to m.new a ≡ model.semdelete sem m.old.state) }
{
    if !m.is_good(sem) {
        return Ok(Answer::Returns(SYSERR));
    }
    m.emptied_with(SYSERR, sem)?;
    give_up(m, sem);
    Ok(Answer::Returns(0))
}

/// Call 16: all who wait go on, and the semaphore has this count. Refused if it isn't a process's or the count is negative.
pub fn semreset(m: &mut Machine, sem: u32, n: i32) -> Result<Answer, NoMemory>
    requires start { IsStart m.old }
    ensures semreset { IfOk result (λ a. came_to m.new a ≡ model.semreset sem n m.old.state) }
{
    if n < 0 || !m.is_good(sem) {
        return Ok(Answer::Returns(SYSERR));
    }
    m.emptied_with(0, sem)?;
    m.set_tokens(sem, n as u32);
    Ok(Answer::Returns(0))
}

/// Call 17: the count. Refused if the semaphore isn't a process's. At most 64 processes wait on it.
pub fn semcount(m: &Machine, sem: u32) -> Result<Answer, NoMemory>
    requires start { IsStart m.now }
    requires few { length (semaphore_at m.now.state.tables sem).waiters ≤ 64 }
    ensures semcount { IfOk result (λ a. came_to m.now a ≡ model.semcount sem m.now.state) }
    ensures answers { is_ok result ≡ true }
{
    if !m.is_good(sem) {
        return Ok(Answer::Returns(SYSERR));
    }
    Ok(Answer::Returns(m.count_of(sem) as i32))
}

/// Call 18: the caller takes a token, or waits for one. Refused if the semaphore isn't a process's.
pub fn wait(m: &mut Machine, sem: u32) -> Result<Answer, NoMemory>
    requires start { IsStart m.old }
    ensures wait { IfOk result (λ a. came_to m.new a ≡ model.wait sem m.old.state) }
{
    if !m.is_good(sem) {
        return Ok(Answer::Returns(SYSERR));
    }
    if m.await_token(sem, Rest::Nothing)? {
        Ok(Answer::Returns(0))
    } else {
        Ok(Answer::Waits)
    }
}

/// Call 19: one signal. Refused if the semaphore isn't a process's or its count is the greatest.
pub fn signal(m: &mut Machine, sem: u32) -> Result<Answer, NoMemory>
    requires start { IsStart m.old }
    ensures signal { IfOk result (λ a. came_to m.new a ≡ model.signal sem m.old.state) }
{
    if !m.is_good(sem) || m.count_of(sem) >= MOST_TOKENS {
        return Ok(Answer::Returns(SYSERR));
    }
    m.signalled(sem)?;
    Ok(Answer::Returns(0))
}

/// Call 20: n signals. Refused if the semaphore isn't a process's, n is negative or the count would pass the greatest.
pub fn signaln(m: &mut Machine, sem: u32, n: i32) -> Result<Answer, NoMemory>
    requires start { IsStart m.old }
    ensures signaln { IfOk result (λ a. came_to m.new a ≡ model.signaln sem n m.old.state) }
{
    if n < 0 || !m.is_good(sem) {
        return Ok(Answer::Returns(SYSERR));
    }
    if passes_most(m, sem, n as u32) {
        return Ok(Answer::Returns(SYSERR));
    }
    m.signalled_times(sem, n as u32)?;
    Ok(Answer::Returns(0))
}

// Whether the count would pass the greatest by n signals.
fn passes_most(m: &Machine, sem: u32, n: u32) -> bool
    ensures passes { result ≡ int_lt most_tokens (count_of (semaphore_at m.now.state.tables sem) +ℤ pos n) }
{
    m.count_of(sem) + i64::from(n) > MOST_TOKENS
}

// A process's semaphore is made, with n tokens.
fn make(m: &mut Machine, sem: Sem, n: u32)
    requires most { n ≤ 2147483647 }
    ensures made { m.new ≡ with_tables (make_semaphore sem Owner.Image n m.old.state.tables) m.old }
{
    m.tables.make_semaphore(sem, Owner::Image, n);
}

// A semaphore is given up.
fn give_up(m: &mut Machine, sem: u32)
    ensures given { m.new ≡ with_tables (with_semaphore sem no_semaphore m.old.state.tables) m.old }
{
    m.tables.free_semaphore_at(sem);
}
