//! The calls on semaphores, 14 to 20 (book, chapter 7, `semcreate.c`, `semdelete.c`, `semreset.c`, `semcount.c`, `wait.c`, `signal.c`,
//! `signaln.c`).
//!
//! Each is the row of its number in the abstract machine's table. A word that names no semaphore that a process made is refused.

ghost use Rattle.std.specs.Prelude.{◌≡◌, ◌≢◌};
ghost use Rattle.kernel_state.specs.Results.{came_to, IsStart};
ghost use Rattle.xinu_model.specs.Semaphores.Calls as model;
ghost use Rattle.xinu_model.specs.Sound.Tables.{IsSoundTables};

use kernel_state::KernelState;
use semaphores::Signalled;
use xinu_base::{Next, Owner, Pid, Rest, SYSERR, Sem};

/// Call 14: a new semaphore with this count; its number. Refused if the count is negative or no number is free.
pub(crate) fn semcreate(k: &mut KernelState, count: i32) -> Next
    requires start { IsStart k.old.call }
    ensures semcreate { came_to k.new.call result ≡ model.semcreate count k.old.call.state }
    ensures image { k.new.image ≡ k.old.image }
{
    match k.tables.make_semaphore(Owner::Image, count) {
        Some(sem) => Next::Returns(sem.index() as i32),
        None => Next::Returns(SYSERR),
    }
}

/// Call 15: the semaphore is given up; all who wait on it are refused.
pub(crate) fn semdelete(k: &mut KernelState, word: u32) -> Next
    requires start { IsStart k.old.call }
    requires sound { IsSoundTables k.old.call.state.tables }
    ensures semdelete { came_to k.new.call result ≡ model.semdelete word k.old.call.state }
    ensures image { k.new.image ≡ k.old.image }
{
    let Some(sem) = k.tables.good_semaphore(word) else {
        return Next::Returns(SYSERR);
    };
    let released = k.tables.delete_semaphore(sem);
    k.release(released.as_slice(), SYSERR);
    Next::Returns(0)
}

/// Call 16: all who wait go on, and the semaphore has this count. Refused if the count is negative.
pub(crate) fn semreset(k: &mut KernelState, word: u32, count: i32) -> Next
    requires start { IsStart k.old.call }
    requires sound { IsSoundTables k.old.call.state.tables }
    ensures semreset { came_to k.new.call result ≡ model.semreset word count k.old.call.state }
    ensures image { k.new.image ≡ k.old.image }
{
    if count < 0 {
        return Next::Returns(SYSERR);
    }
    let Some(sem) = k.tables.good_semaphore(word) else {
        return Next::Returns(SYSERR);
    };
    let released = k.tables.reset_semaphore(sem, count);
    k.release(released.as_slice(), 0);
    Next::Returns(0)
}

/// Call 17: the count.
pub(crate) fn semcount(k: &KernelState, word: u32) -> Next
    requires start { IsStart k.now.call }
    ensures semcount { came_to k.now.call result ≡ model.semcount word k.now.call.state }
{
    match k.tables.good_semaphore(word) {
        Some(sem) => Next::Returns(k.tables.count_of(sem)),
        None => Next::Returns(SYSERR),
    }
}

/// Call 18: the caller takes a token, or waits for one.
pub(crate) fn wait(k: &mut KernelState, word: u32) -> Next
    requires start { IsStart k.old.call }
    requires sound { IsSoundTables k.old.call.state.tables }
    requires not_null { k.old.call.state.tables.current ≢ 0 }
    ensures wait { came_to k.new.call result ≡ model.wait word k.old.call.state }
    ensures image { k.new.image ≡ k.old.image }
{
    let Some(sem) = k.tables.good_semaphore(word) else {
        return Next::Returns(SYSERR);
    };
    if k.tables.wait(sem, Rest::Nothing) {
        Next::Returns(0)
    } else {
        Next::Waits
    }
}

/// Call 19: one signal. Refused if the count is the greatest.
pub(crate) fn signal(k: &mut KernelState, word: u32) -> Next
    requires start { IsStart k.old.call }
    ensures signal { came_to k.new.call result ≡ model.signal word k.old.call.state }
    ensures image { k.new.image ≡ k.old.image }
{
    let Some(sem) = k.tables.good_semaphore(word) else {
        return Next::Returns(SYSERR);
    };
    match k.tables.signal(sem) {
        Signalled::Full => Next::Returns(SYSERR),
        Signalled::Kept => Next::Returns(0),
        Signalled::Released(p) => {
            k.release(&[p], 0);
            Next::Returns(0)
        }
    }
}

/// Call 20: n signals. Refused if n is negative or the count would pass the greatest.
pub(crate) fn signaln(k: &mut KernelState, word: u32, n: i32) -> Next
    requires start { IsStart k.old.call }
    requires sound { IsSoundTables k.old.call.state.tables }
    ensures signaln { came_to k.new.call result ≡ model.signaln word n k.old.call.state }
    ensures image { k.new.image ≡ k.old.image }
{
    if n < 0 {
        return Next::Returns(SYSERR);
    }
    let Some(sem) = k.tables.good_semaphore(word) else {
        return Next::Returns(SYSERR);
    };
    if !k.tables.has_room(sem, n as u32) {
        return Next::Returns(SYSERR);
    }
    let released = k.tables.signaln(sem, n as u32);
    k.release(released.as_slice(), 0);
    Next::Returns(0)
}
