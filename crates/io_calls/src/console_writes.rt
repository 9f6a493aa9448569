//! Writes to the console, of a character (`putc`) and from RAM (`write`), and what is left of them (book, chapter 15, `ttyputc.c`,
//! `ttywrite.c`).
//!
//! Each byte is put by a token; a newline needs a second one, for its carriage return, except in raw mode.

ghost use Rattle.std.specs.Prelude.{◌≡◌, ◌≤◌, ◌+◌, ◌-◌, true};
ghost use Rattle.io_calls.specs.Consoles.{Begins, HasPlace};
ghost use Rattle.kernel_state.specs.Results.{came_to};
ghost use Rattle.xinu_base.specs.Constants.{OK};
ghost use Rattle.xinu_base.specs.declared.processes.Rest.TheVariants as rest;
ghost use Rattle.xinu_model.specs.Console.Putting as model;
ghost use Rattle.xinu_model.specs.Memory.{ram_size};
ghost use Rattle.xinu_model.specs.Semaphores.Calls.{answers};
ghost use Rattle.xinu_model.specs.Tables.{process_at};

use crate::console_tokens::{await_place, byte_at, put_byte, put_newline, resume_place};
use kernel_state::KernelState;
use xinu_base::{Next, RAM_SIZE, Rest, SYSERR, Span};

/// `putc`: a byte, for which the caller waits for room.
pub(crate) fn console_putc(k: &mut KernelState, b: u8) -> Next
    requires begins { Begins k.old.call }
    ensures putc { came_to k.new.call result ≡ model.console_putc b k.old.call.state }
    ensures image { k.new.image ≡ k.old.image }
{
    if await_place(k, Rest::TtyPut(b, false)) {
        put_char(k, b)
    } else {
        Next::Waits
    }
}

/// What is left of a `putc` once the caller was released: the byte, or the newline after its carriage return.
pub(crate) fn go_on_putc(k: &mut KernelState, b: u8, returned: bool) -> Next
    requires begins { Begins k.old.call }
    requires waits { (process_at k.old.call.state.tables k.old.call.state.tables.current).rest ≡ Rest.TtyPut b returned }
    ensures goes_on { came_to k.new.call result ≡ model.go_on_putc b returned k.old.call.state }
    ensures image { k.new.image ≡ k.old.image }
{
    resume_place(k);
    if returned {
        put_newline(k);
        return Next::Returns(0);
    }
    put_char(k, b)
}

// A byte, by the caller's token.
fn put_char(k: &mut KernelState, b: u8) -> Next
    requires place { HasPlace k.old.call }
    ensures puts { came_to k.new.call result ≡ model.put_byte b (rest.TtyPut b true) (answers OK) k.old.call.state }
    ensures image { k.new.image ≡ k.old.image }
{
    if put_byte(k, b, Rest::TtyPut(b, true)) {
        Next::Returns(0)
    } else {
        Next::Waits
    }
}

/// `write`: n bytes from an address. Refused if n is negative or the range isn't in RAM.
pub(crate) fn console_write(k: &mut KernelState, at: u32, n: i32) -> Next
    requires begins { Begins k.old.call }
    ensures write { came_to k.new.call result ≡ model.console_write at n k.old.call.state }
    ensures image { k.new.image ≡ k.old.image }
{
    if n < 0 {
        return Next::Returns(SYSERR);
    }
    let want = n as u32;
    if want > RAM_SIZE || at > RAM_SIZE - want {
        return Next::Returns(SYSERR);
    }
    writes(k, Span { at, done: 0, want })
}

/// What is left of a write once the caller was released: the byte for which it waited, or the newline after its carriage return, and
/// the rest.
pub(crate) fn go_on_write(k: &mut KernelState, part: Span, returned: bool) -> Next
    requires begins { Begins k.old.call }
    requires waits { (process_at k.old.call.state.tables k.old.call.state.tables.current).rest ≡ Rest.TtyWrite part returned }
    ensures goes_on { came_to k.new.call result ≡ model.go_on_write part returned k.old.call.state }
    ensures image { k.new.image ≡ k.old.image }
{
    resume_place(k);
    let left = Span {
        at: part.at,
        done: part.done + 1,
        want: part.want,
    };
    if returned {
        put_newline(k);
        return writes(k, left);
    }
    let b = byte_at(k, part.at + part.done);
    if put_byte(k, b, Rest::TtyWrite(part, true)) {
        writes(k, left)
    } else {
        Next::Waits
    }
}

// Writes what is left of a range.
fn writes(k: &mut KernelState, part: Span) -> Next
    requires begins { Begins k.old.call }
    requires order { part.done ≤ part.want }
    requires range { part.at + part.want ≤ ram_size }
    ensures writes { came_to k.new.call result ≡ model.writes (part.want - part.done) part.at part.done k.old.call.state }
    ensures image { k.new.image ≡ k.old.image }
{
    for done in part.done..part.want {
        let left = Span {
            at: part.at,
            done,
            want: part.want,
        };
        if !await_place(k, Rest::TtyWrite(left, false)) {
            return Next::Waits;
        }
        let b = byte_at(k, part.at + done);
        if !put_byte(k, b, Rest::TtyWrite(left, true)) {
            return Next::Waits;
        }
    }
    Next::Returns(part.want as i32)
}
