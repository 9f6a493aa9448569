//! Reads of the console, character by character (`getc`) and into RAM (`read`), and what is left of them (book, chapter 15, `ttygetc.c`,
//! `ttyread.c`).
//!
//! Each item is taken by a token. In cooked mode the end mark is the end of the input, and a read ends with its line.

ghost use Rattle.std.specs.Prelude.{◌≡◌, ◌<◌, ◌≤◌, ◌+◌, ◌-◌, IfNone};
ghost use Rattle.io_calls.specs.Consoles.{Begins, HasItem, unless_ended};
ghost use Rattle.kernel_state.specs.Results.{came_to};
ghost use Rattle.xinu_model.specs.Console.Taking as model;
ghost use Rattle.xinu_model.specs.Machine.{CallResult, Xinu};
ghost use Rattle.xinu_model.specs.Memory.{ram_size};
ghost use Rattle.xinu_model.specs.Tables.{process_at};

use crate::console_tokens::{await_item, input_tokens, resume_item, store};
use kernel_state::KernelState;
use tty_driver::{Item, TtyMode};
use xinu_base::{EOF, Next, RAM_SIZE, Rest, SYSERR, Span};

/// `getc`: the next item, for which the caller waits.
pub(crate) fn console_getc(k: &mut KernelState) -> Next
    requires begins { Begins k.old.call }
    ensures getc { came_to k.new.call result ≡ model.console_getc k.old.call.state }
    ensures image { k.new.image ≡ k.old.image }
{
    if await_item(k, Rest::TtyGet) {
        take_char(k)
    } else {
        Next::Waits
    }
}

/// What is left of a `getc` once the caller was released: its item.
pub(crate) fn go_on_getc(k: &mut KernelState) -> Next
    requires begins { Begins k.old.call }
    requires waits { (process_at k.old.call.state.tables k.old.call.state.tables.current).rest ≡ Rest.TtyGet }
    ensures goes_on { came_to k.new.call result ≡ model.go_on_getc k.old.call.state }
    ensures image { k.new.image ≡ k.old.image }
{
    resume_item(k);
    take_char(k)
}

// The first item, by the caller's token.
fn take_char(k: &mut KernelState) -> Next
    requires item { HasItem k.old.call }
    ensures taken { came_to k.new.call result ≡ model.take_next k.old.call.state }
    ensures image { k.new.image ≡ k.old.image }
{
    match k.tty.take() {
        Item::Char(b) => Next::Returns(i32::from(b)),
        Item::End => match k.tty.mode() {
            TtyMode::Cooked => Next::Returns(EOF),
            TtyMode::Raw | TtyMode::Cbreak => Next::Returns(4),
        },
    }
}

/// `read`: n bytes to an address; in cooked mode a read of no bytes answers 0, and outside it 0 stands for as many bytes as there are
/// tokens. Refused if n is negative or the range isn't in RAM.
pub(crate) fn console_read(k: &mut KernelState, at: u32, n: i32) -> Next
    requires begins { Begins k.old.call }
    ensures read { came_to k.new.call result ≡ model.console_read at n k.old.call.state }
    ensures image { k.new.image ≡ k.old.image }
{
    if n < 0 {
        return Next::Returns(SYSERR);
    }
    if n > 0 {
        return read_range(k, at, n as u32);
    }
    if k.tty.mode() == TtyMode::Cooked {
        return Next::Returns(0);
    }
    let tokens = input_tokens(k);
    read_range(k, at, tokens)
}

// Reads n bytes to an address. Refused if the range isn't in RAM.
fn read_range(k: &mut KernelState, at: u32, n: u32) -> Next
    requires begins { Begins k.old.call }
    ensures read { came_to k.new.call result ≡ model.read_range at n k.old.call.state }
    ensures image { k.new.image ≡ k.old.image }
{
    if n > RAM_SIZE || at > RAM_SIZE - n {
        return Next::Returns(SYSERR);
    }
    reads(
        k,
        Span {
            at,
            done: 0,
            want: n,
        },
    )
}

/// What is left of a read once the caller was released: the item for which it waited, and the rest.
pub(crate) fn go_on_read(k: &mut KernelState, part: Span) -> Next
    requires begins { Begins k.old.call }
    requires waits { (process_at k.old.call.state.tables k.old.call.state.tables.current).rest ≡ Rest.TtyRead part }
    ensures goes_on { came_to k.new.call result ≡ model.go_on_read part k.old.call.state }
    ensures image { k.new.image ≡ k.old.image }
{
    resume_item(k);
    match read_item(k, part.at, part.done) {
        Some(next) => next,
        None => reads(
            k,
            Span {
                at: part.at,
                done: part.done + 1,
                want: part.want,
            },
        ),
    }
}

// Reads what is left of a range.
fn reads(k: &mut KernelState, part: Span) -> Next
    requires begins { Begins k.old.call }
    requires order { part.done ≤ part.want }
    requires range { part.at + part.want ≤ ram_size }
    ensures reads { came_to k.new.call result ≡ model.reads (part.want - part.done) part.at part.done k.old.call.state }
    ensures image { k.new.image ≡ k.old.image }
{
    for done in part.done..part.want {
        let left = Span {
            at: part.at,
            done,
            want: part.want,
        };
        if !await_item(k, Rest::TtyRead(left)) {
            return Next::Waits;
        }
        if let Some(next) = read_item(k, part.at, done) {
            return next;
        }
    }
    Next::Returns(part.want as i32)
}

// The first item, by the caller's token, is stored after `done` others. The answer, if the read ends with it.
fn read_item(k: &mut KernelState, at: u32, done: u32) -> Option<Next>
    requires item { HasItem k.old.call }
    requires range { at + done < ram_size }
    ensures reads { (then_ : Xinu → CallResult) → model.read_next at done then_ k.old.call.state ≡ unless_ended result then_ k.new.call }
    ensures begins { IfNone result (Begins k.new.call) }
    ensures image { k.new.image ≡ k.old.image }
{
    let is_cooked = k.tty.mode() == TtyMode::Cooked;
    let byte = match k.tty.take() {
        Item::Char(b) => b,
        Item::End => {
            if is_cooked {
                return Some(Next::Returns(count_at_end(done)));
            }
            4
        }
    };
    store(k, at + done, byte);
    if is_cooked && byte == 10 {
        return Some(Next::Returns(done as i32 + 1));
    }
    None
}

// What a read answers that took the end mark after so many bytes.
fn count_at_end(done: u32) -> i32
    requires few { done < ram_size }
    ensures count { result ≡ model.count_at_end done }
{
    if done == 0 { EOF } else { done as i32 }
}
