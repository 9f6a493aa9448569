//! Bytes are put to the console, each by a token of a semaphore of the kernel's (book, chapter 15, `ttyputc.c`, `ttywrite.c`).

ghost use Rattle.std.specs.Prelude.{◌≡◌, ◌+◌, ◌≤◌, ◌<◌, IfOk, if◌then◌else◌, slice_index, true};
ghost use Rattle.reference_devices.specs.Steps.{writes_one};
ghost use Rattle.reference_state.specs.Answers.{came_to, IsStart};
ghost use Rattle.xinu_model.specs.Console.Putting as model;
ghost use Rattle.xinu_model.specs.Console.Taking.{console_of};
ghost use Rattle.xinu_base.specs.Constants.{OK};
ghost use Rattle.xinu_base.specs.declared.processes.Rest.TheVariants.{TtyPut};
ghost use Rattle.xinu_model.specs.Machine.{Xinu, CallResult, Waits};
ghost use Rattle.xinu_model.specs.Semaphores.Calls.{answers};
ghost use Rattle.xinu_model.specs.Sound.Console.{IsSpan};

use crate::constants::{TY_NEWLINE, TY_RETURN};
use crate::ranges::in_ram;
use reference_state::{Answer, Machine};
use reference_tables::push;
use xinu_base::{NoMemory, Rest, SYSERR, Span, TtyMode};

// The semaphore of the console's output: a token for each byte that there is room for.
const TY_OSEM: u32 = 1;

/// `putc`: a byte, for which the caller waits for room.
pub fn console_putc(m: &mut Machine, b: u8) -> Result<Answer, NoMemory>
    requires start { IsStart m.old }
    ensures putc { IfOk result (λ a. came_to m.new a ≡ model.console_putc b m.old.state) }
{
    if !m.await_token(TY_OSEM, Rest::TtyPut(b, false))? {
        return Ok(Answer::Waits);
    }
    put_last(m, b)
}

/// A `putc` goes on by the token that it waited for: the newline after its carriage return, or the byte.
pub fn go_on_putc(m: &mut Machine, b: u8, returned: bool) -> Result<Answer, NoMemory>
    requires start { IsStart m.old }
    ensures goes_on { IfOk result (λ a. came_to m.new a ≡ model.go_on_putc b returned m.old.state) }
{
    let message = m.held();
    m.goes_on(message)?;
    if returned {
        put(m, TY_NEWLINE)?;
        return Ok(Answer::Returns(0));
    }
    put_last(m, b)
}

/// `write`: n bytes from an address. Refused if n is negative or the range isn't in RAM.
pub fn console_write(m: &mut Machine, at: u32, n: i32) -> Result<Answer, NoMemory>
    requires start { IsStart m.old }
    ensures write { IfOk result (λ a. came_to m.new a ≡ model.console_write at n m.old.state) }
{
    if n < 0 || !in_ram(at, n as u32) {
        return Ok(Answer::Returns(SYSERR));
    }
    writes(m, n as u32, at, 0)
}

/// A write goes on by the token that it waited for.
pub fn go_on_write(m: &mut Machine, part: Span, returned: bool) -> Result<Answer, NoMemory>
    requires start { IsStart m.old }
    requires span { IsSpan part }
    ensures goes_on { IfOk result (λ a. came_to m.new a ≡ model.go_on_write part returned m.old.state) }
{
    let Span { at, done, want } = part;
    let b = byte_at(m, at + done);
    let message = m.held();
    m.goes_on(message)?;
    if returned {
        put(m, TY_NEWLINE)?;
    } else if !put_byte(m, b, Rest::TtyWrite(part, true))? {
        return Ok(Answer::Waits);
    }
    writes(m, want - (done + 1), at, done + 1)
}

// This many bytes more are written from an address, after those that are done; each is read from RAM as it, or its carriage return, is put.
fn writes(m: &mut Machine, left: u32, at: u32, done: u32) -> Result<Answer, NoMemory>
    requires start { IsStart m.old }
    requires within { at + done + left ≤ 1048576 }
    ensures writes { IfOk result (λ a. came_to m.new a ≡ model.writes left at done m.old.state) }
{
    let want = done + left;
    for i in done..want {
        if !write_next(m, Span { at, done: i, want })? {
            return Ok(Answer::Waits);
        }
    }
    Ok(Answer::Returns(want as i32))
}

// The next byte of a range is written, once there is a token, or two for a newline; whether the caller goes on.
fn write_next(m: &mut Machine, part: Span) -> Result<bool, NoMemory>
    requires start { IsStart m.old }
    requires span { IsSpan part }
    ensures writes { IfOk result (λ goes. (then_ : Xinu → CallResult) → writes_one part then_ m.old.state ≡
        (if goes then then_ m.new.state else record { call = m.new; answer = Waits })) }
    ensures start { IfOk result (λ _. IsStart m.new) }
{
    if !m.await_token(TY_OSEM, Rest::TtyWrite(part, false))? {
        return Ok(false);
    }
    let b = byte_at(m, part.at + part.done);
    put_byte(m, b, Rest::TtyWrite(part, true))
}

// A caller that has its token puts the byte of its `putc`.
fn put_last(m: &mut Machine, b: u8) -> Result<Answer, NoMemory>
    requires start { IsStart m.old }
    ensures put { IfOk result (λ a. came_to m.new a ≡ model.put_byte b (TtyPut b true) (answers OK) m.old.state) }
{
    if put_byte(m, b, Rest::TtyPut(b, true))? {
        Ok(Answer::Returns(0))
    } else {
        Ok(Answer::Waits)
    }
}

// A caller that has its token puts a byte. Before a newline the carriage return goes by this token, and the newline waits for another one,
// with this left of the call; whether the caller goes on.
fn put_byte(m: &mut Machine, b: u8, rest: Rest) -> Result<bool, NoMemory>
    requires start { IsStart m.old }
    ensures puts { IfOk result (λ goes. (then_ : Xinu → CallResult) → model.put_byte b rest then_ m.old.state ≡
        (if goes then then_ m.new.state else record { call = m.new; answer = Waits })) }
    ensures start { IfOk result (λ _. IsStart m.new) }
{
    if !needs_return(m, b) {
        put(m, b)?;
        return Ok(true);
    }
    put(m, TY_RETURN)?;
    if !m.await_token(TY_OSEM, rest)? {
        return Ok(false);
    }
    put(m, TY_NEWLINE)?;
    Ok(true)
}

// Whether a carriage return goes before a byte: before a newline, but in raw mode.
fn needs_return(m: &Machine, b: u8) -> bool
    ensures needs { result ≡ model.needs_return b (console_of m.now.state).mode }
{
    b == TY_NEWLINE && !matches!(m.console.mode, TtyMode::Raw)
}

// A byte is put.
fn put(m: &mut Machine, b: u8) -> Result<(), NoMemory>
    ensures put { IfOk result (λ _. m.new ≡ record m.old { state = model.put b m.old.state }) }
{
    push(&mut m.console.output, b)
}

// The byte at an address in RAM.
fn byte_at(m: &Machine, at: u32) -> u8
    requires within { at < 1048576 }
    ensures byte { result ≡ slice_index m.now.state.memory at }
{
    match m.memory.read8(at) {
        Some(b) => b,
        None => 0,
    }
}
