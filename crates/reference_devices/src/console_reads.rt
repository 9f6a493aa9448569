//! Items are taken from the console, each by a token of a semaphore of the kernel's (book, chapter 15, `ttygetc.c`, `ttyread.c`).

ghost use Rattle.std.specs.Prelude.{◌≡◌, ◌+◌, ◌≤◌, ◌<◌, ◌∷◌, [], IfOk, MatchOption, drop, length, pos};
ghost use Rattle.reference_devices.specs.Steps.{and_then};
ghost use Rattle.reference_state.specs.Answers.{came_to, IsStart};
ghost use Rattle.xinu_model.specs.Console.State as state;
ghost use Rattle.xinu_model.specs.Console.Taking as model;
ghost use Rattle.xinu_model.specs.Machine.{Xinu, CallResult};
ghost use Rattle.xinu_model.specs.Memory.{with_bytes};
ghost use Rattle.xinu_model.specs.Sound.Console.{IsSpan};

use crate::constants::{TY_EOFCH, TY_NEWLINE};
use crate::ranges::in_ram;
use reference_state::{Answer, Machine};
use xinu_base::{EOF, Item, NoMemory, Rest, SYSERR, Span, TtyMode};

// The semaphore of the console's input: a token for each item that can be taken.
const TY_ISEM: u32 = 0;

/// `getc`: the next item, for which the caller waits.
pub fn console_getc(m: &mut Machine) -> Result<Answer, NoMemory>
    requires start { IsStart m.old }
    ensures getc { IfOk result (λ a. came_to m.new a ≡ model.console_getc m.old.state) }
{
    if m.await_token(TY_ISEM, Rest::TtyGet)? {
        Ok(take_next(m))
    } else {
        Ok(Answer::Waits)
    }
}

/// A `getc` goes on by the token that it waited for.
pub fn go_on_getc(m: &mut Machine) -> Result<Answer, NoMemory>
    requires start { IsStart m.old }
    ensures goes_on { IfOk result (λ a. came_to m.new a ≡ model.go_on_getc m.old.state) }
{
    let message = m.held();
    m.goes_on(message)?;
    Ok(take_next(m))
}

/// `read`: n bytes to an address. Refused if n is negative or the range isn't in RAM.
pub fn console_read(m: &mut Machine, at: u32, n: i32) -> Result<Answer, NoMemory>
    requires start { IsStart m.old }
    ensures read { IfOk result (λ a. came_to m.new a ≡ model.console_read at n m.old.state) }
{
    if n < 0 {
        return Ok(Answer::Returns(SYSERR));
    }
    read_bytes(m, at, n as u32)
}

/// A read goes on by the token that it waited for.
pub fn go_on_read(m: &mut Machine, part: Span) -> Result<Answer, NoMemory>
    requires start { IsStart m.old }
    requires span { IsSpan part }
    ensures goes_on { IfOk result (λ a. came_to m.new a ≡ model.go_on_read part m.old.state) }
{
    let message = m.held();
    m.goes_on(message)?;
    let Span { at, done, want } = part;
    match read_next(m, at, done)? {
        Some(answer) => Ok(answer),
        None => reads(m, want - (done + 1), at, done + 1),
    }
}

// n bytes are read. In cooked mode a read ends with its line, and one of no bytes answers 0 wherever it is. Outside it, 0 stands for as
// many bytes as there are tokens.
fn read_bytes(m: &mut Machine, at: u32, n: u32) -> Result<Answer, NoMemory>
    requires start { IsStart m.old }
    ensures read { IfOk result (λ a. came_to m.new a ≡ model.console_read at (pos n) m.old.state) }
{
    if n > 0 {
        return read_range(m, at, n);
    }
    if is_cooked(m) {
        return Ok(Answer::Returns(0));
    }
    let tokens = m.tables.tokens_of(TY_ISEM);
    read_range(m, at, tokens)
}

// A read to a range that has to be in RAM.
fn read_range(m: &mut Machine, at: u32, n: u32) -> Result<Answer, NoMemory>
    requires start { IsStart m.old }
    ensures read { IfOk result (λ a. came_to m.new a ≡ model.read_range at n m.old.state) }
{
    if !in_ram(at, n) {
        return Ok(Answer::Returns(SYSERR));
    }
    reads(m, n, at, 0)
}

// This many bytes more are read to an address, after those that are done.
fn reads(m: &mut Machine, left: u32, at: u32, done: u32) -> Result<Answer, NoMemory>
    requires start { IsStart m.old }
    requires within { at + done + left ≤ 1048576 }
    ensures reads { IfOk result (λ a. came_to m.new a ≡ model.reads left at done m.old.state) }
{
    let want = done + left;
    for i in done..want {
        if !m.await_token(TY_ISEM, Rest::TtyRead(Span { at, done: i, want }))? {
            return Ok(Answer::Waits);
        }
        if let Some(answer) = read_next(m, at, i)? {
            return Ok(answer);
        }
    }
    Ok(Answer::Returns(want as i32))
}

// A caller that has its token takes an item, and stores it unless it is the end mark in cooked mode; the answer if the read ends there.
fn read_next(m: &mut Machine, at: u32, done: u32) -> Result<Option<Answer>, NoMemory>
    requires start { IsStart m.old }
    requires within { at + done + 1 ≤ 1048576 }
    ensures reads { IfOk result (λ r. (then_ : Xinu → CallResult) → model.read_next at done then_ m.old.state ≡ and_then r then_ m.new) }
    ensures start { IfOk result (λ _. IsStart m.new) }
{
    let is_cooked = is_cooked(m);
    let Some(x) = first_item(m) else {
        return Ok(Some(Answer::Silent));
    };
    drop_item(m);
    if is_cooked && is_end(x) {
        return Ok(Some(Answer::Returns(count_at_end(done))));
    }
    store(m, byte_of(x), at + done);
    if is_cooked && byte_of(x) == TY_NEWLINE {
        return Ok(Some(Answer::Returns((done + 1) as i32)));
    }
    Ok(None)
}

// A caller that has its token takes the next item.
fn take_next(m: &mut Machine) -> Answer
    requires start { IsStart m.old }
    ensures taken { came_to m.new result ≡ model.take_next m.old.state }
{
    let mode = mode_of(m);
    let Some(x) = first_item(m) else {
        return Answer::Silent;
    };
    drop_item(m);
    Answer::Returns(char_of(mode, x))
}

// The first item that can be taken.
fn first_item(m: &Machine) -> Option<Item>
    ensures first { MatchOption result ((model.console_of m.now.state).committed ≡ [])
        (λ x. (model.console_of m.now.state).committed ≡ x ∷ drop 1 (model.console_of m.now.state).committed) }
{
    m.console.committed.first().copied()
}

// The first item is taken.
fn drop_item(m: &mut Machine)
    requires some { 0 < length (model.console_of m.old.state).committed }
    ensures dropped { m.new ≡ record m.old { state = model.with_committed (drop 1 (model.console_of m.old.state).committed) m.old.state } }
{
    m.console.committed.remove(0);
}

// A byte is stored at an address.
fn store(m: &mut Machine, b: u8, at: u32)
    requires within { at + 1 ≤ 1048576 }
    ensures stored { m.new ≡ record m.old { state = record m.old.state { memory = with_bytes m.old.state.memory at 1 (b ∷ []) } } }
{
    let _ = m.memory.copy_in(at, &[b]);
}

/// Whether the console is in cooked mode.
pub(crate) fn is_cooked(m: &Machine) -> bool
    ensures cooked { result ≡ model.is_cooked (model.console_of m.now.state).mode }
{
    matches!(m.console.mode, TtyMode::Cooked)
}

// The console's mode.
fn mode_of(m: &Machine) -> TtyMode
    ensures mode { result ≡ (model.console_of m.now.state).mode }
{
    m.console.mode
}

// Whether an item is the end mark.
fn is_end(x: Item) -> bool
    ensures end { result ≡ model.is_end x }
{
    matches!(x, Item::End)
}

// An item as a byte.
fn byte_of(x: Item) -> u8
    ensures byte { result ≡ state.byte_of x }
{
    match x {
        Item::End => TY_EOFCH,
        Item::Char(b) => b,
    }
}

// An item as `getc` answers it: in cooked mode the end mark is the end of the input.
fn char_of(mode: TtyMode, x: Item) -> i32
    ensures char { result ≡ model.char_of mode x }
{
    if matches!(mode, TtyMode::Cooked) && is_end(x) {
        return EOF;
    }
    i32::from(byte_of(x))
}

// What a read answers that took the end mark: the end of the input if nothing came before it.
fn count_at_end(done: u32) -> i32
    requires few { done ≤ 1048576 }
    ensures count { result ≡ model.count_at_end done }
{
    if done == 0 { EOF } else { done as i32 }
}
