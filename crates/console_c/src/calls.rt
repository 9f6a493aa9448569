//! The calls on a console.

ghost use Rattle.std.specs.Prelude.{◌≡◌, length, if◌then◌else◌};
ghost use Rattle.console_c.specs.Answers.{answered, answers_of, controls, line_put, one_put, sent, taken};
ghost use Rattle.xinu_model.specs.Console.Putting.{needs_return};
ghost use Rattle.xinu_model.specs.Console.Taking.{char_of};
ghost use Rattle.xinu_model.specs.Console.Transmitting.{transmitted};

use tty_driver::{Item, Tty, TtyMode};

/// What is answered to a call that is refused.
const REFUSED: i64 = -1;

/// What is answered if the end mark is taken in cooked mode.
const END: i64 = -2;

/// The most bytes of output.
const OUTPUT: usize = 64;

/// A call on a console.
#[repr(C)]
#[derive(Clone, Copy)]
pub struct ConsoleCall {
    /// 0: the byte is typed; the answer is how many items it commits, each of which lets a reader go on.
    /// 1: the next item is taken; the answer is its byte, or -2 for the end mark in cooked mode; refused if there is none.
    /// 2: the byte is put, a newline after a carriage return but in raw mode; the answer is 0; refused if there is no room.
    /// 3: a byte is sent; the answer is the byte, and 256 more if it is of the output, which lets a writer go on; refused if none can be.
    /// 4: the control function of that number; the answer is how many items it commits, and of 4 how many can be taken; refused if
    /// there is no such function.
    /// Any other is refused, which is the answer -1.
    pub kind: u8,
    /// The byte, or the number of a control function. It isn't read if an item is taken or a byte is sent.
    pub byte: u8,
}

/// Makes the calls one after another, and writes what each answers.
pub(crate) fn answer_all(tty: &mut Tty, calls: &[ConsoleCall], answers: &mut [i64])
    requires same { length answers.old ≡ length calls.now }
    ensures answers { answers.new ≡ answers_of tty.old calls.now }
{
    for k in 0..calls.len() {
        answers[k] = answer(tty, calls[k]);
    }
}

// Makes a call.
fn answer(tty: &mut Tty, call: ConsoleCall) -> i64
    ensures answer { result ≡ (answered tty.old call).answer }
    ensures console { tty.new ≡ (answered tty.old call).console }
{
    match call.kind {
        0 => tty.receive(call.byte) as i64,
        1 => take(tty),
        2 => put(tty, call.byte),
        3 => send(tty),
        4 => control(tty, call.byte),
        _ => REFUSED,
    }
}

// Takes the next item.
fn take(tty: &mut Tty) -> i64
    ensures answer { result ≡ (taken tty.old.committed tty.old).answer }
    ensures console { tty.new ≡ (taken tty.old.committed tty.old).console }
{
    if tty.sizes().committed == 0 {
        return REFUSED;
    }
    let mode = tty.mode();
    let item = tty.take();
    char_of(mode, item)
}

// An item as it is answered.
fn char_of(mode: TtyMode, item: Item) -> i64
    ensures char { result ≡ char_of mode item }
{
    match item {
        Item::Char(b) => b as i64,
        Item::End if mode == TtyMode::Cooked => END,
        Item::End => 4,
    }
}

// Puts a byte, and a newline after its carriage return but in raw mode.
fn put(tty: &mut Tty, b: u8) -> i64
    ensures answer { result ≡ (if needs_return b tty.old.mode then line_put tty.old else one_put b tty.old).answer }
    ensures console { tty.new ≡ (if needs_return b tty.old.mode then line_put tty.old else one_put b tty.old).console }
{
    if b == b'\n' && tty.mode() != TtyMode::Raw {
        put_line(tty)
    } else {
        put_one(tty, b)
    }
}

// Puts a newline after its carriage return, if there is room for both.
fn put_line(tty: &mut Tty) -> i64
    ensures answer { result ≡ (line_put tty.old).answer }
    ensures console { tty.new ≡ (line_put tty.old).console }
{
    if tty.sizes().output + 1 >= OUTPUT {
        return REFUSED;
    }
    tty.put(b'\r');
    tty.put(b'\n');
    0
}

// Puts a byte, if there is room for it.
fn put_one(tty: &mut Tty, b: u8) -> i64
    ensures answer { result ≡ (one_put b tty.old).answer }
    ensures console { tty.new ≡ (one_put b tty.old).console }
{
    if tty.sizes().output >= OUTPUT {
        return REFUSED;
    }
    tty.put(b);
    0
}

// Sends a byte.
fn send(tty: &mut Tty) -> i64
    ensures answer { result ≡ (sent (transmitted tty.old) tty.old).answer }
    ensures console { tty.new ≡ (sent (transmitted tty.old) tty.old).console }
{
    match tty.transmit() {
        Some((b, true)) => 256 + b as i64,
        Some((b, false)) => b as i64,
        None => REFUSED,
    }
}

// Carries out a control function.
fn control(tty: &mut Tty, f: u8) -> i64
    ensures answer { result ≡ (controls f tty.old).answer }
    ensures console { tty.new ≡ (controls f tty.old).console }
{
    if f == 4 {
        return tty.sizes().committed as i64;
    }
    match tty.control(f as u32) {
        Some(count) => count as i64,
        None => REFUSED,
    }
}
