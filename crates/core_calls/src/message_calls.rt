//! The calls on messages, 21 to 24, and what is left of a receipt (book, chapter 8, `send.c`, `receive.c`, `recvclr.c`, `recvtime.c`).
//!
//! Each is the row of its number in the abstract machine's table.

ghost use Rattle.std.specs.Prelude.{◌≡◌, ◌≢◌};
ghost use Rattle.kernel_state.specs.Results.{came_to, IsStart};
ghost use Rattle.xinu_model.specs.Messages as model;
ghost use Rattle.xinu_model.specs.Sound.Tables.{IsSoundTables};
ghost use Rattle.xinu_model.specs.Tables.{state_at};

use kernel_state::KernelState;
use xinu_base::{Next, SYSERR, State, TIMEOUT};

/// Call 21: the process of this number is sent a word. Refused if there is none, or it holds a word.
pub(crate) fn send(k: &mut KernelState, word: u32, message: u32) -> Next
    requires start { IsStart k.old.call }
    ensures send { came_to k.new.call result ≡ model.send word message k.old.call.state }
    ensures image { k.new.image ≡ k.old.image }
{
    let Some(p) = k.tables.alive(word) else {
        return Next::Returns(SYSERR);
    };
    if k.tables.message_of(p).is_some() {
        return Next::Returns(SYSERR);
    }
    if k.tables.send_to(p, message) {
        k.owes_resched = true;
    }
    Next::Returns(0)
}

/// Call 22: the caller's message, for which it waits.
pub(crate) fn receive(k: &mut KernelState) -> Next
    requires start { IsStart k.old.call }
    requires sound { IsSoundTables k.old.call.state.tables }
    requires not_null { k.old.call.state.tables.current ≢ 0 }
    ensures receive { came_to k.new.call result ≡ model.receive k.old.call.state }
    ensures image { k.new.image ≡ k.old.image }
{
    match k.tables.take_message() {
        Some(message) => Next::Returns(message.cast_signed()),
        None => {
            k.tables.listen();
            Next::Waits
        }
    }
}

/// Call 23: the caller's message, or 0.
pub(crate) fn recvclr(k: &mut KernelState) -> Next
    requires start { IsStart k.old.call }
    requires sound { IsSoundTables k.old.call.state.tables }
    ensures recvclr { came_to k.new.call result ≡ model.recvclr k.old.call.state }
    ensures image { k.new.image ≡ k.old.image }
{
    match k.tables.take_message() {
        Some(message) => Next::Returns(message.cast_signed()),
        None => Next::Returns(0),
    }
}

/// Call 24: the caller's message, for which it waits so many ticks, at least one. Refused if that is negative.
pub(crate) fn recvtime(k: &mut KernelState, delay: i32) -> Next
    requires start { IsStart k.old.call }
    requires sound { IsSoundTables k.old.call.state.tables }
    requires not_null { k.old.call.state.tables.current ≢ 0 }
    ensures recvtime { came_to k.new.call result ≡ model.recvtime delay k.old.call.state }
    ensures image { k.new.image ≡ k.old.image }
{
    if delay < 0 {
        return Next::Returns(SYSERR);
    }
    match k.tables.take_message() {
        Some(message) => Next::Returns(message.cast_signed()),
        None => {
            k.tables.listen_for(delay.max(1));
            Next::Waits
        }
    }
}

/// What is left of a call that waited for a message: the message that came, or that the time ran out.
pub(crate) fn go_on_receive(k: &mut KernelState) -> Next
    requires start { IsStart k.old.call }
    requires runs { state_at k.old.call.state.tables k.old.call.state.tables.current ≡ State.Current }
    ensures received { came_to k.new.call result ≡ model.go_on_receive k.old.call.state }
    ensures image { k.new.image ≡ k.old.image }
{
    match k.tables.take_message() {
        Some(message) => Next::Returns(message.cast_signed()),
        None => {
            k.tables.go_on();
            Next::Returns(TIMEOUT)
        }
    }
}
