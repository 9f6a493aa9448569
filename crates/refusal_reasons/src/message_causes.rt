//! Why the calls on messages are refused (book, chapter 8).

ghost use Rattle.std.specs.Prelude.{◌≡◌};
ghost use Rattle.refusal_reasons.specs.Causes.{first_reason};
ghost use Rattle.refusal_reasons.specs.Messages as specs;
ghost use Rattle.xinu_model.specs.Sound.State.{IsSound};

use crate::looks::message_of;
use crate::numbers::{is_minus_one_message, is_negative};
use crate::process_causes::no_process;
use crate::reasons::{Cause, Reason, first_of};
use kernel_state::{KernelState, signed};

/// `send`.
pub(crate) fn send(k: &KernelState, p: u32) -> Option<Reason>
    requires sound { IsSound k.now.call.state }
    ensures reason { result ≡ first_reason (specs.send_causes p k.now.call.state) }
{
    let holds = message_of(&k.tables, p).is_some();
    first_of(&[no_process(k, p), Cause::new(Reason::HoldsMessage, holds)])
}

// The caller's message is answered, and is -1.
fn message_told(k: &KernelState) -> Cause
    ensures cause { result ≡ specs.message_told k.now.call.state }
{
    let held = k.tables.message_of(k.tables.current());
    Cause::new(Reason::MessageIsMinusOne, is_minus_one_message(held))
}

/// `receive` and `recvclr`.
pub(crate) fn receive(k: &KernelState) -> Option<Reason>
    ensures reason { result ≡ first_reason (specs.receive_causes k.now.call.state) }
{
    first_of(&[message_told(k)])
}

/// `recvtime`.
pub(crate) fn recvtime(k: &KernelState, ticks: u32) -> Option<Reason>
    ensures reason { result ≡ first_reason (specs.recvtime_causes ticks k.now.call.state) }
{
    first_of(&[
        Cause::new(Reason::NegativeTime, is_negative(signed(ticks))),
        message_told(k),
    ])
}
