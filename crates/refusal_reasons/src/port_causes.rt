//! Why the calls on ports are refused (book, chapter 11).

ghost use Rattle.std.specs.Prelude.{◌≡◌, Option, length, nat_lt, option_map};
ghost use Rattle.event_laws.specs.Replies as replies;
ghost use Rattle.ports.specs.Table as table;
ghost use Rattle.refusal_reasons.specs.Causes.{first_reason};
ghost use Rattle.refusal_reasons.specs.Ports as specs;
ghost use Rattle.xinu_model.specs.Ports.Queues as model;
ghost use Rattle.xinu_model.specs.Ports.Queues.{PortQueue};
ghost use Rattle.xinu_model.specs.Sound.State.{IsSound};
ghost use Rattle.xinu_model.specs.Sound.Tables.{IsInside};

use crate::looks::{free_semaphores, has_token};
use crate::numbers::{is_minus_one_message, is_negative};
use crate::reasons::{Cause, Reason, first_of};
use kernel_state::{KernelState, signed};
use kernel_tables::KernelTables;
use ports::{PortHead, Ports};
use xinu_base::Port;

// The head of the port that a word names, if it is in use.
fn head_at(ports: &Ports, q: u32) -> Option<PortHead>
    requires many { length ports.now.ports ≡ 30 }
    ensures head { result ≡ option_map table.head_of (model.port_at ports.now.ports q).queue }
{
    match Port::from_word(q) {
        Some(q) => ports.head_of(q),
        None => None,
    }
}

// The first message of the port that a word names.
fn first_message(ports: &Ports, q: u32) -> Option<u32>
    requires many { length ports.now.ports ≡ 30 }
    ensures first { result ≡ replies.first_of (model.queued (model.port_at ports.now.ports q).queue) }
{
    match Port::from_word(q) {
        Some(q) => ports.messages_of(q).as_slice().first().copied(),
        None => None,
    }
}

// Whether a message can be received without waiting from the port of a head.
fn can_take(tables: &KernelTables, head: Option<PortHead>) -> bool
    requires inside { IsInside tables.now }
    ensures take { (queue : Option PortQueue) → head ≡ option_map table.head_of queue → result ≡ specs.can_take queue tables.now }
{
    match head {
        Some(head) => has_token(tables, head.receive),
        None => false,
    }
}

// No port in use has this number.
fn no_port(k: &KernelState, q: u32) -> Cause
    requires sound { IsSound k.now.call.state }
    ensures cause { result ≡ specs.no_port q k.now.call.state }
{
    Cause::new(Reason::NoPort, head_at(&k.ports, q).is_none())
}

// Whether all ports are in use.
fn has_no_free(ports: &Ports) -> bool
    requires many { length ports.now.ports ≡ 30 }
    ensures none { result ≡ nat_lt (specs.free_ports ports.now.ports) 1 }
{
    ports.place_free().is_none()
}

/// `ptcreate`.
pub(crate) fn ptcreate(k: &KernelState, room: u32) -> Option<Reason>
    requires sound { IsSound k.now.call.state }
    ensures reason { result ≡ first_reason (specs.ptcreate_causes room k.now.call.state) }
{
    first_of(&[
        Cause::new(Reason::NegativeCount, is_negative(signed(room))),
        Cause::new(Reason::NoFreePort, has_no_free(&k.ports)),
        Cause::new(Reason::NoTwoSemaphores, free_semaphores(&k.tables) < 2),
    ])
}

/// `ptdelete` and `ptreset`.
pub(crate) fn disposal(k: &KernelState, q: u32, how: u32) -> Option<Reason>
    requires sound { IsSound k.now.call.state }
    ensures reason { result ≡ first_reason (specs.disposal_causes q how k.now.call.state) }
{
    first_of(&[
        no_port(k, q),
        Cause::new(Reason::NoSuchDisposal, !(how <= 1)),
    ])
}

/// `ptsend`.
pub(crate) fn ptsend(k: &KernelState, q: u32) -> Option<Reason>
    requires sound { IsSound k.now.call.state }
    ensures reason { result ≡ first_reason (specs.ptsend_causes q k.now.call.state) }
{
    first_of(&[no_port(k, q)])
}

/// `ptrecv`.
pub(crate) fn ptrecv(k: &KernelState, q: u32) -> Option<Reason>
    requires sound { IsSound k.now.call.state }
    ensures reason { result ≡ first_reason (specs.ptrecv_causes q k.now.call.state) }
{
    let can = can_take(&k.tables, head_at(&k.ports, q));
    let told = is_minus_one_message(first_message(&k.ports, q));
    first_of(&[
        no_port(k, q),
        Cause::new(Reason::MessageIsMinusOne, can && told),
    ])
}
