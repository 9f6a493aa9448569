//! Why a call that waited is refused as it goes on.

ghost use Rattle.std.specs.Prelude.{◌≡◌};
ghost use Rattle.event_laws.specs.Replies as replies;
ghost use Rattle.refusal_reasons.specs.Causes.{first_reason};
ghost use Rattle.refusal_reasons.specs.Later as specs;
ghost use Rattle.xinu_base.specs.declared.processes.Rest.TheVariants as rest;
ghost use Rattle.xinu_model.specs.Pools.Buffers.{pool_at};
ghost use Rattle.xinu_model.specs.Ports.Queues.{port_at, queued};
ghost use Rattle.xinu_model.specs.Tables.{process_at};

use crate::message_causes::receive;
use crate::numbers::{is_minus_one, is_minus_one_message};
use crate::reasons::{Cause, Reason, first_of};
use buffer_pools::Pools;
use kernel_state::KernelState;
use ports::Ports;
use xinu_base::{PoolId, Port, PortTicket, Rest};

/// Why the current process's call that waited is answered -1 as it goes on, in its next step. `None` if and only if it isn't; so it is if
/// nothing is left of a call.
pub fn later_reason_of(k: &KernelState) -> Option<Reason>
    ensures reason { result ≡ specs.later_reason (process_at k.now.call.state.tables k.now.call.state.tables.current).rest k.now.call.state }
{
    reason_of_rest(k, k.tables.rest())
}

// The same of what is left.
fn reason_of_rest(k: &KernelState, left: Rest) -> Option<Reason>
    ensures reason { result ≡ specs.later_reason left k.now.call.state }
{
    match left {
        Rest::Receive => receive(k),
        Rest::Timed => receive(k),
        Rest::SelfSuspend => suspended(k),
        Rest::GetBuf(i) => getting(k, i),
        Rest::PtSend(ticket, _) => first_of(&[renewed(k, ticket)]),
        Rest::PtRecv(ticket) => receiving(k, ticket),
        Rest::Disk(reply) => first_of(&[Cause::new(
            Reason::DiskRefused,
            is_minus_one_reply(reply),
        )]),
        _ => None,
    }
}

// The end of a self-suspension.
fn suspended(k: &KernelState) -> Option<Reason>
    ensures reason { result ≡ first_reason (specs.later_causes rest.SelfSuspend k.now.call.state) }
{
    let priority = k.tables.process(k.tables.current()).priority;
    first_of(&[Cause::new(Reason::PriorityIsMinusOne, is_minus_one(priority as i32))])
}

// A buffer of pool i.
fn getting(k: &KernelState, i: PoolId) -> Option<Reason>
    ensures reason { result ≡ first_reason (specs.later_causes (rest.GetBuf i) k.now.call.state) }
{
    first_of(&[Cause::new(Reason::NoFreeBuffer, has_no_free(&k.pools, i))])
}

// Whether no buffer of pool i is free.
#[tactic(auto, using(crate::proofs::Emptiness::empty_by_length))]
fn has_no_free(pools: &Pools, i: PoolId) -> bool
    ensures none { result ≡ specs.is_empty (pool_at pools.now i).free }
{
    if i.index() < pools.count() {
        pools.free_count(i) == 0
    } else {
        true
    }
}

// The port of a ticket was reset, deleted or made anew since.
fn renewed(k: &KernelState, ticket: PortTicket) -> Cause
    ensures cause { result ≡ specs.renewed ticket k.now.call.state }
{
    Cause::new(Reason::PortRenewed, k.ports.is_stale(ticket))
}

// A message from a port.
fn receiving(k: &KernelState, ticket: PortTicket) -> Option<Reason>
    ensures reason { result ≡ first_reason (specs.later_causes (rest.PtRecv ticket) k.now.call.state) }
{
    let empty = has_no_message(&k.ports, ticket.port);
    let told = is_minus_one_message(first_at(&k.ports, ticket.port));
    first_of(&[
        renewed(k, ticket),
        Cause::new(Reason::NoMessage, empty),
        Cause::new(Reason::MessageIsMinusOne, told),
    ])
}

// Whether a port has no message.
#[tactic(auto, using(crate::proofs::Emptiness::empty_by_length))]
fn has_no_message(ports: &Ports, q: Port) -> bool
    ensures none { result ≡ specs.is_empty (queued (port_at ports.now.ports q).queue) }
{
    ports.messages_of(q).as_slice().is_empty()
}

// The first message of a port.
fn first_at(ports: &Ports, q: Port) -> Option<u32>
    ensures first { result ≡ replies.first_of (queued (port_at ports.now.ports q).queue) }
{
    ports.messages_of(q).as_slice().first().copied()
}

// Whether a reply was kept, and is -1.
fn is_minus_one_reply(reply: Option<i32>) -> bool
    ensures minus_one { result ≡ specs.is_minus_one_reply reply }
{
    match reply {
        Some(reply) => is_minus_one(reply),
        None => false,
    }
}
