//! The queue of a port: its messages, how many all ports hold, and whether the port of a call was renewed since (book, chapter 11).

ghost use Rattle.std.specs.Prelude.{◌≡◌, ◌≤◌, ◌++◌, ◌∷◌, [], IfOk, IfSome, MatchOption, Some, None, nat_le, length};
ghost use Rattle.reference_ports.specs.Heads.{is_other, queue_with};
ghost use Rattle.xinu_model.specs.Ports.Queues as model;

use reference_state::MessagePort;
use reference_tables::append;
use xinu_base::{NoMemory, PortTicket, Sem};

// The most messages that all ports hold together.
const MOST_NODES: usize = 100;

/// What a port in use has beside its messages.
#[derive(Clone, Copy)]
pub(crate) struct Head {
    /// How many messages it can hold, at most as many as the greatest count.
    pub(crate) first_count: u32,
    /// The semaphore of the room that is left.
    pub(crate) send: Sem,
    /// The semaphore of the messages.
    pub(crate) receive: Sem,
}

/// What a port has beside its messages. `None` if and only if it isn't in use.
pub(crate) fn head_of(port: &MessagePort) -> Option<Head>
    ensures head { MatchOption result (port.now.queue ≡ None) (λ h. port.now.queue ≡ Some (queue_with h (model.queued port.now.queue))) }
    ensures most { IfSome result (λ h. h.first_count ≤ 2147483647) }
{
    match &port.queue {
        None => None,
        Some(queue) => Some(Head {
            first_count: queue.first_count,
            send: queue.send,
            receive: queue.receive,
        }),
    }
}

/// The messages of a port go after those of a list.
pub(crate) fn add_messages(list: &mut Vec<u32>, port: &MessagePort) -> Result<(), NoMemory>
    ensures added { IfOk result (λ _. list.new.items ≡ list.old.items ++ model.queued port.now.queue) }
{
    match &port.queue {
        None => Ok(()),
        Some(queue) => append(list, &queue.messages),
    }
}

/// The first of a list of messages leaves it. `None` if and only if there is none.
pub(crate) fn take_first(list: &mut Vec<u32>) -> Option<u32>
    ensures first { MatchOption result (list.old.items ≡ []) (λ x. list.old.items ≡ x ∷ list.new.items) }
{
    if list.is_empty() {
        return None;
    }
    Some(list.remove(0))
}

/// Whether all ports together are full.
pub(crate) fn are_full(ports: &[MessagePort]) -> bool
    ensures full { result ≡ nat_le model.most_nodes (model.nodes ports.now) }
{
    let mut room = MOST_NODES;
    for port in ports {
        let n = size(port);
        if n >= room {
            return true;
        }
        room -= n;
    }
    false
}

// How many messages a port holds.
fn size(port: &MessagePort) -> usize
    ensures size { result ≡ length (model.queued port.now.queue) }
{
    match &port.queue {
        None => 0,
        Some(queue) => queue.messages.len(),
    }
}

/// Whether the port of a call was reset, deleted or made anew since the call began.
pub(crate) fn is_stale(ticket: &PortTicket, ports: &[MessagePort]) -> bool
    ensures stale { result ≡ model.is_stale ticket.now ports.now }
{
    match ports.get(ticket.port.index()) {
        Some(port) => changed_since(port, ticket.seq),
        None => true,
    }
}

// Whether a port isn't in use, or has another number.
fn changed_since(port: &MessagePort, seq: u32) -> bool
    ensures other { result ≡ is_other seq port.now }
{
    port.queue.is_none() || port.seq != seq
}
