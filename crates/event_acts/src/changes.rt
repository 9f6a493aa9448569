//! What an event does to processes, semaphores and ports, by what is kept of the state ahead of it and the state after it.

use crate::ahead::{Ahead, SemaphoreAhead};
use kernel_state::{KernelState, signed};
use xinu_base::{Owner, Pid, Port, Sem, State};

/// Whether a process begins.
pub fn begins(ahead: &Ahead, k: &KernelState, p: Pid) -> bool {
    ahead.is_free(p) && !is_free(k, p)
}

/// Whether a process dies.
pub fn dies(ahead: &Ahead, k: &KernelState, p: Pid) -> bool {
    !ahead.is_free(p) && is_free(k, p)
}

/// Whether a process becomes ready that waited, slept or was suspended.
pub fn wakes(ahead: &Ahead, k: &KernelState, p: Pid) -> bool {
    is_stopped(ahead.processes[p.index()].state) && is_going(k.tables.process(p).state)
}

/// Whether a process takes the message that it held.
pub fn takes_message(ahead: &Ahead, k: &KernelState, p: Pid) -> bool {
    ahead.holds[p.index()] && k.tables.message_of(p).is_none() && !is_free(k, p)
}

/// Whether a message is put for a process.
pub fn is_sent(ahead: &Ahead, k: &KernelState, p: Pid) -> bool {
    !ahead.holds[p.index()] && k.tables.message_of(p).is_some()
}

/// Whether a port is made, reset or deleted.
pub fn is_renewed(ahead: &Ahead, k: &KernelState, q: Port) -> bool {
    ahead.ports[q.index()].seq != k.ports.seq_of(q)
}

/// Whether a semaphore is made, reset or deleted, by itself or with its port: its tokens are new ones.
pub fn is_remade(ahead: &Ahead, k: &KernelState, sem: Sem) -> bool {
    let was = &ahead.semaphores[sem.index()];
    was.owner.is_some() != k.tables.owner_of(sem).is_some()
        || resets(ahead, was, sem)
        || match was.owner {
            Some(Owner::Port(q)) => is_renewed(ahead, k, q),
            _ => false,
        }
}

// Whether the call is `semreset` of a semaphore, and isn't refused.
fn resets(ahead: &Ahead, was: &SemaphoreAhead, sem: Sem) -> bool {
    match ahead.call {
        Some(call) => {
            call.number == 16
                && call.args[0] as usize == sem.index()
                && matches!(was.owner, Some(Owner::Image))
                && signed(call.args[1]) >= 0
        }
        None => false,
    }
}

/// Of a call that names a process by its number and tells by a refusal that the number is free: the number, if it was free.
pub fn absent(ahead: &Ahead) -> Option<Pid> {
    let call = ahead.call?;
    let p = Pid::from_word(call.args[0])?;
    if matches!(call.number, 3 | 4 | 5 | 7 | 8 | 21) && ahead.is_free(p) {
        Some(p)
    } else {
        None
    }
}

// Whether the number of a process is free.
fn is_free(k: &KernelState, p: Pid) -> bool {
    matches!(k.tables.process(p).state, State::Free)
}

// Whether a process of this state waits, sleeps or is suspended.
fn is_stopped(state: State) -> bool {
    matches!(
        state,
        State::Receiving | State::Sleeping | State::Suspended | State::Waiting | State::Timed
    )
}

// Whether a process of this state runs or is ready.
fn is_going(state: State) -> bool {
    matches!(state, State::Current | State::Ready)
}
