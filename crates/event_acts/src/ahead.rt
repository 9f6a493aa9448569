//! What is kept of the state ahead of an event, by which the event is told from the state after it.

ghost use Rattle.std.specs.Prelude.{◌<◌, length};

use crate::instructions::next_word;
use crate::texts::name_length;
use arrayvec::ArrayVec;
use buffer_pools::Pools;
use file_server::{FileRequest, FileServer};
use kernel_state::KernelState;
use kernel_tables::KernelTables;
use ports::Ports;
use xinu_base::{Call, Owner, Pid, PoolId, Port, Process, Rest, Sem, State};

/// The word of the instruction that makes a call.
const ECALL: u32 = 0x73;

/// A semaphore.
#[derive(Clone, Copy)]
pub struct SemaphoreAhead {
    /// Whose it is, if it is in use.
    pub owner: Option<Owner>,
    /// Its tokens.
    pub tokens: u32,
    /// Whether its tokens order processes: a process made it, or it is that of a port's room.
    pub orders: bool,
}

/// A port.
#[derive(Clone, Copy)]
pub struct PortAhead {
    /// Its sequence number.
    pub seq: u32,
    /// How many messages wait in it.
    pub messages: usize,
}

/// A buffer pool.
#[derive(Clone, Copy)]
pub struct PoolAhead {
    /// How many of its buffers are free.
    pub free: u32,
    /// The one that is taken next.
    pub first: Option<u32>,
}

/// What is kept of the state ahead of an event.
#[derive(Drop)]
pub struct Ahead {
    /// Who is current.
    pub current: Pid,
    /// What is left of its call.
    pub rest: Rest,
    /// The call that it makes in its next step, if it makes one.
    pub call: Option<Call>,
    /// The address of its instruction, or of the call in which it goes on.
    pub place: u32,
    /// How many bytes of a name are loaded, if the call creates a process.
    pub name_length: u32,
    /// The processes, by number.
    pub processes: [Process; 64],
    /// The address of the next instruction of each.
    pub pcs: [u32; 64],
    /// Whether each holds a message.
    pub holds: [bool; 64],
    /// The semaphores, by number.
    pub semaphores: [SemaphoreAhead; 128],
    /// The ports, by number.
    pub ports: [PortAhead; 30],
    /// How many pools there are.
    pub count: usize,
    /// The pools, by number.
    pub pools: [PoolAhead; 20],
    /// How many bytes of the heap are free.
    pub heap: u32,
    /// The calls on files that are under way, in their order.
    pub calls: ArrayVec<FileRequest, 64>,
}

impl Ahead {
    /// What is kept of a state ahead of an event.
    pub fn of(k: &KernelState) -> Ahead {
        let current = k.tables.current();
        let rest = k.tables.rest();
        Ahead {
            current,
            rest,
            call: call_in(k),
            place: place_in(k),
            name_length: named_in(k),
            processes: processes_of(&k.tables),
            pcs: pcs_of(k),
            holds: holds_of(&k.tables),
            semaphores: semaphores_of(k),
            ports: ports_of(&k.ports),
            count: k.pools.count(),
            pools: pools_of(&k.pools),
            heap: k.heap.free_total(),
            calls: calls_of(&k.files),
        }
    }

    /// Who steps in a step; `None` if it is the null process.
    pub fn stepper(&self) -> Option<Pid> {
        if self.current.index() == 0 {
            None
        } else {
            Some(self.current)
        }
    }

    /// Whether the number of a process was free.
    pub fn is_free(&self, p: Pid) -> bool {
        matches!(self.processes[p.index()].state, State::Free)
    }
}

/// The call that the current process makes in its next step, if it makes one.
pub(crate) fn call_in(k: &KernelState) -> Option<Call> {
    let hart = &k.harts[k.tables.current().index()];
    if !k.tables.is_done() || next_word(hart, &k.ram) != Some(ECALL) {
        return None;
    }
    let regs = &hart.regs;
    Some(Call {
        number: regs[17],
        args: [regs[10], regs[11], regs[12], regs[13], regs[14], regs[15]],
    })
}

/// Where the current process is: at its instruction, or at the call in which it goes on.
pub(crate) fn place_in(k: &KernelState) -> u32 {
    let pc = k.harts[k.tables.current().index()].pc;
    if k.tables.is_done() {
        pc
    } else {
        pc.wrapping_sub(4)
    }
}

// How many bytes of the name of a new process the next call loads, if it creates one.
fn named_in(k: &KernelState) -> u32 {
    match call_in(k) {
        Some(call) if call.number == 2 => name_length(&k.ram, call.args[3]),
        _ => 0,
    }
}

// The processes.
fn processes_of(tables: &KernelTables) -> [Process; 64] {
    let mut processes = [*tables.process(Pid::at(0)); 64];
    for p in 1..64 {
        processes[p] = *tables.process(Pid::at(p));
    }
    processes
}

// Where they stand.
fn pcs_of(k: &KernelState) -> [u32; 64] {
    let mut pcs = [0; 64];
    for p in 0..64 {
        pcs[p] = k.harts[p].pc;
    }
    pcs
}

// Which of them hold a message.
fn holds_of(tables: &KernelTables) -> [bool; 64] {
    let mut holds = [false; 64];
    for p in 0..64 {
        holds[p] = tables.message_of(Pid::at(p)).is_some();
    }
    holds
}

// The semaphores.
fn semaphores_of(k: &KernelState) -> [SemaphoreAhead; 128] {
    let mut semaphores = [SemaphoreAhead {
        owner: None,
        tokens: 0,
        orders: false,
    }; 128];
    for sem in 0..128 {
        semaphores[sem] = semaphore_of(k, Sem::at(sem));
    }
    semaphores
}

/// What is kept of a semaphore.
pub fn semaphore_of(k: &KernelState, sem: Sem) -> SemaphoreAhead {
    let owner = k.tables.owner_of(sem);
    let orders = is_ordering(&owner, &k.ports, sem.index());
    SemaphoreAhead {
        owner,
        tokens: tokens_of(&k.tables, sem),
        orders,
    }
}

// The tokens of a semaphore.
fn tokens_of(tables: &KernelTables, sem: Sem) -> u32 {
    let count = tables.count_of(sem);
    if count > 0 { count as u32 } else { 0 }
}

// Whether the tokens of a semaphore order processes.
fn is_ordering(owner: &Option<Owner>, ports: &Ports, number: usize) -> bool {
    match owner {
        Some(Owner::Image) => true,
        Some(Owner::Port(q)) => is_room_of(ports, *q, number),
        _ => false,
    }
}

// Whether a semaphore is that of a port's room.
fn is_room_of(ports: &Ports, q: Port, number: usize) -> bool {
    let Some(head) = ports.head_of(q) else {
        return false;
    };
    let send = head.send;
    send.index() == number
}

// The ports.
fn ports_of(ports: &Ports) -> [PortAhead; 30] {
    let mut kept = [PortAhead {
        seq: 0,
        messages: 0,
    }; 30];
    for q in 0..30 {
        kept[q] = port_of(ports, Port::at(q));
    }
    kept
}

/// What is kept of a port.
pub fn port_of(ports: &Ports, q: Port) -> PortAhead {
    PortAhead {
        seq: ports.seq_of(q),
        messages: ports.messages_of(q).len(),
    }
}

// The pools.
fn pools_of(pools: &Pools) -> [PoolAhead; 20] {
    let mut kept = [PoolAhead {
        free: 0,
        first: None,
    }; 20];
    for i in 0..pools.count() {
        kept[i] = pool_of(pools, PoolId::at(i));
    }
    kept
}

// What is kept of a pool.
fn pool_of(pools: &Pools, i: PoolId) -> PoolAhead
    requires made { i < length pools.now }
{
    PoolAhead {
        free: pools.free_count(i),
        first: pools.free_at(i, 0),
    }
}

// The calls on files under way.
fn calls_of(files: &FileServer) -> ArrayVec<FileRequest, 64> {
    let mut calls = ArrayVec::new();
    for call in files.calls() {
        let _kept = calls.try_push(*call);
    }
    calls
}
