//! The tables, ports, console and heap that the machine has before any image is loaded (book, chapter 22).

ghost use Rattle.std.specs.Prelude.{◌≡◌, ◌≤◌, ◌++◌, IfOk, replicate};
ghost use Rattle.xinu_model.specs.Boot as model;
ghost use Rattle.xinu_model.specs.Console.State as console;
ghost use Rattle.xinu_model.specs.Ports.Queues as ports;
ghost use Rattle.xinu_model.specs.Tables.{no_semaphore};

use reference_state::{Console, Heap, MessagePort};
use reference_tables::{Semaphore, Tables, no_process, push};
use std::alloc::Global;
use xinu_base::{NoMemory, Owner, Pid, Process, QUANTUM, RAM_SIZE, Sem, State, TtyMode};

// How many ports there are.
const PORTS: usize = 30;

/// The tables before any other process than the null process is made.
pub(crate) fn null_tables(alloc: Global) -> Result<Tables, NoMemory>
    ensures tables { IfOk result (λ t. t ≡ model.null_tables) }
{
    let semaphores = first_semaphores(alloc)?;
    let mut processes = [no_process(); 64];
    processes[0] = null_process();
    Ok(Tables {
        processes,
        messages: [None; 64],
        current: Pid::default(),
        quantum: QUANTUM,
        ready: Vec::new(alloc),
        semaphores,
        sleepers: Vec::new(alloc),
        ticks: 0,
        last_process: Pid::default(),
        last_semaphore: third(),
    })
}

// The null process.
fn null_process() -> Process
    ensures process { result ≡ model.null_process }
{
    Process {
        state: State::Current,
        name: *b"prnull\0\0\0\0\0\0\0\0\0",
        ..no_process()
    }
}

// The last of the kernel's semaphores.
fn third() -> Sem
    ensures semaphore { result ≡ 3 }
{
    Sem::from_word(3).unwrap()
}

// The semaphores at the start: four are the kernel's, for console input, console output, the callers of the raw disk and those of the file
// system.
#[tactic(auto, unfolding(xinu_model::specs::Boot::first_semaphores))]
fn first_semaphores(alloc: Global) -> Result<Vec<Semaphore>, NoMemory>
    ensures semaphores { IfOk result (λ l. l.items ≡ model.first_semaphores) }
{
    let mut list = Vec::new(alloc);
    push(&mut list, device_semaphore(alloc, 0))?;
    push(&mut list, device_semaphore(alloc, 64))?;
    push(&mut list, device_semaphore(alloc, 0))?;
    push(&mut list, device_semaphore(alloc, 0))?;
    push_unused(&mut list, alloc, 124)?;
    Ok(list)
}

// A semaphore of the kernel's, with n tokens.
fn device_semaphore(alloc: Global, tokens: u32) -> Semaphore
    requires most { tokens ≤ 2147483647 }
    ensures semaphore { result ≡ model.device_semaphore tokens }
{
    Semaphore {
        owner: Some(Owner::Device),
        tokens,
        waiters: Vec::new(alloc),
    }
}

// n semaphores more, which are free.
fn push_unused(list: &mut Vec<Semaphore>, alloc: Global, n: usize) -> Result<(), NoMemory>
    ensures pushed { IfOk result (λ _. list.new.items ≡ list.old.items ++ replicate n no_semaphore) }
{
    for _i in 0..n {
        push(list, unused(alloc))?;
    }
    Ok(())
}

// A semaphore that is free.
fn unused(alloc: Global) -> Semaphore
    ensures semaphore { result ≡ no_semaphore }
{
    Semaphore {
        owner: None,
        tokens: 0,
        waiters: Vec::new(alloc),
    }
}

/// The ports at the start: none is in use.
#[tactic(auto, unfolding(xinu_model::specs::Ports::Queues::first_ports))]
pub(crate) fn first_ports(alloc: Global) -> Result<Vec<MessagePort>, NoMemory>
    ensures ports { IfOk result (λ l. l.items ≡ ports.first_ports) }
{
    let mut list = Vec::new(alloc);
    for _i in 0..PORTS {
        push(
            &mut list,
            MessagePort {
                seq: 0,
                queue: None,
            },
        )?;
    }
    Ok(list)
}

/// The console at the start.
pub(crate) fn first_console(alloc: Global) -> Console
    ensures console { result ≡ console.first_console }
{
    Console {
        mode: TtyMode::Cooked,
        echoes: true,
        is_held: false,
        committed: Vec::new(alloc),
        line: Vec::new(alloc),
        output: Vec::new(alloc),
        echo: Vec::new(alloc),
    }
}

/// The heap from the lowest multiple of 8 that isn't below an address to the end of RAM, all of it free.
pub(crate) fn heap_behind(alloc: Global, end: u32) -> Result<Heap, NoMemory>
    requires in_ram { end ≤ 1048576 }
    ensures heap { IfOk result (λ h. h ≡ model.heap_behind end) }
{
    let low = 8 * end.div_ceil(8);
    let free = ((RAM_SIZE - low) / 8) as usize;
    match vec![in alloc; true; free] {
        Ok(cells) => Ok(Heap { low, cells }),
        Err(_) => Err(NoMemory),
    }
}
