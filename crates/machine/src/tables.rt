//! The tables of the machine, one line after another.

ghost use Rattle.std.specs.Prelude.{◌≡◌, ◌<◌, ◌≤◌, ◌+◌, ◌∷◌, ◌++◌, [], length, map};
ghost use Rattle.host_port.specs.Printing.{Prints};
ghost use Rattle.xinu_base.specs.declared.lines.TranscriptLine.TheVariants as line;
ghost use Rattle.xinu_model.specs.Files.Constants as files;
ghost use Rattle.xinu_model.specs.Files.Rest.{is_busy};
ghost use Rattle.xinu_model.specs.Files.Systems.{open_at};
ghost use Rattle.xinu_model.specs.Heap.Cells.{free_blocks};
ghost use Rattle.xinu_model.specs.Pools.Buffers.{pool_at};
ghost use Rattle.xinu_model.specs.Ports.Queues.{port_at};
ghost use Rattle.xinu_model.specs.Sound.State.{IsSound};
ghost use Rattle.xinu_model.specs.Sound.Tables.{IsInside};
ghost use Rattle.xinu_model.specs.Tables.{message_at, process_at, semaphore_at};
ghost use Rattle.xinu_model.specs.Text as text;
ghost use Rattle.xinu_model.specs.Text.{shown};

use crate::printing::print_line;
use buffer_pools::Pools;
use disk_driver::Disk;
use file_server::FileServer;
use freelist_memory::Heap;
use host_port::{Host, Printer};
use kernel_state::KernelState;
use kernel_tables::KernelTables;
use ports::Ports;
use tty_driver::Tty;
use xinu_base::{Dev, LFILE0, Owner, Pid, PoolId, Port, Sem, State, TranscriptLine};

/// Prints the tables.
pub(crate) fn print_tables<H: Host>(k: &KernelState, out: &mut Printer, host: &mut H)
    requires sound { IsSound k.now.call.state }
    requires few { k.now.call.state.tables.ticks ≤ 1000000000 }
    ensures prints { Prints out.old out.new (H.view host.old) (H.view host.new) (shown out.old.plain (text.tables_of k.now.call.state)) }
{
    let tables = &k.tables;
    print_line(
        &TranscriptLine::Now(tables.ticks(), tables.quantum()),
        out,
        host,
    );
    print_processes(tables, out, host);
    print_ready(tables, out, host);
    print_semaphores(tables, out, host);
    print_sleepers(tables, out, host);
    print_free(&k.heap, out, host);
    print_pools(&k.pools, out, host);
    print_ports(&k.ports, out, host);
    print_devices(&k.tty, &k.disk, &k.files, out, host);
}

// Prints the processes, by number.
fn print_processes<H: Host>(tables: &KernelTables, out: &mut Printer, host: &mut H)
    requires inside { IsInside tables.now }
    ensures prints { Prints out.old out.new (H.view host.old) (H.view host.new) (shown out.old.plain (text.process_lines 0 tables.now.processes tables.now.messages)) }
{
    for number in 0..64 {
        print_process(tables, number, out, host);
    }
}

// Prints the process of a number, unless the number is free.
fn print_process<H: Host>(tables: &KernelTables, number: usize, out: &mut Printer, host: &mut H)
    requires below { number < 64 }
    ensures prints { Prints out.old out.new (H.view host.old) (H.view host.new) (shown out.old.plain (text.process_line number (process_at tables.now number) (message_at tables.now number))) }
{
    let p = Pid::at(number);
    let process = tables.process(p);
    if !matches!(process.state, State::Free) {
        let line = TranscriptLine::Process {
            process: p,
            state: process.state,
            priority: process.priority,
            parent: process.parent,
            message: tables.message_of(p),
            name: process.name,
        };
        print_line(&line, out, host);
    }
}

// Prints the ready list.
fn print_ready<H: Host>(tables: &KernelTables, out: &mut Printer, host: &mut H)
    ensures prints { Prints out.old out.new (H.view host.old) (H.view host.new) (shown out.old.plain (map text.ready_line tables.now.ready)) }
{
    let mut next = tables.first_ready();
    while let Some(p) = next {
        print_line(
            &TranscriptLine::Ready(p, tables.process(p).priority),
            out,
            host,
        );
        next = tables.ready_after(p);
    }
}

// Prints the semaphores, by number.
fn print_semaphores<H: Host>(tables: &KernelTables, out: &mut Printer, host: &mut H)
    requires inside { IsInside tables.now }
    ensures prints { Prints out.old out.new (H.view host.old) (H.view host.new) (shown out.old.plain (text.semaphore_lines 0 tables.now.semaphores)) }
{
    for number in 0..128 {
        print_semaphore(tables, Sem::at(number), out, host);
    }
}

// Prints a semaphore and its waiters, if it is a process's own or somebody waits on it.
fn print_semaphore<H: Host>(tables: &KernelTables, sem: Sem, out: &mut Printer, host: &mut H)
    ensures prints { Prints out.old out.new (H.view host.old) (H.view host.new) (shown out.old.plain (text.semaphore_line sem (semaphore_at tables.now sem))) }
{
    if is_shown(tables, sem) {
        print_line(
            &TranscriptLine::Semaphore(sem, tables.count_of(sem)),
            out,
            host,
        );
        print_waiters(tables, sem, out, host);
    }
}

// Whether a semaphore is a process's own or somebody waits on it.
fn is_shown(tables: &KernelTables, sem: Sem) -> bool
    ensures shown { result ≡ text.is_shown (semaphore_at tables.now sem) }
{
    match tables.owner_of(sem) {
        Some(Owner::Image) => true,
        _ => tables.first_waiter(sem).is_some(),
    }
}

// Prints those who wait on a semaphore.
fn print_waiters<H: Host>(tables: &KernelTables, sem: Sem, out: &mut Printer, host: &mut H)
    ensures prints { Prints out.old out.new (H.view host.old) (H.view host.new) (shown out.old.plain (map (line.Waiter sem) (semaphore_at tables.now sem).waiters)) }
{
    let mut next = tables.first_waiter(sem);
    while let Some(p) = next {
        print_line(&TranscriptLine::Waiter(sem, p), out, host);
        next = tables.waiter_after(sem, p);
    }
}

// Prints the sleepers, each with the tick at which it wakes.
fn print_sleepers<H: Host>(tables: &KernelTables, out: &mut Printer, host: &mut H)
    requires few { tables.now.ticks ≤ 1000000000 }
    ensures prints { Prints out.old out.new (H.view host.old) (H.view host.new) (shown out.old.plain (map text.sleeper_line tables.now.sleepers)) }
{
    let mut next = tables.first_sleeper();
    while let Some(sleeper) = next {
        print_line(&TranscriptLine::Sleeper(sleeper.0, sleeper.1), out, host);
        next = tables.sleeper_after(sleeper.0, sleeper.1);
    }
}

// Prints the free blocks of the heap.
fn print_free<H: Host>(heap: &Heap, out: &mut Printer, host: &mut H)
    ensures prints { Prints out.old out.new (H.view host.old) (H.view host.new) (shown out.old.plain (map text.free_line (free_blocks heap.now))) }
{
    let mut next = heap.block_from(0);
    while let Some((address, bytes)) = next {
        print_line(&TranscriptLine::Free(address, bytes), out, host);
        next = heap.block_from(address + bytes);
    }
}

// Prints the buffer pools, by number.
fn print_pools<H: Host>(pools: &Pools, out: &mut Printer, host: &mut H)
    ensures prints { Prints out.old out.new (H.view host.old) (H.view host.new) (shown out.old.plain (text.pool_lines 0 pools.now)) }
{
    for number in 0..pools.count() {
        print_pool(pools, PoolId::at(number), out, host);
    }
}

// Prints a pool and its free buffers.
fn print_pool<H: Host>(pools: &Pools, pool: PoolId, out: &mut Printer, host: &mut H)
    requires made { pool < length pools.now }
    ensures prints { Prints out.old out.new (H.view host.old) (H.view host.new) (shown out.old.plain (text.pool_line pool (pool_at pools.now pool))) }
{
    let line = TranscriptLine::Pool {
        pool,
        size: pools.size_of(pool),
        free: pools.free_count(pool),
        held: pools.held(pool),
    };
    print_line(&line, out, host);
    print_buffers(pools, pool, out, host);
}

// Prints the free buffers of a pool, the one that was freed last first.
fn print_buffers<H: Host>(pools: &Pools, pool: PoolId, out: &mut Printer, host: &mut H)
    requires made { pool < length pools.now }
    ensures prints { Prints out.old out.new (H.view host.old) (H.view host.new) (shown out.old.plain (map (line.Buffer pool) (pool_at pools.now pool).free)) }
{
    for k in 0..pools.free_count(pool) {
        let address = pools.free_at(pool, k as usize).unwrap();
        print_line(&TranscriptLine::Buffer(pool, address), out, host);
    }
}

// Prints the ports, by number.
fn print_ports<H: Host>(ports: &Ports, out: &mut Printer, host: &mut H)
    requires many { length ports.now.ports ≡ 30 }
    ensures prints { Prints out.old out.new (H.view host.old) (H.view host.new) (shown out.old.plain (text.port_lines 0 ports.now.ports)) }
{
    for number in 0..30 {
        print_port(ports, Port::at(number), out, host);
    }
}

// Prints a port and its messages, if it is in use.
fn print_port<H: Host>(ports: &Ports, port: Port, out: &mut Printer, host: &mut H)
    ensures prints { Prints out.old out.new (H.view host.old) (H.view host.new)
        (shown out.old.plain (text.port_line port (port_at ports.now.ports port).seq (port_at ports.now.ports port).queue)) }
{
    if ports.head_of(port).is_none() {
        return;
    }
    let held = ports.messages_of(port);
    let messages = held.as_slice();
    let line = TranscriptLine::Port {
        port,
        seq: ports.seq_of(port),
        messages: messages.len() as u32,
    };
    print_line(&line, out, host);
    print_messages(port, messages, out, host);
}

// Prints the messages of a port, in order.
fn print_messages<H: Host>(port: Port, messages: &[u32], out: &mut Printer, host: &mut H)
    ensures prints { Prints out.old out.new (H.view host.old) (H.view host.new) (shown out.old.plain (map (line.Node port) messages.now)) }
{
    for message in messages {
        print_line(&TranscriptLine::Node(port, *message), out, host);
    }
}

// Prints the devices.
fn print_devices<H: Host>(
    tty: &Tty,
    disk: &Disk,
    server: &FileServer,
    out: &mut Printer,
    host: &mut H,
)
    requires six { length server.now.work.system.devices ≡ 6 }
    ensures prints { Prints out.old out.new (H.view host.old) (H.view host.new)
        (shown out.old.plain (text.console_line tty.now ∷ line.Disk0 (length disk.now.requests)
        ∷ text.open_file_lines files.LFILE0 server.now.work.system.devices server.now.work.system ++ line.Disk1 (is_busy server.now.work) ∷ [])) }
{
    print_console(tty, out, host);
    print_line(&TranscriptLine::Disk0(disk.pending() as u32), out, host);
    print_open_files(server, out, host);
    print_line(&TranscriptLine::Disk1(server.is_busy()), out, host);
}

// Prints the file devices that have a file open, by number.
fn print_open_files<H: Host>(server: &FileServer, out: &mut Printer, host: &mut H)
    requires six { length server.now.work.system.devices ≡ 6 }
    ensures prints { Prints out.old out.new (H.view host.old) (H.view host.new)
        (shown out.old.plain (text.open_file_lines files.LFILE0 server.now.work.system.devices server.now.work.system)) }
{
    for d in 0..6 {
        print_open_file(server, d, out, host);
    }
}

// Prints a file device, counted from the first one, if it has a file open.
fn print_open_file<H: Host>(server: &FileServer, d: usize, out: &mut Printer, host: &mut H)
    requires below { d < 6 }
    ensures prints { Prints out.old out.new (H.view host.old) (H.view host.new)
        (shown out.old.plain (text.open_file_line (files.LFILE0 + d) (open_at server.now.work.system d) server.now.work.system)) }
{
    if let Some((position, size)) = server.open_file(d) {
        let dev = Dev::at(LFILE0 as usize + d);
        print_line(&TranscriptLine::OpenFile(dev, position, size), out, host);
    }
}

// Prints the console: its mode, how much it holds, and whether output is held.
fn print_console<H: Host>(tty: &Tty, out: &mut Printer, host: &mut H)
    ensures prints { Prints out.old out.new (H.view host.old) (H.view host.new) (shown out.old.plain (text.console_line tty.now ∷ [])) }
{
    let sizes = tty.sizes();
    let line = TranscriptLine::Console {
        mode: tty.mode(),
        committed: sizes.committed as u32,
        line: sizes.line as u32,
        output: sizes.output as u32,
        echo: sizes.echo as u32,
        held: sizes.held,
    };
    print_line(&line, out, host);
}
