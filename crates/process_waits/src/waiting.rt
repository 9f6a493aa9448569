//! What a process waits for: a semaphore, or a tick.

ghost use Rattle.std.specs.Prelude.{◌≡◌, ◌≤◌};
ghost use Rattle.process_waits.specs.Waiting as spec;

use kernel_tables::KernelTables;
use xinu_base::{Pid, Sem};

/// The semaphore on which a process waits. `None` if and only if it waits on none.
pub fn awaited(tables: &KernelTables, p: Pid) -> Option<Sem>
    ensures semaphore { result ≡ spec.awaited tables.now p }
{
    for number in 0..128 {
        let sem = Sem::at(number);
        if waits_on(tables, sem, p) {
            return Some(sem);
        }
    }
    None
}

// Whether a process waits on a semaphore.
fn waits_on(tables: &KernelTables, sem: Sem, p: Pid) -> bool
    ensures waits { result ≡ spec.waits_on tables.now sem p }
{
    let mut next = tables.first_waiter(sem);
    while let Some(waiter) = next {
        next = tables.waiter_after(sem, waiter);
        if waiter.index() == p.index() {
            return true;
        }
    }
    false
}

/// The tick at which a process wakes. `None` if and only if it isn't a sleeper. At most 1000000000 ticks have passed.
pub fn wake_of(tables: &KernelTables, p: Pid) -> Option<u32>
    requires few { tables.now.ticks ≤ 1000000000 }
    ensures wake { result ≡ spec.wake_in p tables.now.sleepers }
{
    let mut next = tables.first_sleeper();
    while let Some(sleeper) = next {
        if sleeper.0.index() == p.index() {
            return Some(sleeper.1);
        }
        next = tables.sleeper_after(sleeper.0, sleeper.1);
    }
    None
}
