//! The words for what a process waits for.

ghost use Rattle.std.specs.Prelude.{◌≡◌, ◌++◌, OnOk};
ghost use Rattle.std.specs.Fmt.{decimal};
ghost use Rattle.told_left.specs.Awaited as spec;
ghost use Rattle.xinu_model.specs.Tables.{semaphore_at};

use itoa::Buffer;
use kernel_tables::KernelTables;
use process_waits::awaited;
use std::alloc::AllocError;
use xinu_base::{Owner, Pid, Sem};

/// Appends the word for what a process waits for, if it waits on a semaphore.
pub(crate) fn push_awaited(
    told: &mut Vec<u8>,
    tables: &KernelTables,
    process: Pid,
) -> Result<(), AllocError>
    ensures awaited { OnOk result (told.new.items ≡ told.old.items ++ spec.awaited_of tables.now process) }
{
    match awaited(tables, process) {
        Some(sem) => push_semaphore(told, tables, sem),
        None => Ok(()),
    }
}

// Appends what a semaphore stands for.
fn push_semaphore(told: &mut Vec<u8>, tables: &KernelTables, sem: Sem) -> Result<(), AllocError>
    ensures semaphore { OnOk result (told.new.items ≡ told.old.items ++ spec.semaphore_text sem (semaphore_at tables.now sem).owner) }
{
    push_owned(told, sem.index() as u32, &tables.owner_of(sem))
}

// Appends what a semaphore with this number stands for, by whose it is.
fn push_owned(told: &mut Vec<u8>, sem: u32, owner: &Option<Owner>) -> Result<(), AllocError>
    ensures owned { OnOk result (told.new.items ≡ told.old.items ++ spec.semaphore_text sem owner.now) }
{
    match owner {
        Some(Owner::Pool(pool)) => push_numbered(told, "pool ", pool.index() as u32),
        Some(Owner::Port(port)) => push_numbered(told, "port ", port.index() as u32),
        Some(Owner::Device) => told.extend_from_slice(device_text(sem).as_bytes()),
        Some(Owner::Image) | None => push_numbered(told, "semaphore ", sem),
    }
}

// What a device's semaphore stands for.
fn device_text(sem: u32) -> &'static str
    ensures device { result.now ≡ spec.device_text sem }
{
    match sem {
        0 => "console input",
        1 => "room",
        2 => "disk",
        _ => "files",
    }
}

// Appends a word, and a number after it.
fn push_numbered(told: &mut Vec<u8>, word: &str, number: u32) -> Result<(), AllocError>
    ensures numbered { OnOk result (told.new.items ≡ told.old.items ++ (word.now ++ decimal number)) }
{
    let mut digits = Buffer::new();
    told.extend_from_slice(word.as_bytes())?;
    told.extend_from_slice(digits.format(number).as_bytes())
}
