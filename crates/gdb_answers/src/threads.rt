//! Processes as threads: that of process p has the number p + 1.

ghost use Rattle.std.specs.Prelude.{◌≡◌, ◌≤◌, ◌+◌, ◌∷◌, [], ◌++◌, IfOk, OnOk, not};
ghost use Rattle.gdb_answers.specs.Threads as spec;
ghost use Rattle.process_waits.specs.Waiting as waits;
ghost use Rattle.xinu_model.specs.Tables.{is_free, state_at};

use gdb_packets::push_hex;
use itoa::Buffer;
use kernel_tables::KernelTables;
use process_waits::{awaited, wake_of};
use std::alloc::{AllocError, Global};
use xinu_base::{Pid, State};

/// The process of a thread's number. `None` if and only if there is no thread of that number.
pub fn process_of(tables: &KernelTables, thread: u32) -> Option<Pid>
    ensures process { result ≡ spec.process_of tables.now thread }
{
    if thread == 0 || thread > 64 {
        return None;
    }
    let p = Pid::at(thread as usize - 1);
    if is_thread(tables, p) { Some(p) } else { None }
}

// Whether a process is a thread.
fn is_thread(tables: &KernelTables, p: Pid) -> bool
    ensures thread { result ≡ spec.is_thread tables.now p }
{
    if p.index() == 0 {
        tables.is_over()
    } else {
        is_left(tables, p)
    }
}

// Whether the number of a process isn't free.
fn is_left(tables: &KernelTables, p: Pid) -> bool
    ensures left { result ≡ not (is_free (state_at tables.now p)) }
{
    !matches!(tables.process(p).state, State::Free)
}

/// The current process; if that is the null process, the first other one that is left, or the null process if none is.
pub fn shown_process(tables: &KernelTables) -> Pid
    ensures shown { result ≡ spec.shown_process tables.now }
{
    let current = tables.current();
    if current.index() == 0 {
        first_left(tables)
    } else {
        current
    }
}

// The first process that is left besides the null process, or that.
fn first_left(tables: &KernelTables) -> Pid
    ensures first { result ≡ spec.first_left tables.now 1 63 }
{
    for number in 1..64 {
        let p = Pid::at(number);
        if is_left(tables, p) {
            return p;
        }
    }
    Pid::at(0)
}

/// The list of the threads.
///
/// # Errors
/// Out of memory.
pub(crate) fn thread_list(alloc: Global, tables: &KernelTables) -> Result<Vec<u8>, AllocError>
    requires few { tables.now.ticks ≤ 1000000000 }
    ensures list { IfOk result (λ text. text.items ≡ spec.thread_list tables.now) }
{
    let mut text = Vec::new(alloc);
    text.extend_from_slice(b"<?xml version='1.0'?><threads>")?;
    push_threads(&mut text, tables)?;
    text.extend_from_slice(b"</threads>")?;
    Ok(text)
}

// Appends the entries of all threads.
fn push_threads(text: &mut Vec<u8>, tables: &KernelTables) -> Result<(), AllocError>
    requires few { tables.now.ticks ≤ 1000000000 }
    ensures appended { OnOk result (text.new.items ≡ text.old.items ++ spec.threads_below tables.now 64) }
{
    for number in 0..64 {
        push_if_thread(text, tables, Pid::at(number))?;
    }
    Ok(())
}

// Appends the entry of a process, if it is a thread.
fn push_if_thread(text: &mut Vec<u8>, tables: &KernelTables, p: Pid) -> Result<(), AllocError>
    requires few { tables.now.ticks ≤ 1000000000 }
    ensures appended { OnOk result (text.new.items ≡ text.old.items ++ spec.entry_if (spec.is_thread tables.now p) tables.now p) }
{
    if is_thread(tables, p) {
        push_thread(text, tables, p)?;
    }
    Ok(())
}

// Appends the entry of a thread.
fn push_thread(text: &mut Vec<u8>, tables: &KernelTables, p: Pid) -> Result<(), AllocError>
    requires few { tables.now.ticks ≤ 1000000000 }
    ensures appended { OnOk result (text.new.items ≡ text.old.items ++ spec.thread_entry tables.now p) }
{
    text.extend_from_slice(b"<thread id='")?;
    push_hex(text, &thread_number(p))?;
    text.extend_from_slice(b"' name='")?;
    push_name(text, &tables.process(p).name)?;
    text.extend_from_slice(b"'>")?;
    push_doing(text, tables, p)?;
    text.extend_from_slice(b"</thread>")?;
    Ok(())
}

// The number of a process's thread, as a byte.
fn thread_number(p: Pid) -> [u8; 1]
    ensures number { result ≡ (p + 1) ∷ [] }
{
    [p.index() as u8 + 1]
}

/// The number of a process's thread, in two hexadecimal digits.
///
/// # Errors
/// Out of memory.
pub fn thread_text(alloc: Global, p: Pid) -> Result<Vec<u8>, AllocError>
    ensures text { IfOk result (λ text. text.items ≡ spec.thread_text p) }
{
    let mut text = Vec::new(alloc);
    push_hex(&mut text, &thread_number(p))?;
    Ok(text)
}

// Appends the bytes of a name that are shown.
fn push_name(text: &mut Vec<u8>, name: &[u8]) -> Result<(), AllocError>
    ensures appended { OnOk result (text.new.items ≡ text.old.items ++ spec.name_text name.now) }
{
    for byte in name {
        push_if_plain(text, *byte)?;
    }
    Ok(())
}

// Appends a byte of a name, if it is shown.
fn push_if_plain(text: &mut Vec<u8>, b: u8) -> Result<(), AllocError>
    ensures appended { OnOk result (text.new.items ≡ text.old.items ++ spec.plain_byte b) }
{
    if is_plain(b) {
        text.push(b)?;
    }
    Ok(())
}

// Whether a byte of a name is shown.
fn is_plain(b: u8) -> bool
    ensures plain { result ≡ spec.is_plain b }
{
    32 <= b && b <= 126 && !(b == b'&' || b == b'\'' || b == b'<' || b == b'>')
}

// Appends what a process is doing, and its priority.
fn push_doing(text: &mut Vec<u8>, tables: &KernelTables, p: Pid) -> Result<(), AllocError>
    requires few { tables.now.ticks ≤ 1000000000 }
    ensures appended { OnOk result (text.new.items ≡ text.old.items ++ spec.doing tables.now p) }
{
    push_state(text, tables, p)?;
    text.extend_from_slice(b", priority ")?;
    let mut digits = Buffer::new();
    text.extend_from_slice(digits.format(tables.process(p).priority).as_bytes())?;
    Ok(())
}

// Appends what a process is doing.
fn push_state(text: &mut Vec<u8>, tables: &KernelTables, p: Pid) -> Result<(), AllocError>
    requires few { tables.now.ticks ≤ 1000000000 }
    ensures appended { OnOk result (text.new.items ≡ text.old.items ++ spec.state_text tables.now p (state_at tables.now p)) }
{
    match tables.process(p).state {
        State::Free => text.extend_from_slice(b"free")?,
        State::Current => text.extend_from_slice(b"current")?,
        State::Ready => text.extend_from_slice(b"ready")?,
        State::Receiving => text.extend_from_slice(b"waiting for a message")?,
        State::Suspended => text.extend_from_slice(b"suspended")?,
        State::Sleeping => push_with_tick(text, b"asleep until tick ", tables, p)?,
        State::Waiting => push_with_semaphore(text, b"waiting for semaphore ", tables, p)?,
        State::Timed => push_with_tick(text, b"waiting for a message until tick ", tables, p)?,
    }
    Ok(())
}

// Appends words, and the tick at which a process wakes.
fn push_with_tick(
    text: &mut Vec<u8>,
    words: &[u8],
    tables: &KernelTables,
    p: Pid,
) -> Result<(), AllocError>
    requires few { tables.now.ticks ≤ 1000000000 }
    ensures appended { OnOk result (text.new.items ≡ text.old.items ++ (words.now ++ spec.number_text (waits.wake_in p tables.now.sleepers))) }
{
    text.extend_from_slice(words)?;
    push_number(text, wake_of(tables, p))?;
    Ok(())
}

// Appends words, and the number of the semaphore on which a process waits.
fn push_with_semaphore(
    text: &mut Vec<u8>,
    words: &[u8],
    tables: &KernelTables,
    p: Pid,
) -> Result<(), AllocError>
    ensures appended { OnOk result (text.new.items ≡ text.old.items ++ (words.now ++ spec.number_text (waits.awaited tables.now p))) }
{
    text.extend_from_slice(words)?;
    push_number(text, semaphore_number(tables, p))?;
    Ok(())
}

// The number of the semaphore on which a process waits.
fn semaphore_number(tables: &KernelTables, p: Pid) -> Option<u32>
    ensures number { result ≡ waits.awaited tables.now p }
{
    match awaited(tables, p) {
        Some(sem) => Some(sem.index() as u32),
        None => None,
    }
}

// Appends a number, if there is one.
fn push_number(text: &mut Vec<u8>, number: Option<u32>) -> Result<(), AllocError>
    ensures appended { OnOk result (text.new.items ≡ text.old.items ++ spec.number_text number) }
{
    match number {
        Some(number) => {
            let mut digits = Buffer::new();
            text.extend_from_slice(digits.format(number).as_bytes())?;
        }
        None => text.extend_from_slice(b"?")?,
    }
    Ok(())
}

/// Whether there is a thread of a number.
///
/// # Errors
/// Out of memory.
pub(crate) fn alive_text(
    alloc: Global,
    tables: &KernelTables,
    thread: u32,
) -> Result<Vec<u8>, AllocError>
    ensures text { IfOk result (λ text. text.items ≡ spec.alive_text tables.now thread) }
{
    match process_of(tables, thread) {
        Some(_) => Vec::from_slice(alloc, b"OK"),
        None => Vec::from_slice(alloc, b"E01"),
    }
}
