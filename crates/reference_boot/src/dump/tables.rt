//! The lines of the tables: processes, the ready list, semaphores and the sleepers.

ghost use Rattle.std.specs.Prelude.{ℕ, ◌≡◌, ◌<◌, ◌≤◌, ◌++◌, ◌∷◌, [], IfOk, length, map, slice_index_or};
ghost use Rattle.reference_boot.specs.Few.{AreFewWaiters};
ghost use Rattle.xinu_base.specs.declared.lines.TranscriptLine.TheVariants as line;
ghost use Rattle.xinu_model.specs.Semaphores.Counts as counts;
ghost use Rattle.xinu_model.specs.Tables.{no_semaphore};
ghost use Rattle.xinu_model.specs.Text as model;

use reference_tables::{Semaphore, Tables, get_or, push};
use xinu_base::{NoMemory, Owner, Pid, Process, Sem, State, TranscriptLine};

/// The lines of the tables: the ticks and the quantum, the processes, the ready list, the semaphores and the sleepers.
pub(crate) fn push_tables(lines: &mut Vec<TranscriptLine>, t: &Tables) -> Result<(), NoMemory>
    requires few { AreFewWaiters t.now }
    ensures pushed { IfOk result (λ _. lines.new.items ≡
        (lines.old.items ++ line.Now t.now.ticks t.now.quantum ∷ []) ++ model.process_lines 0 t.now.processes t.now.messages
        ++ map model.ready_line t.now.ready ++ model.semaphore_lines 0 t.now.semaphores ++ map model.sleeper_line t.now.sleepers) }
{
    push(lines, TranscriptLine::Now(t.ticks, t.quantum))?;
    push_processes(lines, &t.processes, &t.messages)?;
    push_ready(lines, &t.ready)?;
    push_semaphores(lines, &t.semaphores)?;
    push_sleepers(lines, &t.sleepers)?;
    Ok(())
}

// The lines of the entries of the process table.
fn push_processes(
    lines: &mut Vec<TranscriptLine>,
    processes: &[Process; 64],
    messages: &[Option<u32>; 64],
) -> Result<(), NoMemory>
    ensures pushed { IfOk result (λ _. lines.new.items ≡ lines.old.items ++ model.process_lines 0 processes.now messages.now) }
{
    for (number, x) in processes.iter().enumerate() {
        push_process(lines, number, x, get_or(messages, number, None))?;
    }
    Ok(())
}

// The line of an entry of the process table, unless its number is free.
fn push_process(
    lines: &mut Vec<TranscriptLine>,
    number: usize,
    x: &Process,
    message: Option<u32>,
) -> Result<(), NoMemory>
    requires below { number < 64 }
    ensures pushed { IfOk result (λ _. lines.new.items ≡ lines.old.items ++ model.process_line number x.now message) }
{
    if let State::Free = x.state {
        return Ok(());
    }
    push(
        lines,
        TranscriptLine::Process {
            process: Pid::at(number),
            state: x.state,
            priority: x.priority,
            parent: x.parent,
            message,
            name: x.name,
        },
    )
}

// The lines of the ready list.
fn push_ready(lines: &mut Vec<TranscriptLine>, ready: &[(Pid, i16)]) -> Result<(), NoMemory>
    ensures pushed { IfOk result (λ _. lines.new.items ≡ lines.old.items ++ map model.ready_line ready.now) }
{
    for entry in ready {
        push_ready_entry(lines, *entry)?;
    }
    Ok(())
}

// The line of an entry of the ready list.
fn push_ready_entry(lines: &mut Vec<TranscriptLine>, entry: (Pid, i16)) -> Result<(), NoMemory>
    ensures pushed { IfOk result (λ _. lines.new.items ≡ lines.old.items ++ model.ready_line entry ∷ []) }
{
    push(lines, TranscriptLine::Ready(entry.0, entry.1))
}

// The lines of the sleepers.
fn push_sleepers(lines: &mut Vec<TranscriptLine>, sleepers: &[(Pid, u32)]) -> Result<(), NoMemory>
    ensures pushed { IfOk result (λ _. lines.new.items ≡ lines.old.items ++ map model.sleeper_line sleepers.now) }
{
    for entry in sleepers {
        push_sleeper(lines, *entry)?;
    }
    Ok(())
}

// The line of a sleeper.
fn push_sleeper(lines: &mut Vec<TranscriptLine>, entry: (Pid, u32)) -> Result<(), NoMemory>
    ensures pushed { IfOk result (λ _. lines.new.items ≡ lines.old.items ++ model.sleeper_line entry ∷ []) }
{
    push(lines, TranscriptLine::Sleeper(entry.0, entry.1))
}

// The lines of the semaphores that are shown, each before those who wait on it.
fn push_semaphores(
    lines: &mut Vec<TranscriptLine>,
    semaphores: &[Semaphore],
) -> Result<(), NoMemory>
    requires many { length semaphores.now ≤ 128 }
    requires few { (sem : ℕ) → length (slice_index_or semaphores.now sem no_semaphore).waiters ≤ 64 }
    ensures pushed { IfOk result (λ _. lines.new.items ≡ lines.old.items ++ model.semaphore_lines 0 semaphores.now) }
{
    for (number, x) in semaphores.iter().enumerate() {
        push_semaphore(lines, Sem::at(number), x)?;
    }
    Ok(())
}

// The lines of a semaphore and its waiters, if it is shown.
fn push_semaphore(lines: &mut Vec<TranscriptLine>, sem: Sem, x: &Semaphore) -> Result<(), NoMemory>
    requires few { length x.now.waiters ≤ 64 }
    ensures pushed { IfOk result (λ _. lines.new.items ≡ lines.old.items ++ model.semaphore_line sem x.now) }
{
    if !is_shown(x) {
        return Ok(());
    }
    push(lines, TranscriptLine::Semaphore(sem, count_of(x)))?;
    push_waiters(lines, sem, &x.waiters)?;
    Ok(())
}

// Whether a semaphore is shown: it is a process's own, or somebody waits on it.
fn is_shown(x: &Semaphore) -> bool
    ensures shown { result ≡ model.is_shown x.now }
{
    match x.owner {
        Some(Owner::Image) => true,
        _ => !x.waiters.is_empty(),
    }
}

// The count of a semaphore: its tokens less its waiters.
fn count_of(x: &Semaphore) -> i32
    requires few { length x.now.waiters ≤ 64 }
    ensures count { result ≡ counts.count_of x.now }
{
    (i64::from(x.tokens) - x.waiters.len() as i64) as i32
}

// The lines of those who wait on a semaphore.
fn push_waiters(lines: &mut Vec<TranscriptLine>, sem: Sem, waiters: &[Pid]) -> Result<(), NoMemory>
    ensures pushed { IfOk result (λ _. lines.new.items ≡ lines.old.items ++ map (line.Waiter sem) waiters.now) }
{
    for p in waiters {
        push(lines, TranscriptLine::Waiter(sem, *p))?;
    }
    Ok(())
}
