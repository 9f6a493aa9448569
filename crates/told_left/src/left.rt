//! The processes that are left in a state.

ghost use Rattle.std.specs.Prelude.{◌≡◌, ◌+◌, ◌++◌, ◌<◌, ◌≤◌, ℕ, List, IfOk, OnOk, map};
ghost use Rattle.told_left.specs.Awaited.{awaited_of};
ghost use Rattle.told_left.specs.Left.{AreTold, IsLeft, IsTold, left_head};
ghost use Rattle.told_left.specs.Lines.{left_line};
ghost use Rattle.told_left.specs.More.{more_text};
ghost use Rattle.told_left.specs.Names.{name_of};
ghost use Rattle.xinu_model.specs.Sound.State.{IsSound};
ghost use Rattle.xinu_model.specs.Tables.{state_at};

use crate::awaited::push_awaited;
use crate::lines::push_left;
use crate::more::push_more;
use crate::names::push_name;
use crate::whereabouts::push_whereabouts;
use kernel_state::KernelState;
use kernel_tables::KernelTables;
use printed_runs::Text;
use process_lives::{Life, Lives};
use run_story::Story;
use std::alloc::{AllocError, Global};
use xinu_base::{Pid, State};

/// The text that tells of each process that is left in a sound state but the null process what it does, since when, and where it is: each is told
/// once, in the order of their numbers. At most 1000000000 ticks have passed.
///
/// # Errors
/// Out of memory.
pub fn left_text(
    alloc: Global,
    files: &[Vec<u8>],
    k: &KernelState,
    lives: &Lives,
    story: &Story,
) -> Result<Vec<u8>, AllocError>
    requires sound { IsSound k.now.call.state }
    requires few { k.now.call.state.tables.ticks ≤ 1000000000 }
    ensures told { IfOk result (λ text. AreTold (map (λ v. v.items) files.now) k.now.call.state lives.now 63 text.items) }
{
    let mut told = Vec::new(alloc);
    for number in 0..63usize {
        push_process(alloc, &mut told, files, k, lives, story, number + 1)?;
    }
    Ok(told)
}

/// The head of the text of [`left_text`]: empty if nobody is left but the null process.
pub fn head_of(k: &KernelState) -> &'static str
    ensures head { result.now ≡ left_head k.now.call.state.tables }
{
    if k.tables.is_over() { "" } else { "Left:\n" }
}

// Appends what is told of a process: nothing if its number is free.
fn push_process(
    alloc: Global,
    told: &mut Vec<u8>,
    files: &[Vec<u8>],
    k: &KernelState,
    lives: &Lives,
    story: &Story,
    process: usize,
) -> Result<(), AllocError>
    requires below { process < 64 }
    requires sound { IsSound k.now.call.state }
    requires few { k.now.call.state.tables.ticks ≤ 1000000000 }
    ensures told { OnOk result ((text : List ℕ) × (IsTold (map (λ v. v.items) files.now) k.now.call.state lives.now process text × (told.new.items ≡ told.old.items ++ text))) }
{
    let text = process_text(alloc, files, k, lives, story, process)?;
    told.extend_from_slice(text.as_slice())
}

/// What is told of a process, whose number is below 64, in a sound state: nothing if its number is free. At most 1000000000 ticks have passed.
///
/// # Errors
/// Out of memory.
pub fn process_text(
    alloc: Global,
    files: &[Vec<u8>],
    k: &KernelState,
    lives: &Lives,
    story: &Story,
    process: usize,
) -> Result<Vec<u8>, AllocError>
    requires below { process < 64 }
    requires sound { IsSound k.now.call.state }
    requires few { k.now.call.state.tables.ticks ≤ 1000000000 }
    ensures told { IfOk result (λ text. IsTold (map (λ v. v.items) files.now) k.now.call.state lives.now process text.items) }
{
    let p = Pid::at(process);
    if matches!(state_of(k, p), State::Free) {
        return Ok(Vec::new(alloc));
    }
    line_and_place(alloc, files, k, lives, story, p)
}

// The line of a process that is left, and where it is.
fn line_and_place(
    alloc: Global,
    files: &[Vec<u8>],
    k: &KernelState,
    lives: &Lives,
    story: &Story,
    process: Pid,
) -> Result<Vec<u8>, AllocError>
    requires sound { IsSound k.now.call.state }
    requires few { k.now.call.state.tables.ticks ≤ 1000000000 }
    ensures left { IfOk result (λ text. IsLeft (map (λ v. v.items) files.now) k.now.call.state lives.now process text.items) }
{
    let life = lives.life(process);
    let more = more_in(alloc, &k.tables, process, &life, story)?;
    let mut told = Vec::new(alloc);
    push_line(alloc, &mut told, k, process, life.since, more.as_slice())?;
    push_whereabouts(&mut told, files, k, process)?;
    Ok(told)
}

// What else is told of a process.
fn more_in(
    alloc: Global,
    tables: &KernelTables,
    process: Pid,
    life: &Life,
    story: &Story,
) -> Result<Vec<u8>, AllocError>
    requires few { tables.now.ticks ≤ 1000000000 }
    ensures more { IfOk result (λ text. (usage : List ℕ) × (text.items ≡ more_text (state_at tables.now process) tables.now process life.now usage)) }
{
    let usage = usage_text(alloc, story, process)?;
    let mut text = Vec::new(alloc);
    push_more(&mut text, tables, process, life, usage.as_bytes())?;
    Ok(text)
}

// How the semaphore was used for which a process waits, if it waits for one that processes made.
fn usage_text(alloc: Global, story: &Story, process: Pid) -> Result<String, AllocError> {
    let mut text = Text::new(alloc);
    story.tell_usage(&mut text, process.index());
    text.whole()
}

// Appends the line of a process that is left, since this event, with what else is told.
fn push_line(
    alloc: Global,
    told: &mut Vec<u8>,
    k: &KernelState,
    process: Pid,
    since: u64,
    more: &[u8],
) -> Result<(), AllocError>
    ensures line { OnOk result (told.new.items ≡ told.old.items ++ (let t = k.now.call.state.tables in
        left_line process (state_at t process) (name_of t process) (awaited_of t process) since more.now)) }
{
    push_line_in(alloc, told, &k.tables, process, since, more)
}

// The same of tables.
fn push_line_in(
    alloc: Global,
    told: &mut Vec<u8>,
    tables: &KernelTables,
    process: Pid,
    since: u64,
    more: &[u8],
) -> Result<(), AllocError>
    ensures line { OnOk result (told.new.items ≡ told.old.items ++
        left_line process (state_at tables.now process) (name_of tables.now process) (awaited_of tables.now process) since more.now) }
{
    let name = name_in(alloc, tables, process)?;
    let awaited = awaited_in(alloc, tables, process)?;
    let state = tables.process(process).state;
    let number = process.index() as u32;
    push_left(
        told,
        number,
        state,
        name.as_slice(),
        awaited.as_slice(),
        since,
        more,
    )
}

// The name of a process, after a blank.
fn name_in(alloc: Global, tables: &KernelTables, process: Pid) -> Result<Vec<u8>, AllocError>
    ensures name { IfOk result (λ text. text.items ≡ name_of tables.now process) }
{
    let mut text = Vec::new(alloc);
    push_name(&mut text, &tables.process(process).name)?;
    Ok(text)
}

// What a process waits for.
fn awaited_in(alloc: Global, tables: &KernelTables, process: Pid) -> Result<Vec<u8>, AllocError>
    ensures awaited { IfOk result (λ text. text.items ≡ awaited_of tables.now process) }
{
    let mut text = Vec::new(alloc);
    push_awaited(&mut text, tables, process)?;
    Ok(text)
}

// The state of a process.
fn state_of(k: &KernelState, process: Pid) -> State
    ensures state { result ≡ state_at k.now.call.state.tables process }
{
    k.tables.process(process).state
}
