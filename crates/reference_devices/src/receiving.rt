//! A received character: in each mode the first row that fits acts (book, chapter 15, `ttyhandle_in.c`).
//!
//! Each function answers how many items were committed.

ghost use Rattle.std.specs.Prelude.{◌≡◌, ◌++◌, [], List, IfOk, IfNone, IfSome, is_some, not, map, if◌then◌else◌};
ghost use Rattle.reference_devices.specs.Received.{came_to};
ghost use Rattle.xinu_base.specs.declared.console.Item.TheVariants.{Char, End};
ghost use Rattle.xinu_model.specs.Console.Receiving as receiving;
ghost use Rattle.xinu_model.specs.Console.Echo.{rung};
ghost use Rattle.xinu_model.specs.Console.Rows as model;

use crate::constants::{
    TY_BACKSP, TY_EOFCH, TY_IBUFLEN, TY_KILLCH, TY_NEWLINE, TY_RETURN, TY_STOPCH, TY_STRTCH,
};
use crate::echo::{echo, echo_byte, echo_erasing, ring};
use reference_state::Console;
use reference_tables::push;
use xinu_base::{Item, NoMemory, TtyMode};

/// A character is received.
pub(crate) fn receive(c: &mut Console, b: u8) -> Result<usize, NoMemory>
    ensures received { IfOk result (λ n. came_to c.new n ≡ receiving.received b c.old) }
{
    match mode_of(c) {
        TtyMode::Raw => receive_raw(c, b),
        TtyMode::Cbreak => receive_cbreak(c, newline_for_return(b)),
        TtyMode::Cooked => receive_cooked(c, newline_for_return(b)),
    }
}

// Raw mode: a character is an item, as it is, if there is room.
fn receive_raw(c: &mut Console, b: u8) -> Result<usize, NoMemory>
    ensures received { IfOk result (λ n. came_to c.new n ≡ model.by_rows model.raw_rows b c.old) }
{
    if is_full(c) {
        return Ok(0);
    }
    commit(c, Item::Char(b))
}

// Cbreak mode: a character is an item, and shows, if there is room.
fn receive_cbreak(c: &mut Console, b: u8) -> Result<usize, NoMemory>
    ensures received { IfOk result (λ n. came_to c.new n ≡ receiving.flowing model.cbreak_rows b c.old) }
{
    if flow(c, b) {
        return Ok(0);
    }
    take_byte(c, b)
}

// A byte is an item, and shows, if there is room.
fn take_byte(c: &mut Console, b: u8) -> Result<usize, NoMemory>
    ensures taken { IfOk result (λ n. came_to c.new n ≡ model.by_rows model.cbreak_rows b c.old) }
{
    if is_full(c) {
        ring(c)?;
        return Ok(0);
    }
    echo_byte(c, b)?;
    commit(c, Item::Char(b))
}

// Cooked mode: a character edits the line, joins it or ends it.
fn receive_cooked(c: &mut Console, b: u8) -> Result<usize, NoMemory>
    ensures received { IfOk result (λ n. came_to c.new n ≡ receiving.flowing model.cooked_rows b c.old) }
{
    if flow(c, b) {
        return Ok(0);
    }
    edit(c, b)
}

// The two characters that stop output and let it go on aren't input: whether this is one of them. Any other lets output go on.
fn flow(c: &mut Console, b: u8) -> bool
    ensures flows { (rows : List model.ConsoleRow) → receiving.flowing rows b c.old ≡
        (if result then model.commits_none c.new else model.by_rows rows b c.new) }
{
    if b == TY_STOPCH {
        c.is_held = true;
        return true;
    }
    c.is_held = false;
    b == TY_STRTCH
}

// What a character does to the line that is typed.
fn edit(c: &mut Console, b: u8) -> Result<usize, NoMemory>
    ensures edited { IfOk result (λ n. came_to c.new n ≡ model.by_rows model.cooked_rows b c.old) }
{
    if b == TY_BACKSP {
        return erase_if_some(c);
    }
    if b == TY_KILLCH {
        kill_line(c)?;
        return Ok(0);
    }
    if b == TY_NEWLINE {
        return end_line(c);
    }
    if b != TY_EOFCH {
        return type_byte(c, b);
    }
    if is_empty(c) {
        return end_input(c);
    }
    type_byte(c, b)
}

// A byte joins the line, if there is room for it and the newline that has to follow.
fn type_byte(c: &mut Console, b: u8) -> Result<usize, NoMemory>
    ensures typed { IfOk result (λ n. came_to c.new n ≡
        (if model.is_line_full c.old then model.commits_none (rung c.old) else model.commits_none (model.joined b c.old))) }
{
    if is_line_full(c) {
        ring(c)?;
        return Ok(0);
    }
    join(c, b)?;
    Ok(0)
}

// A backspace: the last byte leaves the line, and the screen. Nothing is done on an empty line.
fn erase_if_some(c: &mut Console) -> Result<usize, NoMemory>
    ensures erased { IfOk result (λ n. came_to c.new n ≡
        (if model.is_empty c.old then model.commits_none c.old else model.commits_none (model.erased c.old))) }
{
    let Some(b) = drop_last(c) else {
        return Ok(0);
    };
    echo_erasing(c, b)?;
    Ok(0)
}

// The last byte leaves the line. `None`, and nothing changes, if and only if it is empty.
fn drop_last(c: &mut Console) -> Option<u8>
    ensures empty { is_some result ≡ not (model.is_empty c.old) }
    ensures stays { IfNone result (c.new ≡ c.old) }
    ensures last { IfSome result (λ b. b ≡ model.last_or 0 c.old.line) }
    ensures line { IfSome result (λ _. c.new ≡ record c.old { line = model.without_last c.old.line }) }
{
    c.line.pop()
}

// The line is emptied.
fn kill_line(c: &mut Console) -> Result<(), NoMemory>
    ensures killed { IfOk result (λ _. c.new ≡ model.emptied c.old) }
{
    clear_line(c);
    echo(c, &[TY_RETURN, TY_NEWLINE])
}

// A newline: it joins the line, and the whole line is committed, if there is room.
fn end_line(c: &mut Console) -> Result<usize, NoMemory>
    ensures ended { IfOk result (λ n. came_to c.new n ≡
        (if model.is_full c.old then model.commits_none (rung c.old) else model.line_ended c.old)) }
{
    if is_full(c) {
        ring(c)?;
        return Ok(0);
    }
    join(c, TY_NEWLINE)?;
    commit_line(c)
}

// The end mark on an empty line is an item, if there is room.
fn end_input(c: &mut Console) -> Result<usize, NoMemory>
    ensures ended { IfOk result (λ n. came_to c.new n ≡
        (if model.is_full c.old then model.commits_none (rung c.old) else model.commits_item End c.old)) }
{
    if is_full(c) {
        ring(c)?;
        return Ok(0);
    }
    commit(c, Item::End)
}

// A byte joins the line, and shows on the screen.
fn join(c: &mut Console, b: u8) -> Result<(), NoMemory>
    ensures joined { IfOk result (λ _. c.new ≡ model.joined b c.old) }
{
    add_to_line(c, b)?;
    echo_byte(c, b)
}

// A byte joins the line.
fn add_to_line(c: &mut Console, b: u8) -> Result<(), NoMemory>
    ensures typed { IfOk result (λ _. c.new ≡ model.typed b c.old) }
{
    push(&mut c.line, b)
}

// The line holds nothing.
fn clear_line(c: &mut Console)
    ensures cleared { c.new ≡ record c.old { line = [] } }
{
    c.line.clear();
}

// An item is committed.
fn commit(c: &mut Console, x: Item) -> Result<usize, NoMemory>
    ensures committed { IfOk result (λ n. came_to c.new n ≡ model.commits_item x c.old) }
{
    push(&mut c.committed, x)?;
    Ok(1)
}

/// The whole line is committed.
pub(crate) fn commit_line(c: &mut Console) -> Result<usize, NoMemory>
    ensures committed { IfOk result (λ n. came_to c.new n ≡ model.commits_line c.old) }
{
    let n = c.line.len();
    add_chars(&mut c.committed, &c.line)?;
    c.line.clear();
    Ok(n)
}

// Each of these bytes is an item after those of a list.
fn add_chars(items: &mut Vec<Item>, bytes: &[u8]) -> Result<(), NoMemory>
    ensures added { IfOk result (λ _. items.new.items ≡ items.old.items ++ map Char bytes.now) }
{
    for b in bytes {
        push(items, Item::Char(*b))?;
    }
    Ok(())
}

// The mode.
fn mode_of(c: &Console) -> TtyMode
    ensures mode { result ≡ c.now.mode }
{
    c.mode
}

// Whether nothing is typed.
fn is_empty(c: &Console) -> bool
    ensures empty { result ≡ model.is_empty c.now }
{
    c.line.is_empty()
}

// Whether there is no room for an item.
fn is_full(c: &Console) -> bool
    ensures full { result ≡ model.is_full c.now }
{
    c.committed.len() + c.line.len() >= TY_IBUFLEN
}

// Whether there is no room for a byte of the line and the newline that has to follow it.
fn is_line_full(c: &Console) -> bool
    ensures full { result ≡ model.is_line_full c.now }
{
    c.committed.len() + c.line.len() >= TY_IBUFLEN - 1
}

// A carriage return is a newline.
fn newline_for_return(b: u8) -> u8
    ensures newline { result ≡ receiving.newline_for_return b }
{
    if b == TY_RETURN { TY_NEWLINE } else { b }
}
