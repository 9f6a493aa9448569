//! The replies of an event: who gets one, and how it is written into the registers.
//!
//! It depends on registers and on the kernel's tables.

ghost use Rattle.std.specs.Prelude.{◌≡◌, ◌≤◌, ◌<◌, ◌+◌, ◌||◌, ◌++◌, [], true, if◌then◌else◌, length};
ghost use Rattle.arrayvec.specs.ArrayVec.{array_vec_len};
ghost use Rattle.kernel_state.specs.Released.{replies_to};
ghost use Rattle.kernel_state.specs.Results as results;
ghost use Rattle.kernel_state.specs.Results.{answer_so_far};
ghost use Rattle.kernel_tables.specs.Waking.{are_any};
ghost use Rattle.xinu_model.specs.Machine as model;
ghost use Rattle.xinu_model.specs.Tables.{process_at};

use arrayvec::ArrayVec;
use kernel_tables::KernelTables;
use xinu_base::{Hart, Next, Pid, Rest};

/// The replies of one event to released processes, in order.
pub type Replies = ArrayVec<(Pid, i32), 64>;

/// Writes the replies to released processes, and then the caller's.
pub fn write_all(harts: &mut [Hart; 64], replies: &[(Pid, i32)], answer: Option<Next>, caller: Pid)
    ensures written { harts.new ≡ model.with_replies (model.and_callers (answer_so_far answer) caller replies.now) harts.old }
{
    write_replies(harts, replies);
    if let Some(value) = value_of(answer) {
        write_reply(harts, caller, value);
    }
}

/// Whether there is to be a resched at the end of an event.
pub fn is_resched_due(owes_resched: bool, answer: Option<Next>) -> bool
    ensures due { result ≡ (owes_resched || model.is_off (answer_so_far answer)) }
{
    owes_resched || matches!(answer, Some(Next::Waits | Next::Gone))
}

/// Whether a resched is owed once these processes became ready, who go on by themselves.
pub fn owes_after(owes_resched: bool, released: &[Pid]) -> bool
    ensures owes { result ≡ (if are_any released.now then true else owes_resched) }
{
    owes_resched || !released.is_empty()
}

/// Keeps a reply of this value for each of these released processes whose call is complete, in their order. There are at most 64 of them,
/// and no reply was kept before.
pub fn answer_released(replies: &mut Replies, tables: &KernelTables, released: &[Pid], value: i32)
    requires none { replies.old.items ≡ [] }
    requires few { length released.now ≤ 64 }
    ensures replies { replies.new.items ≡ replies_to value released.now tables.now }
{
    for p in released {
        answer(replies, tables, *p, value);
    }
}

// Keeps a reply for `p`, if nothing is left of its call.
fn answer(replies: &mut Replies, tables: &KernelTables, p: Pid, value: i32)
    requires room { array_vec_len replies.old < 64 }
    ensures replies { replies.new.items ≡ replies.old.items ++ model.reply_at_unblock value p (process_at tables.now p).rest }
    ensures longer { array_vec_len replies.new ≤ array_vec_len replies.old + 1 }
{
    if matches!(tables.process(p).rest, Rest::Nothing) {
        replies.push((p, value));
    }
}

// Writes these replies, one after another.
fn write_replies(harts: &mut [Hart; 64], replies: &[(Pid, i32)])
    ensures written { harts.new ≡ model.with_replies replies.now harts.old }
{
    for reply in replies {
        write_reply(harts, reply.0, reply.1);
    }
}

// Writes a reply into register a0.
fn write_reply(harts: &mut [Hart; 64], p: Pid, value: i32)
    ensures written { harts.new ≡ model.with_reply harts.old (p, value) }
{
    harts[p.index()].regs[10] = value.cast_unsigned();
}

// The value that the caller is answered, if it is.
fn value_of(answer: Option<Next>) -> Option<i32>
    ensures value { result ≡ results.value_of (answer_so_far answer) }
{
    match answer {
        Some(Next::Returns(value)) => Some(value),
        _ => None,
    }
}
