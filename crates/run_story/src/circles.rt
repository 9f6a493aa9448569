//! Processes that wait for each other.

ghost use Rattle.std.specs.Prelude.{◌≡◌, List, IfSome};
ghost use Rattle.printed_runs.specs.Semaphores.{Knows};
ghost use Rattle.printed_runs.specs.declared.notes.Note.{Note};
ghost use Rattle.run_story.specs.Holders.{Holds, IsHolder};

use crate::lives::Lives;
use printed_runs::{Doing, PROCESSES, Reader, Text, Usage, User};

/// The process that holds the lock for which a process waits, if that process still lives and can't go on.
fn next(lives: &Lives, reader: &Reader, p: usize) -> Option<usize> {
    let holder = holder(reader, lives.doing(p))?;
    let process = holder.process.index();
    let other = lives.doing(process);
    if holder.is_past || !other.lives() || other.is_ready() {
        return None;
    }
    Some(process)
}

/// Who holds the lock for which a process waits, if it waits for one that is held.
fn holder(reader: &Reader, doing: Doing) -> Option<User>
    ensures held { (said : List Note) → Knows said reader.now.usages → IfSome result (λ user. IsHolder said doing.number user) }
{
    match reader.usage(doing) {
        Some(usage) => holder_in(&usage),
        None => None,
    }
}

/// Who holds a lock, if it is one and is held.
fn holder_in(usage: &Usage) -> Option<User>
    ensures held { IfSome result (λ user. Holds usage.now user) }
{
    if usage.is_lock && usage.is_held {
        usage.taker
    } else {
        None
    }
}

/// Whether a process is the lowest of a circle: each waits for a lock that the next one holds.
fn is_lowest(lives: &Lives, reader: &Reader, p: usize) -> bool {
    let mut at = p;
    for _ in 0..PROCESSES {
        match next(lives, reader, at) {
            None => return false,
            Some(other) if other == p => return true,
            Some(other) if other < p => return false,
            Some(other) => at = other,
        }
    }
    false
}

/// Tells of each circle of waiting processes, a line each.
pub(crate) fn add_circles(text: &mut Text, lives: &Lives, reader: &Reader) {
    for p in 1..PROCESSES {
        if is_lowest(lives, reader, p) {
            add_circle(text, lives, reader, p);
        }
    }
}

// Tells of the circle whose lowest process this is.
fn add_circle(text: &mut Text, lives: &Lives, reader: &Reader, p: usize) {
    if next(lives, reader, p) == Some(p) {
        return add_alone(text, lives, p);
    }
    let mut at = p;
    for k in 0..PROCESSES {
        let Some(other) = next(lives, reader, at) else {
            return;
        };
        text.put(if k == 0 {
            "They wait in a circle: "
        } else {
            "; "
        });
        lives.add_who(text, at);
        text.put(" waits for ");
        lives.doing(at).add_word(text);
        text.put(", which ");
        lives.add_who(text, other);
        text.put(" took last");
        if other == p {
            return text.put(".\n");
        }
        at = other;
    }
}

// Tells of a process that waits for a lock that it holds itself.
fn add_alone(text: &mut Text, lives: &Lives, p: usize) {
    lives.add_who(text, p);
    text.put(" waits for ");
    lives.doing(p).add_word(text);
    text.put(", which it took itself and didn't signal.\n");
}
