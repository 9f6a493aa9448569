//! How semaphores were used for which processes wait.

use crate::lives::Lives;
use printed_runs::{Doing, Reader, Text, User};

/// Adds how the semaphore was used for which a process waits that does this: who took it last, and unless it is used as a lock who signalled it
/// last. Adds nothing if it waits for none that processes made.
pub(crate) fn add_usage(text: &mut Text, lives: &Lives, reader: &Reader, doing: Doing) {
    if let Some(usage) = reader.usage(doing) {
        add_taker(text, lives, usage.taker);
        if !usage.is_lock {
            add_signaller(text, lives, usage.signaller, usage.signals);
        }
    }
}

// Adds who took a semaphore last, if somebody did.
fn add_taker(text: &mut Text, lives: &Lives, taker: Option<User>) {
    if let Some(user) = taker {
        text.put("; ");
        if add_user(text, lives, user) {
            text.put(" took it last");
        } else {
            text.put(" took it last, and has ended");
        }
    }
}

// Adds how often a semaphore was signalled, and who did last.
fn add_signaller(text: &mut Text, lives: &Lives, signaller: Option<User>, signals: u32) {
    let Some(user) = signaller else {
        return text.put("; it was never signalled");
    };
    if signals == 1 {
        text.put("; it was signalled once, by ");
    } else {
        text.numbered("; it was signalled ", signals as u64);
        text.put(" times, last by ");
    }
    if !add_user(text, lives, user) {
        text.put(", which has ended");
    }
}

// Adds the number of a process, and its name unless another process has its number now. Whether it lives.
fn add_user(text: &mut Text, lives: &Lives, user: User) -> bool {
    let process = user.process.index();
    if user.is_past {
        text.numbered("an earlier process ", process as u64);
        return false;
    }
    lives.add_who(text, process);
    lives.doing(process).lives()
}
