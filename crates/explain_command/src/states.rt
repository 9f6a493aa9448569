//! The state after some events: what the tables say of each process, and the lists, in words.

use machine::KernelState;
use printed_runs::{Text, number_of};
use run_story::Story;
use xinu_base::Pid;

/// Adds the priority of a process, and its message if it has one, on a line that the depth of its stack ends.
pub(crate) fn add_process(text: &mut Text, tables: &str, process: usize) {
    for line in tables.lines() {
        let mut words = line.split_whitespace();
        if words.next() == Some("proc") && number_of(words.next()) as usize == process {
            text.put("      priority ");
            text.put(words.nth(1).unwrap_or(""));
            let message = words.nth(1).unwrap_or("-");
            if message != "-" {
                text.put(", message ");
                text.put(message);
            }
        }
    }
}

/// Adds how deep the stack of a process is, or that its stack pointer lies outside of it.
pub(crate) fn add_stack(text: &mut Text, k: &KernelState, process: Pid) {
    let entry = k.tables.process(process);
    let top = entry.stack.saturating_add(4);
    let low = top.saturating_sub(entry.stack_size);
    let sp = k.harts[process.index()].regs[2];
    if low <= sp && sp <= top {
        text.numbered(", stack ", top.saturating_sub(sp) as u64);
        text.numbered(" of ", entry.stack_size as u64);
    } else {
        text.numbered(", sp outside its stack of ", entry.stack_size as u64);
    }
    text.put(" bytes\n");
}

/// Adds the lists of a state: who is ready, the semaphores with their waiters, the sleepers, ports, pools and disks.
pub(crate) fn add_lists(text: &mut Text, story: &Story, tables: &str) {
    for line in tables.lines() {
        let mut words = line.split_whitespace();
        let kind = words.next().unwrap_or("");
        let first = words.next().unwrap_or("");
        let second = words.next().unwrap_or("");
        let third = words.next().unwrap_or("");
        match kind {
            "ready" => {
                add_named(text, "ready: ", story, first);
                add_word(text, ", key ", second);
            }
            "sem" => {
                add_word(text, "semaphore ", first);
                add_word(text, ": count ", second);
            }
            "wait" => {
                add_word(text, "on semaphore ", first);
                add_named(text, " waits ", story, second);
            }
            "sleep" => {
                add_named(text, "sleeps: ", story, first);
                add_word(text, ", to tick ", second);
            }
            "pool" => {
                add_word(text, "pool ", first);
                add_word(text, ": buffers of ", second);
                add_word(text, " bytes, free ", third);
            }
            "port" => {
                add_word(text, "port ", first);
                add_word(text, ": room for ", third);
            }
            "node" => {
                add_word(text, "in port ", first);
                add_word(text, " the message ", second);
            }
            "disk0" => add_word(text, "disk 0: requests ", first),
            "disk1" => add_word(text, "disk 1: ", first),
            _ => continue,
        }
        text.put("\n");
    }
}

// Adds a word after a text.
fn add_word(text: &mut Text, before: &str, word: &str) {
    text.put(before);
    text.put(word);
}

// Adds a process, by the word of its number, after a text.
fn add_named(text: &mut Text, before: &str, story: &Story, word: &str) {
    text.put(before);
    story.add_who(text, number_of(Some(word)) as usize);
}
