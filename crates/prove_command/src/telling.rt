//! What the command says of its answer, after the head of its status.

use crate::causes::{Cause, Fault};
use printed_runs::Text;
use program_logic::{Lock, Place, Range, Slot, Term, number_in, once_more};
use std::alloc::Global;

/// Images are proved: what the rounds are, how many processes there are, and where each has the lock.
pub(crate) fn tell_proof(
    alloc: Global,
    lock: &Lock,
    names: &[String],
    table: &[Place],
    ranges: &[Range],
) -> Text {
    let mut text = Text::new(alloc);
    text.numbered(
        "  rounds: how often the lock was given back (signal on ",
        lock.sem as u64,
    );
    text.numbered("); ", names.len() as u64);
    if names.len() == 1 {
        text.put(" process, always alive");
    } else {
        text.put(" processes, each always alive");
    }
    text.put("\n  with the lock:");
    for i in 0..ranges.len() {
        if i < names.len() {
            add_held(&mut text, names[i].as_str(), table, &ranges[i]);
        }
    }
    text.put("\n  without it they never touch the word\n");
    text
}

// Adds the addresses at which a program has the lock alone: the first and the last one of each stretch.
fn add_held(text: &mut Text, name: &str, table: &[Place], range: &Range) {
    text.put(" ");
    text.put(name);
    let mut is_held = false;
    let mut is_never = true;
    let mut address = range.first;
    for k in range.start..range.after {
        let was_held = is_held;
        is_held = k < table.len() && table[k].held.is_some() && table[k].free.is_none();
        if is_held && !was_held {
            text.numbered(" ", address as u64);
            is_never = false;
        }
        if was_held && !is_held {
            text.numbered("-", address.wrapping_sub(4) as u64);
        }
        address = address.wrapping_add(4);
    }
    if is_held {
        text.numbered("-", address.wrapping_sub(4) as u64);
    }
    if is_never {
        text.put(" never");
    }
}

/// The walk stopped: where, why, and what the rule wants there.
pub(crate) fn tell_fault(alloc: Global, lock: &Lock, names: &[String], fault: &Fault) -> Text {
    let mut text = Text::new(alloc);
    text.put(name_of(names, fault.image));
    text.numbered(", address ", fault.address as u64);
    if fault.held {
        text.put(", with the lock: ");
    } else {
        text.put(", without the lock: ");
    }
    add_cause(&mut text, lock, fault.cause);
    text.put("\n");
    if let Cause::Leaves(_) = fault.cause {
        text.put("  the rule wants ");
        add_term(&mut text, once_more(lock.rule));
        text.put(" there: rounds goes up by one at this signal\n");
    }
    text.put(
        "  this doesn't say that the program is wrong; races tries its schedules one by one\n",
    );
    text
}

/// What the walk found doesn't check.
pub(crate) fn tell_unchecked(alloc: Global, lock: &Lock) -> Text {
    let mut text = Text::new(alloc);
    if lock.sem == 4 {
        text.numbered("the word at ", lock.word as u64);
        text.put(
            " has to lie behind the programs, at a multiple of 4, and begin as the rule says of 0 rounds\n",
        );
    } else {
        text.put("the lock has to be 4, the first semaphore that is made\n");
    }
    text
}

// The name of an image.
fn name_of(names: &[String], image: u8) -> &str {
    let at = (image as usize).wrapping_sub(1);
    if at < names.len() {
        names[at].as_str()
    } else {
        "?"
    }
}

// Adds why a walk stopped.
fn add_cause(text: &mut Text, lock: &Lock, cause: Cause) {
    match cause {
        Cause::Reads => text.put("it reads the word without the lock"),
        Cause::Writes => text.put("it writes the word without the lock"),
        Cause::Waits => text.put("it waits for the lock, which it holds: it would wait for itself"),
        Cause::Gives => text.put("it gives back the lock, which it doesn't hold"),
        Cause::Leaves(slot) => add_value(text, "it gives back the lock while the word is ", slot),
        Cause::ReadsAt(slot) => add_place(text, "it reads at ", slot, ", where a load traps"),
        Cause::WritesAt(slot) => {
            add_place(
                text,
                "it writes at ",
                slot,
                ", which doesn't lie behind the word",
            )
        }
        Cause::OtherSemaphore(slot) => {
            text.numbered("it uses a semaphore other than ", lock.sem as u64);
            add_value(text, ": ", slot);
        }
        Cause::Count(slot) => add_value(text, "it makes a semaphore with a count that is ", slot),
        Cause::Makes => text.put("it makes a semaphore while it holds the lock"),
        Cause::Sleeps(slot) => add_value(text, "it sleeps for ticks that are ", slot),
        Cause::Call(slot) => add_value(text, "it makes a call that isn't covered: a7 is ", slot),
        Cause::Instruction => text.put("its instruction isn't covered"),
        Cause::Goes => text.put("it goes to an address that is unknown"),
        Cause::Target(target) => {
            text.numbered("it goes to ", target as u64);
            text.put(", which is no place of the program");
        }
        Cause::NoWord => text.put(
            "the program goes on there, where its words end or the word of the lock lies",
        ),
        Cause::TooLong => text.put("the programs have over 4096 places"),
    }
}

// Adds what is known of an address, and what is said of a known one.
fn add_place(text: &mut Text, before: &str, slot: Slot, after: &str) {
    text.put(before);
    match number_in(slot) {
        Some(address) => {
            text.number(address as u64);
            text.put(after);
        }
        None => add_value(text, "an address that is ", slot),
    }
}

// Adds what is known of a value.
fn add_value(text: &mut Text, before: &str, slot: Slot) {
    text.put(before);
    match slot {
        Slot::Unknown => text.put("unknown"),
        Slot::Known(term) => add_term(text, term),
    }
}

// Adds a term, as `3 * rounds + 1`: numbers from 2^31 on are below zero.
fn add_term(text: &mut Text, term: Term) {
    if term.times == 0 {
        add_signed(text, term.plus);
        return;
    }
    if term.times == 4_294_967_295 && term.plus < 0x8000_0000 && term.plus > 0 {
        text.number(term.plus as u64);
        text.put(" - rounds");
        return;
    }
    if term.times != 1 {
        add_signed(text, term.times);
        text.put(" * ");
    }
    text.put("rounds");
    if term.plus >= 0x8000_0000 {
        text.numbered(" - ", term.plus.wrapping_neg() as u64);
    } else if term.plus > 0 {
        text.numbered(" + ", term.plus as u64);
    }
}

// Adds a number, which may be below zero.
fn add_signed(text: &mut Text, number: u32) {
    if number >= 0x8000_0000 {
        text.numbered("-", number.wrapping_neg() as u64);
    } else {
        text.number(number as u64);
    }
}
