//! Plays scripts of calls on the file engine over a disk, and times its calls.
//!
//! | Arguments | What is done |
//! |---|---|
//! | `script BLOCKS CALLS SEED NAMES LONGEST COMPLETIONS EVERY` | so many drawn calls, beside the plain list of files; the files are read back as often as the two last numbers say. The numbers of more scripts may follow |
//! | `counts` and the same | the same, and how many calls were refused and how many completions there were |
//! | `time BLOCKS SIZE` | calls on the only file of a disk: of each kind its name, how often it was made, its completions and its nanoseconds |
//!
//! A [`FileDisk`](file_disk::FileDisk) is an engine with the bytes of its disk, on which each completion is an honest one (`goes`: the call in
//! hand goes on, and the files stand as before it, or it is done as the abstract machine's call is).
//! [`PlainFiles`](plain_files::PlainFiles) is a list of names and bytes with the ten calls by the book's rules. A [`Trial`](play::Trial)
//! makes each call on both and compares the replies, the bytes that are read, what is open, and the files, which it reads off the disk by
//! `lfs_layout`. A [`Script`](script::Script) draws calls.
#![tactic(auto)]

mod file_disk;
mod names;
mod plain_files;
mod play;
mod played;
mod reading_back;
mod room;
mod script;
mod timing;
mod timings;
mod trouble;

use std::alloc::Global;
use std::time::CpuClock;
use std::{env, io};

/// What is to be done.
#[derive(Clone, Copy)]
enum Command {
    Script,
    Counts,
    Time,
    Unknown,
}

fn main(rt: HostRuntime) -> io::Result<()> {
    let alloc = rt.alloc();
    let mut numbers = Vec::new(alloc);
    let command = read_args(&rt, &mut numbers)?;
    carry_out(&rt, alloc, command, &numbers)
}

// The command that the first argument names, and the numbers of the others.
fn read_args(rt: &HostRuntime, numbers: &mut Vec<u32>) -> io::Result<Command> {
    let mut words = env::args(rt)?;
    let _program = words.next();
    let command = match words.next() {
        Some(word) => command_of(word.as_str()),
        None => Command::Unknown,
    };
    for word in words {
        numbers.push(number(word.as_str()))?;
    }
    Ok(command)
}

// The command of a name.
fn command_of(name: &str) -> Command {
    match name {
        "script" => Command::Script,
        "counts" => Command::Counts,
        "time" => Command::Time,
        _ => Command::Unknown,
    }
}

// Does what a command says, and prints how it went.
fn carry_out<R: CpuClock + Print>(
    rt: &R,
    alloc: Global,
    command: Command,
    numbers: &[u32],
) -> io::Result<()> {
    match command {
        Command::Script => played::play(rt, alloc, numbers),
        Command::Counts => played::count(rt, alloc, numbers),
        Command::Time => timings::time(rt, alloc, numbers),
        Command::Unknown => println!(rt; "file_bench: script, counts or time, and numbers"),
    }
}

// The number that a word says, or 0.
fn number(word: &str) -> u32 {
    match word.parse::<u32>() {
        Ok(n) => n,
        Err(_) => 0,
    }
}
