//! How many completions and how much processor time calls take.

use crate::timing::{Kind, OneFile};
use std::alloc::Global;
use std::io;
use std::time::CpuClock;

/// Two calls that are made so many times and timed, by the name of what they show.
#[derive(Clone, Copy)]
struct Row {
    name: &'static str,
    calls: (Kind, Kind),
    times: u32,
}

/// What is done with the file.
#[derive(Clone, Copy)]
enum Step {
    /// A call that isn't timed.
    Call(Kind),
    /// All bytes of the file are written.
    Fill,
    /// Calls that are timed.
    Time(Row),
}

/// Times calls on a file, as the numbers say, and prints a line for each kind of call.
///
/// # Errors
///
/// Those of the clock and of standard output.
pub(crate) fn time<R: CpuClock + Print>(rt: &R, alloc: Global, numbers: &[u32]) -> io::Result<()> {
    match *numbers {
        [blocks, size] => match OneFile::new(alloc, blocks) {
            Some(mut file) => time_steps(rt, &mut file, size),
            None => println!(rt; "file_bench: no disk has so many blocks"),
        },
        _ => println!(rt; "file_bench: two numbers are wanted"),
    }
}

// Takes all steps with a file, up to a call that is refused.
fn time_steps<R: CpuClock + Print>(rt: &R, file: &mut OneFile, size: u32) -> io::Result<()> {
    for step in &steps(size) {
        if !take(rt, file, size, *step)? {
            return println!(rt; "file_bench: a call is refused");
        }
    }
    Ok(())
}

// The calls at the end of a file of so many bytes, which is made first; then those that change its size, or are on the whole of it.
fn steps(size: u32) -> [Step; 14] {
    let last = Kind::Seek(size.saturating_sub(1));
    let row = Kind::Seek(size.saturating_sub(8192));
    [
        Step::Call(Kind::Open),
        Step::Fill,
        timed("getc", last, Kind::Getc, 100),
        timed("read 8192", row, Kind::Read(8192), 100),
        timed("putc in place", last, Kind::Putc, 100),
        timed("write 8192 in place", row, Kind::Write(8192), 100),
        Step::Call(Kind::Close),
        timed("open", Kind::Open, Kind::Close, 100),
        Step::Call(Kind::Open),
        timed(
            "write 8192 at the end",
            Kind::Seek(size),
            Kind::Write(8192),
            1,
        ),
        timed("truncate", Kind::Seek(0), Kind::Truncate, 1),
        Step::Fill,
        timed("delete", Kind::Close, Kind::Delete, 1),
        timed("open a new file", Kind::Open, Kind::Close, 1),
    ]
}

// Two calls that are timed.
fn timed(name: &'static str, first: Kind, second: Kind, times: u32) -> Step {
    Step::Time(Row {
        name,
        calls: (first, second),
        times,
    })
}

// Takes a step with a file of so many bytes. Answers whether no call is refused.
fn take<R: CpuClock + Print>(
    rt: &R,
    file: &mut OneFile,
    size: u32,
    step: Step,
) -> io::Result<bool> {
    match step {
        Step::Call(kind) => Ok(file.call(kind)),
        Step::Fill => Ok(file.fill(size)),
        Step::Time(row) => repeat(rt, file, row),
    }
}

// Makes two calls so many times, and prints a line. Answers whether none is refused.
fn repeat<R: CpuClock + Print>(rt: &R, file: &mut OneFile, row: Row) -> io::Result<bool> {
    let before = file.completions;
    let start = rt.process_cpu_time()?;
    for _ in 0..row.times {
        if !file.call(row.calls.0) || !file.call(row.calls.1) {
            return Ok(false);
        }
    }
    let end = rt.process_cpu_time()?;
    let completions = file.completions.wrapping_sub(before);
    let nanos = end.as_nanos().saturating_sub(start.as_nanos());
    println!(rt; "{}\t{}\t{completions}\t{nanos}", row.name, row.times)?;
    Ok(true)
}
