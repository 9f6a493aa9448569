//! A timer wheel: eight timers, each of which goes off after so many ticks.
//!
//! The layer is `queue_table`, the kernel's lists in one array. A list whose keys are differences of delays takes a tick by changing one
//! number, however many timers run. The wheel's contract isn't in those differences but in delays, which the layer has a word for, and its
//! laws make the proofs short (`proofs/Delays.antt`).
#![tactic(auto)]

mod timers;

use std::io;
use timers::Timers;

/// Timers and their ticks: four timers are set, the third of them twice.
const SET: [(usize, i32); 5] = [(0, 3), (1, 1), (2, 3), (3, 2), (2, 9)];

fn main(rt: HostRuntime) -> io::Result<()> {
    match Timers::new(rt.alloc()) {
        Some(mut timers) => run(&rt, &mut timers),
        None => println!(rt; "no memory"),
    }
}

// The timers are set, and four ticks pass.
fn run<R: Print>(rt: &R, timers: &mut Timers) -> io::Result<()> {
    for (timer, ticks) in &SET {
        set(rt, timers, *timer, *ticks)?;
    }
    for now in 1..5 {
        pass(rt, timers, now)?;
    }
    Ok(())
}

// A timer is set.
fn set<R: Print>(rt: &R, timers: &mut Timers, timer: usize, ticks: i32) -> io::Result<()> {
    let set = timers.add(timer, ticks);
    println!(rt; "set {timer}: {set}")
}

// A tick passes.
fn pass<R: Print>(rt: &R, timers: &mut Timers, now: u32) -> io::Result<()> {
    timers.tick();
    println!(rt; "tick {now}")?;
    print_due(rt, timers)
}

// Timers that go off at the same tick do so in the order in which they were set.
fn print_due<R: Print>(rt: &R, timers: &mut Timers) -> io::Result<()> {
    for _ in 0..8 {
        if let Some(timer) = timers.next_due() {
            println!(rt; "due {timer}")?;
        }
    }
    Ok(())
}
