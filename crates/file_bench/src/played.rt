//! Scripts of calls, and how they went.

use crate::play::{Counts, Readings, Trial};
use crate::script::{Script, Sizes};
use crate::trouble::Trouble;
use std::alloc::Global;
use std::io;

/// Plays the scripts that the numbers say, seven each, and prints how each went.
///
/// # Errors
///
/// Those of standard output.
pub(crate) fn play<R: Print>(rt: &R, alloc: Global, numbers: &[u32]) -> io::Result<()> {
    for script in numbers.chunks(7) {
        match played(alloc, script) {
            Ok(counts) => println!(rt; "{} calls: as the plain list", counts.calls)?,
            Err(trouble) => tell(rt, trouble)?,
        }
    }
    Ok(())
}

/// Plays the script that the numbers say, and prints how many calls there were, how many of them had a negative reply, and how many
/// completions.
///
/// # Errors
///
/// Those of standard output.
pub(crate) fn count<R: Print>(rt: &R, alloc: Global, numbers: &[u32]) -> io::Result<()> {
    match played(alloc, numbers) {
        Ok(counts) => println!(rt;
            "{} calls, {} refused, {} completions",
            counts.calls, counts.refused, counts.completions
        ),
        Err(trouble) => tell(rt, trouble),
    }
}

// Plays a script, and reads the files back at its end.
fn played(alloc: Global, numbers: &[u32]) -> Result<Counts, Trouble> {
    match *numbers {
        [blocks, calls, seed, names, longest, completions, every] => {
            let readings = Readings {
                completions,
                calls: every,
            };
            let mut trial = Trial::on_empty_disk(alloc, blocks, readings)?;
            trial.play(
                alloc,
                &mut Script::new(seed, Sizes { names, longest }),
                calls,
            )
        }
        _ => Err(Trouble::Stuck),
    }
}

// Prints in what the engine and the plain list differ.
fn tell<R: Print>(rt: &R, trouble: Trouble) -> io::Result<()> {
    match trouble {
        Trouble::NoMemory => println!(rt; "out of memory"),
        Trouble::Stuck => println!(rt; "the call can't go on"),
        Trouble::Reply(came, wanted) => println!(rt; "the reply is {came} and not {wanted}"),
        Trouble::Bytes => println!(rt; "other bytes are read"),
        Trouble::Devices => println!(rt; "other files are open"),
        Trouble::Files(n) => println!(rt; "the files differ after {n} completions"),
    }
}
