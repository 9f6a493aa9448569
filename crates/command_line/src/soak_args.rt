//! The argument of the command `soak`.

ghost use Rattle.std.specs.Prelude.{◌≡◌, IfOk, IsErrOf, Some, None, map, if◌then◌else◌};
ghost use Rattle.std.specs.Str.Parse.{digits_value};
ghost use Rattle.clap.specs.Walk.{rows_of};
ghost use Rattle.clap.specs.Matches.{found_of};
ghost use Rattle.command_line.specs.Parser.{soak_in};
ghost use Rattle.command_line.specs.SoakArgs as soak;
ghost use Rattle.command_line.specs.declared.refusal.ArgsFault.TheVariants as fault;

use crate::matches::{are_digits, args_of};
use crate::refusal::ArgsFault;
use clap::ArgMatches;
use std::alloc::Global;

/// The number that the argument after `soak` gives.
pub(crate) fn soak_of(alloc: Global, matches: &ArgMatches<'_>) -> Result<u32, ArgsFault>
    ensures seed { IfOk result (λ seed. soak_in (rows_of (found_of matches.now)) ≡ Some seed) }
    ensures no_command { IsErrOf result fault.NoCommand → soak_in (rows_of (found_of matches.now)) ≡ None }
{
    let args = args_of(alloc, matches)?;
    match seed_of(args.as_slice()) {
        Some(seed) => Ok(seed),
        None => Err(ArgsFault::NoCommand),
    }
}

// `soak N`
fn seed_of(args: &[&str]) -> Option<u32>
    ensures seed { result ≡ soak.soak_of (map (λ s. s.now) args.now) }
{
    match args {
        &[digits] => seed(digits),
        _ => None,
    }
}

// The number that 1 to 10 decimal digits give, at most 4,294,967,295.
fn seed(digits: &str) -> Option<u32>
    ensures seed { result ≡ (if soak.is_seed digits.now then Some (digits_value 10 digits.now) else None) }
{
    if digits.len() > 10 || !are_digits(digits.as_bytes()) {
        return None;
    }
    match digits.parse::<u32>() {
        Ok(seed) => Some(seed),
        Err(_) => None,
    }
}
