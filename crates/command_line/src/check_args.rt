//! The arguments of the command `check`.

ghost use Rattle.std.specs.Prelude.{◌≡◌, IfOk, IsErrOf, Some, None};
ghost use Rattle.clap.specs.Walk.{first_of, rows_of};
ghost use Rattle.clap.specs.Matches.{found_of};
ghost use Rattle.command_line.specs.CheckArgs as check;
ghost use Rattle.command_line.specs.Names.{check_names, disk_names};
ghost use Rattle.command_line.specs.Parser.{check_in};
ghost use Rattle.command_line.specs.declared.refusal.ArgsFault.TheVariants as fault;

use crate::matches::{args_of, option_value};
use crate::refusal::ArgsFault;
use crate::run_args::{DiskFiles, are_run_files};
use clap::ArgMatches;
use std::alloc::Global;

/// The file of a transcript, and the files of the run that it is to be the transcript of.
#[derive(Drop)]
pub struct CheckFiles<'a> {
    /// The name of the schedule's file.
    pub schedule: &'a str,
    /// The name of the transcript's file.
    pub trace: &'a str,
    /// The names of the files that the disks start as. The disks are written to no file.
    pub disks: DiskFiles<'a>,
    /// The names of the images' files, in the order of the arguments.
    pub images: Vec<&'a str>,
}

/// The check that the arguments after `check` give.
pub(crate) fn check_of<'a>(
    alloc: Global,
    matches: &ArgMatches<'a>,
) -> Result<CheckFiles<'a>, ArgsFault>
    ensures files { IfOk result (λ c. check_in (rows_of (found_of matches.entry.now)) ≡ Some (check_names c)) }
    ensures no_command { IsErrOf result fault.NoCommand → check_in (rows_of (found_of matches.entry.now)) ≡ None }
{
    let Some(schedule) = option_value(matches, "schedule") else {
        return Err(ArgsFault::NoCommand);
    };
    let Some(trace) = option_value(matches, "trace") else {
        return Err(ArgsFault::NoCommand);
    };
    let disks = starts_of(matches);
    let images = args_of(alloc, matches)?;
    if !trace.is_empty() && are_run_files(schedule, &disks, images.as_slice()) {
        Ok(CheckFiles {
            schedule,
            trace,
            disks,
            images,
        })
    } else {
        Err(ArgsFault::NoCommand)
    }
}

// The files that the disks start as.
fn starts_of<'a>(matches: &ArgMatches<'a>) -> DiskFiles<'a>
    ensures disks { disk_names result ≡ check.start_files (λ name. first_of name (rows_of (found_of matches.entry.now))) }
{
    DiskFiles {
        disk0: option_value(matches, "disk0"),
        disk1: option_value(matches, "disk1"),
        out0: None,
        out1: None,
    }
}
