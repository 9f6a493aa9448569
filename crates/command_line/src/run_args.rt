//! The arguments of the command `run`.

ghost use Rattle.std.specs.Prelude.{◌≡◌, IfOk, IsErrOf, Some, None, map, option_map};
ghost use Rattle.clap.specs.Walk.{first_of, rows_of};
ghost use Rattle.clap.specs.Matches.{found_of};
ghost use Rattle.command_line.specs.Names.{disk_names, run_names};
ghost use Rattle.command_line.specs.Parser.{run_in};
ghost use Rattle.command_line.specs.RunArgs as run;
ghost use Rattle.command_line.specs.declared.refusal.ArgsFault.TheVariants as fault;

use crate::matches::{are_file_names, args_of, is_given, option_value};
use crate::refusal::ArgsFault;
use clap::ArgMatches;
use std::alloc::Global;

/// The most images of a run.
const MOST_IMAGES: usize = 8;

/// The names of the files of a run's disks, each if it was given.
#[derive(Clone, Copy)]
pub struct DiskFiles<'a> {
    /// What the raw disk starts as.
    pub disk0: Option<&'a str>,
    /// What the disk with files starts as.
    pub disk1: Option<&'a str>,
    /// Where the raw disk is written to at the end.
    pub out0: Option<&'a str>,
    /// Where the disk with files is written to at the end.
    pub out1: Option<&'a str>,
}

/// The files of a run, and what is printed of it.
#[derive(Drop)]
pub struct RunFiles<'a> {
    /// The name of the schedule's file.
    pub schedule: &'a str,
    /// The names of the disks' files.
    pub disks: DiskFiles<'a>,
    /// The names of the images' files, in the order of the arguments.
    pub images: Vec<&'a str>,
    /// Whether the output is plain: the bytes of the console alone.
    pub plain: bool,
}

/// The run that the arguments after `run` give.
pub(crate) fn run_of<'a>(alloc: Global, matches: &ArgMatches<'a>) -> Result<RunFiles<'a>, ArgsFault>
    ensures files { IfOk result (λ r. run_in (rows_of (found_of matches.entry.now)) ≡ Some (run_names r)) }
    ensures no_command { IsErrOf result fault.NoCommand → run_in (rows_of (found_of matches.entry.now)) ≡ None }
{
    let Some(schedule) = option_value(matches, "schedule") else {
        return Err(ArgsFault::NoCommand);
    };
    let disks = disks_of(matches);
    let images = args_of(alloc, matches)?;
    if are_run_files(schedule, &disks, images.as_slice()) {
        let plain = is_given(matches, "plain");
        Ok(RunFiles {
            schedule,
            disks,
            images,
            plain,
        })
    } else {
        Err(ArgsFault::NoCommand)
    }
}

/// Whether these can be the names of a run's files: of one to eight images, and none is empty.
pub(crate) fn are_run_files(schedule: &str, disks: &DiskFiles<'_>, images: &[&str]) -> bool
    ensures files { result ≡ run.are_run_files schedule.now (disk_names disks.entry.now) (map (λ s. s.now) images.now) }
{
    let has_images = !images.is_empty() && images.len() <= MOST_IMAGES;
    let has_names = !schedule.is_empty() && may_be_disks(disks);
    has_names && are_file_names(images) && has_images
}

// The files of the disks.
fn disks_of<'a>(matches: &ArgMatches<'a>) -> DiskFiles<'a>
    ensures disks { disk_names result ≡ run.disk_files (λ name. first_of name (rows_of (found_of matches.entry.now))) }
{
    DiskFiles {
        disk0: option_value(matches, "disk0"),
        disk1: option_value(matches, "disk1"),
        out0: option_value(matches, "out0"),
        out1: option_value(matches, "out1"),
    }
}

// Whether each file of the disks that is named has a name.
fn may_be_disks(disks: &DiskFiles<'_>) -> bool
    ensures disks { result ≡ run.may_be_disks (disk_names disks.entry.now) }
{
    may_be_named(disks.disk0)
        && may_be_named(disks.disk1)
        && may_be_named(disks.out0)
        && may_be_named(disks.out1)
}

// Whether a file has a name, if it is named.
fn may_be_named(name: Option<&str>) -> bool
    ensures named { result ≡ run.may_be_named (option_map (λ s. s.now) name.entry) }
{
    match name {
        Some(name) => !name.is_empty(),
        None => true,
    }
}
