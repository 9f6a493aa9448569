//! The arguments of the command `disk`, whose first names an action.

ghost use Rattle.std.specs.Prelude.{◌≡◌, IfOk, IsErrOf, Some, None, map, option_map, if◌then◌else◌};
ghost use Rattle.std.specs.Str.Parse.{digits_value};
ghost use Rattle.clap.specs.Walk.{rows_of};
ghost use Rattle.clap.specs.Matches.{found_of};
ghost use Rattle.command_line.specs.DiskArgs as disk;
ghost use Rattle.command_line.specs.Names.{action_names};
ghost use Rattle.command_line.specs.Parser.{action_in};
ghost use Rattle.command_line.specs.declared.refusal.ArgsFault.TheVariants as fault;

use crate::matches::{are_digits, args_of, option_value};
use crate::refusal::ArgsFault;
use clap::ArgMatches;
use lfs_layout::is_file_name;
use std::alloc::Global;

/// What to do with a disk. `image`, `source` and `out` are names of files of the host; `name` is that of a file on the disk, 1 to 27
/// non-zero bytes.
#[derive(Clone, Copy)]
pub enum DiskAction<'a> {
    /// Make a disk without files, of 14 to 65,542 blocks.
    Mkfs {
        blocks: u32,
        out: &'a str,
    },
    /// List the files of a disk.
    Ls {
        image: &'a str,
    },
    /// Copy a file of a disk to the host.
    Get {
        image: &'a str,
        name: &'a str,
        out: &'a str,
    },
    /// Set a file of a disk to the bytes of a source.
    Put {
        image: &'a str,
        name: &'a str,
        source: &'a str,
        out: &'a str,
    },
    /// Check a disk.
    Check {
        image: &'a str,
    },
    /// Repair a disk.
    Repair {
        image: &'a str,
        out: &'a str,
    },
}

/// The action of a name, with the arguments after it.
pub(crate) fn action_of<'a>(
    alloc: Global,
    name: &str,
    matches: &ArgMatches<'a>,
) -> Result<DiskAction<'a>, ArgsFault>
    ensures action { IfOk result (λ a. action_in name.now (rows_of (found_of matches.entry.now)) ≡ Some (action_names a)) }
    ensures no_command { IsErrOf result fault.NoCommand → action_in name.now (rows_of (found_of matches.entry.now)) ≡ None }
{
    let args = args_of(alloc, matches)?;
    match action_named(name, option_value(matches, "out"), args.as_slice()) {
        Some(action) => Ok(action),
        None => Err(ArgsFault::NoCommand),
    }
}

// The action of a name, with the value of `--out` and the positional arguments.
fn action_named<'a>(name: &str, out: Option<&'a str>, args: &[&'a str]) -> Option<DiskAction<'a>>
    ensures action { option_map action_names result ≡ disk.action_named name.now (option_map (λ s. s.now) out.entry) (map (λ s. s.now) args.now) }
{
    match name {
        "mkfs" => mkfs_of(out, args),
        "ls" => ls_of(args),
        "get" => get_of(out, args),
        "put" => put_of(out, args),
        "check" => check_of(args),
        "repair" => repair_of(out, args),
        _ => None,
    }
}

// `mkfs BLOCKS --out FILE`
fn mkfs_of<'a>(out: Option<&'a str>, args: &[&'a str]) -> Option<DiskAction<'a>>
    ensures action { option_map action_names result ≡ disk.mkfs_of (option_map (λ s. s.now) out.entry) (map (λ s. s.now) args.now) }
{
    let out = out?;
    let &[blocks] = args else {
        return None;
    };
    let blocks = block_count(blocks)?;
    if out.is_empty() {
        None
    } else {
        Some(DiskAction::Mkfs { blocks, out })
    }
}

// `ls IMAGE`
fn ls_of<'a>(args: &[&'a str]) -> Option<DiskAction<'a>>
    ensures action { option_map action_names result ≡ disk.ls_of (map (λ s. s.now) args.now) }
{
    match args {
        &[image] if !image.is_empty() => Some(DiskAction::Ls { image }),
        _ => None,
    }
}

// `get IMAGE NAME --out FILE`
fn get_of<'a>(out: Option<&'a str>, args: &[&'a str]) -> Option<DiskAction<'a>>
    ensures action { option_map action_names result ≡ disk.get_of (option_map (λ s. s.now) out.entry) (map (λ s. s.now) args.now) }
{
    let out = out?;
    match args {
        &[image, name] if !image.is_empty() & is_file_name(name.as_bytes()) & !out.is_empty() => {
            Some(DiskAction::Get { image, name, out })
        }
        _ => None,
    }
}

// `put IMAGE NAME SOURCE --out FILE`
fn put_of<'a>(out: Option<&'a str>, args: &[&'a str]) -> Option<DiskAction<'a>>
    ensures action { option_map action_names result ≡ disk.put_of (option_map (λ s. s.now) out.entry) (map (λ s. s.now) args.now) }
{
    let out = out?;
    match args {
        &[image, name, source]
            if !image.is_empty()
                & is_file_name(name.as_bytes())
                & !source.is_empty()
                & !out.is_empty() => {
            Some(DiskAction::Put {
                image,
                name,
                source,
                out,
            })
        }
        _ => None,
    }
}

// `check IMAGE`
fn check_of<'a>(args: &[&'a str]) -> Option<DiskAction<'a>>
    ensures action { option_map action_names result ≡ disk.check_of (map (λ s. s.now) args.now) }
{
    match args {
        &[image] if !image.is_empty() => Some(DiskAction::Check { image }),
        _ => None,
    }
}

// `repair IMAGE --out FILE`
fn repair_of<'a>(out: Option<&'a str>, args: &[&'a str]) -> Option<DiskAction<'a>>
    ensures action { option_map action_names result ≡ disk.repair_of (option_map (λ s. s.now) out.entry) (map (λ s. s.now) args.now) }
{
    let out = out?;
    match args {
        &[image] if !image.is_empty() & !out.is_empty() => Some(DiskAction::Repair { image, out }),
        _ => None,
    }
}

// The number of blocks that 1 to 5 decimal digits give, from 14 to 65,542.
fn block_count(digits: &str) -> Option<u32>
    ensures count { result ≡ (if disk.is_block_count digits.now then Some (digits_value 10 digits.now) else None) }
{
    if digits.len() > 5 || !are_digits(digits.as_bytes()) {
        return None;
    }
    match digits.parse::<u32>() {
        Ok(count) => {
            if count >= 14 && count <= 65542 {
                Some(count)
            } else {
                None
            }
        }
        Err(_) => None,
    }
}
