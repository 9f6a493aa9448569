//! What is taken from the matches of a command.

ghost use Rattle.std.specs.Prelude.{◌≡◌, IfOk, map, option_map};
ghost use Rattle.std.specs.Char.{is_ascii_digit};
ghost use Rattle.std.specs.List.{list_all};
ghost use Rattle.clap.specs.Walk.{first_of, rows_of};
ghost use Rattle.clap.specs.Matches.{found_of};
ghost use Rattle.command_line.specs.RunArgs.{is_file_name};
ghost use Rattle.command_line.specs.Parser.{args_in, flag_in};

use clap::ArgMatches;
use std::alloc::{AllocError, Global};

/// The value of an option, if it was given.
pub(crate) fn option_value<'a>(matches: &ArgMatches<'a>, name: &str) -> Option<&'a str>
    ensures value { option_map (λ s. s.now) result ≡ first_of name.now (rows_of (found_of matches.now)) }
{
    matches.get_str(name)
}

/// Whether a flag was given.
pub(crate) fn is_given(matches: &ArgMatches<'_>, name: &str) -> bool
    ensures given { result ≡ flag_in name.now (rows_of (found_of matches.now)) }
{
    match option_value(matches, name) {
        Some(value) => "true" == value,
        None => false,
    }
}

/// The positional arguments.
pub(crate) fn args_of<'a>(
    alloc: Global,
    matches: &ArgMatches<'a>,
) -> Result<Vec<&'a str>, AllocError>
    ensures args { IfOk result (λ v. map (λ s. s.now) v.items ≡ args_in (rows_of (found_of matches.entry.now))) }
{
    match matches.get_strs("arg") {
        Some(args) => Vec::from_slice(alloc, args),
        None => Ok(Vec::new(alloc)),
    }
}

/// Whether each argument can be a file's name.
pub(crate) fn are_file_names(args: &[&str]) -> bool
    ensures names { result ≡ list_all is_file_name (map (λ s. s.now) args.now) }
{
    args.iter().all(|arg| !arg.is_empty())
}

/// Whether all bytes are decimal digits.
pub(crate) fn are_digits(bytes: &[u8]) -> bool
    ensures { result ≡ list_all is_ascii_digit bytes.now }
{
    bytes.iter().all(|b| b.is_ascii_digit())
}
