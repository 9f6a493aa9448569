//! The program's arguments as `clap` reads them.

ghost use Rattle.std.specs.Prelude.{◌≡◌, [], IfOk, IsErrOf, None, true, false, map};
ghost use Rattle.std.specs.String.{string_bytes};
ghost use Rattle.clap.specs.Simple.{with_rule, with_subcommand};
ghost use Rattle.clap.specs.Words.{app_of, fault_of, is_simple, is_simple_and_free, new_app, rule_of, subcommand_of, subcommand_rows_of};
ghost use Rattle.clap.specs.declared.builder.command.Command.TheViews.{out-Command as fields_of};
ghost use Rattle.command_line.specs.DiskArgs as disk;
ghost use Rattle.command_line.specs.Commands.{simple_command_of};
ghost use Rattle.command_line.specs.Names.{command_row, option_row};
ghost use Rattle.command_line.specs.Parser.{action_command_in, arg_rule, command_app, disk_app, option_rule, program_app, simple_app, simple_command_in, with_commands};
ghost use Rattle.command_line.specs.declared.refusal.ArgsFault.TheVariants as fault;

use crate::refusal::ArgsFault;
use crate::tables::{CommandRow, OptionRow, actions, commands};
use clap::error::ErrorKind;
use clap::{Arg, ArgAction, ArgMatches, Command};
use std::alloc::{AllocError, Global};

// A program or a command, as far as `clap` was told of it.
struct Parser<'a> {
    command: Command<'a>,
}

impl Drop for Parser<'_> {
    fn drop(self) {
        let Parser { command: _command } = self;
    }
}

/// The matches of arguments whose first names a command without actions, `run`, `asm`, `soak` or `check`, or why there are none.
pub(crate) fn command_matches<'a>(
    alloc: Global,
    args: &'a [String],
) -> Result<ArgMatches<'a>, ArgsFault>
    ensures command { IfOk result (λ m. simple_command_of (map string_bytes args.entry.now) ≡ simple_command_in (subcommand_rows_of m)) }
    ensures no_command { IsErrOf result fault.NoCommand → simple_command_of (map string_bytes args.entry.now) ≡ None }
{
    command_parser(alloc)?.matches_of(args)
}

/// The matches of arguments whose first names an action of `disk`, or why there are none.
pub(crate) fn action_matches<'a>(
    alloc: Global,
    args: &'a [String],
) -> Result<ArgMatches<'a>, ArgsFault>
    ensures action { IfOk result (λ m. disk.action_of (map string_bytes args.entry.now) ≡ action_command_in (subcommand_rows_of m)) }
    ensures no_command { IsErrOf result fault.NoCommand → disk.action_of (map string_bytes args.entry.now) ≡ None }
{
    disk_parser(alloc)?.matches_of(args)
}

// The program with its commands. The parser knows of names and of values, and of no count.
fn command_parser<'a>(alloc: Global) -> Result<Parser<'a>, AllocError>
    ensures told { IfOk result (λ p. app_of p.command ≡ simple_app) }
{
    let rows = commands();
    program_of(alloc, "xinu_run", &rows)
}

// The command `disk` with its actions.
fn disk_parser<'a>(alloc: Global) -> Result<Parser<'a>, AllocError>
    ensures told { IfOk result (λ p. app_of p.command ≡ disk_app) }
{
    let rows = actions();
    program_of(alloc, "disk", &rows)
}

// A program with the commands of a table.
fn program_of<'a>(
    alloc: Global,
    name: &'a str,
    rows: &[CommandRow<'a>],
) -> Result<Parser<'a>, AllocError>
    ensures told { IfOk result (λ p. app_of p.command ≡ with_commands (program_app name.entry.now) (map command_row rows.entry.now)) }
{
    let mut parser = Parser::program(alloc, name);
    for row in rows {
        let command = command(alloc, *row)?;
        parser = parser.with_command(command)?;
    }
    Ok(parser)
}

// A command with its options and positional arguments.
fn command<'a>(alloc: Global, row: CommandRow<'a>) -> Result<Parser<'a>, AllocError>
    ensures told { IfOk result (λ p. app_of p.command ≡ command_app (command_row row.entry)) }
    ensures local { IfOk result (λ p. (fields_of p.command).has_globals ≡ false) }
{
    let mut parser = Parser::command(alloc, row.name);
    for option in row.options {
        parser = parser.with_argument(option_argument(alloc, *option))?;
    }
    parser.with_argument(arguments(alloc))
}

impl<'a> Parser<'a> {
    // A program: its first argument is a command's name, and it has no flag of its own, not even for help.
    fn program(alloc: Global, name: &'a str) -> Parser<'a>
        ensures told { app_of result.command ≡ program_app name.now }
        ensures local { (fields_of result.command).has_globals ≡ false }
    {
        Parser {
            command: Command::new(alloc, name)
                .no_binary_name(true)
                .disable_help_flag(true)
                .disable_help_subcommand(true)
                .disable_version_flag(true)
                .subcommand_required(true),
        }
    }

    // A command of which only the name was told.
    fn command(alloc: Global, name: &'a str) -> Parser<'a>
        ensures told { app_of result.command ≡ new_app name.now }
        ensures local { (fields_of result.command).has_globals ≡ false }
    {
        Parser {
            command: Command::new(alloc, name),
        }
    }

    // The program with one more command.
    fn with_command(self, added: Parser<'a>) -> Result<Parser<'a>, AllocError>
        requires local { (fields_of self.command).has_globals ≡ false }
        requires added_local { (fields_of added.command).has_globals ≡ false }
        ensures told { IfOk result (λ p. app_of p.command ≡ with_subcommand (app_of self.entry.command) (app_of added.entry.command).top) }
        ensures local { IfOk result (λ p. (fields_of p.command).has_globals ≡ false) }
    {
        let Parser { command } = self;
        let Parser { command: added } = added;
        match command.subcommand(added) {
            Ok(command) => Ok(Parser { command }),
            Err(error) => Err(error),
        }
    }

    // The command with one more argument.
    fn with_argument(self, arg: Arg<'a>) -> Result<Parser<'a>, AllocError>
        requires local { (fields_of self.command).has_globals ≡ false }
        requires arg_local { arg.global ≡ false }
        ensures told { IfOk result (λ p. app_of p.command ≡ with_rule (app_of self.entry.command) (rule_of arg.entry)) }
        ensures local { IfOk result (λ p. (fields_of p.command).has_globals ≡ false) }
    {
        let Parser { command } = self;
        match command.arg(arg) {
            Ok(command) => Ok(Parser { command }),
            Err(error) => Err(error),
        }
    }

    // The matches of arguments, or why there are none.
    fn matches_of(self, args: &'a [String]) -> Result<ArgMatches<'a>, ArgsFault>
        requires simple { is_simple (app_of self.command) ≡ true }
        requires free { is_simple_and_free (app_of self.command) ≡ true }
        ensures faultless { IfOk result (λ m. fault_of (app_of self.entry.command) (map string_bytes args.entry.now) ≡ []) }
        ensures rows { IfOk result (λ m. subcommand_rows_of m ≡ subcommand_of (app_of self.entry.command) (map string_bytes args.entry.now)) }
        ensures faulty { IsErrOf result fault.NoCommand → fault_of (app_of self.entry.command) (map string_bytes args.entry.now) ≡ [] → ⊥ }
    {
        let Parser { command } = self;
        match command.try_get_matches_from(args) {
            Ok(matches) => Ok(matches),
            Err(error) => match error.kind() {
                ErrorKind::OutOfMemory => Err(ArgsFault::NoMemory),
                _ => Err(ArgsFault::NoCommand),
            },
        }
    }
}

// The option `--name VALUE` or `--name`.
fn option_argument<'a>(alloc: Global, option: OptionRow<'a>) -> Arg<'a>
    ensures rule { rule_of result ≡ option_rule (option_row option.entry) }
    ensures local { result.global ≡ false }
{
    let action = if option.takes_value {
        ArgAction::Set
    } else {
        ArgAction::SetTrue
    };
    Arg::new(alloc, option.name)
        .long(option.name)
        .action(action)
}

// The positional arguments, one by one.
fn arguments<'a>(alloc: Global) -> Arg<'a>
    ensures rule { rule_of result ≡ arg_rule }
    ensures local { result.global ≡ false }
{
    Arg::new(alloc, "arg").action(ArgAction::Append)
}
