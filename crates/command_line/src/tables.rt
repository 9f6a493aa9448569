//! The commands without actions and the actions of `disk`, each with its options.

ghost use Rattle.std.specs.Prelude.{◌≡◌, map};
ghost use Rattle.command_line.specs.Names.{command_row};
ghost use Rattle.command_line.specs.Commands as spec;
ghost use Rattle.command_line.specs.DiskArgs as disk;

/// An option of a command.
#[derive(Clone, Copy)]
pub(crate) struct OptionRow<'a> {
    /// The name after its two hyphens.
    pub(crate) name: &'a str,
    /// Whether it takes a value.
    pub(crate) takes_value: bool,
}

/// A command or an action.
#[derive(Clone, Copy)]
pub(crate) struct CommandRow<'a> {
    /// The word that asks for it.
    pub(crate) name: &'a str,
    /// The options that it takes.
    pub(crate) options: &'a [OptionRow<'a>],
}

macro_rules! value {
    ($name:expr) => {
        OptionRow {
            name: $name,
            takes_value: true,
        }
    };
}

macro_rules! flag {
    ($name:expr) => {
        OptionRow {
            name: $name,
            takes_value: false,
        }
    };
}

macro_rules! row {
    ($name:expr, $options:expr) => {
        CommandRow {
            name: $name,
            options: $options,
        }
    };
}

const RUN: &[OptionRow<'static>] = &[
    value!("schedule"),
    value!("disk0"),
    value!("disk1"),
    value!("out0"),
    value!("out1"),
    flag!("plain"),
];

const ASM: &[OptionRow<'static>] = &[value!("out"), flag!("elf")];

const CHECK: &[OptionRow<'static>] = &[
    value!("schedule"),
    value!("trace"),
    value!("disk0"),
    value!("disk1"),
];

const OUT: &[OptionRow<'static>] = &[value!("out")];

const NONE: &[OptionRow<'static>] = &[];

/// The commands without actions.
pub(crate) fn commands() -> [CommandRow<'static>; 4]
    ensures rows { map command_row result ≡ spec.commands }
{
    [
        row!("run", RUN),
        row!("asm", ASM),
        row!("soak", NONE),
        row!("check", CHECK),
    ]
}

/// The actions of `disk`.
pub(crate) fn actions() -> [CommandRow<'static>; 6]
    ensures rows { map command_row result ≡ disk.actions }
{
    [
        row!("mkfs", OUT),
        row!("ls", NONE),
        row!("get", OUT),
        row!("put", OUT),
        row!("check", NONE),
        row!("repair", OUT),
    ]
}
