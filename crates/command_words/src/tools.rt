//! The commands that say in words what is wrong with their arguments, each with the table of its options.

ghost use Rattle.std.specs.Prelude.{◌≡◌, map};
ghost use Rattle.command_words.specs.ToolNames.{value_row};
ghost use Rattle.command_words.specs.Tools as spec;

use crate::value_kinds::Kind;

/// A command that says in words what is wrong with its arguments.
#[derive(Clone, Copy, PartialEq, Eq)]
pub enum Tool {
    /// A run is told.
    Explain,
    /// A run is drawn.
    Timeline,
    /// A run is tried with quantum ends at other places.
    Races,
    /// The data races of a run are told.
    Judge,
    /// A run is debugged.
    Gdb,
}

/// When an option is to be given.
#[derive(Clone, Copy)]
pub enum Need {
    /// Always.
    Needed,
    /// Or not.
    Optional,
    /// Only with another one.
    With(&'static str),
    /// Only without another one.
    Without(&'static str),
    /// Only without either of two others.
    WithoutBoth(&'static str, &'static str),
}

/// An option.
#[derive(Clone, Copy)]
pub struct ValueRow {
    /// The name after its two hyphens.
    pub name: &'static str,
    /// What its value has to be, if it takes one.
    pub kind: Kind,
    /// When it is to be given.
    pub need: Need,
}

macro_rules! row {
    ($name:expr, $kind:expr, $need:expr) => {
        ValueRow {
            name: $name,
            kind: $kind,
            need: $need,
        }
    };
}

const SCHEDULE: ValueRow = row!("schedule", Kind::File, Need::Needed);

const DISK0: ValueRow = row!("disk0", Kind::File, Need::Optional);

const DISK1: ValueRow = row!("disk1", Kind::File, Need::Optional);

/// The greatest number of ten decimal digits.
const GREATEST: u64 = 9_999_999_999;
/// The most events of a run.
const MOST_EVENTS: u64 = 1_000_000_000;
/// The most events that are listed.
const MOST_LISTED: u64 = 10_000;

const EXPLAIN: &[ValueRow] = &[
    row!(
        "steps",
        Kind::Span {
            greatest: MOST_EVENTS,
            most: MOST_LISTED
        },
        Need::Without("trace")
    ),
    row!("trace", Kind::File, Need::Without("at")),
    row!(
        "at",
        Kind::Number {
            least: 1,
            most: MOST_EVENTS
        },
        Need::Without("steps")
    ),
    row!("refused", Kind::Flag, Need::WithoutBoth("trace", "at")),
    SCHEDULE,
    DISK0,
    DISK1,
];

const TIMELINE: &[ValueRow] = &[
    row!(
        "from",
        Kind::Number {
            least: 1,
            most: MOST_EVENTS
        },
        Need::Optional
    ),
    row!(
        "events",
        Kind::Number {
            least: 1,
            most: 2000
        },
        Need::Optional
    ),
    row!("title", Kind::Title { most: 90 }, Need::Optional),
    SCHEDULE,
    DISK0,
    DISK1,
];

const RACES: &[ValueRow] = &[
    row!(
        "preemptions",
        Kind::Number {
            least: 0,
            most: GREATEST
        },
        Need::Needed
    ),
    row!(
        "within",
        Kind::Number {
            least: 0,
            most: GREATEST
        },
        Need::Needed
    ),
    row!(
        "from",
        Kind::Number {
            least: 0,
            most: GREATEST
        },
        Need::Optional
    ),
    row!("found", Kind::File, Need::Optional),
    row!(
        "outcome",
        Kind::Number {
            least: 1,
            most: GREATEST
        },
        Need::With("found")
    ),
    SCHEDULE,
    DISK0,
    DISK1,
];

const JUDGE: &[ValueRow] = &[
    row!("atomic", Kind::Title { most: 255 }, Need::Optional),
    row!("pairs", Kind::Flag, Need::Optional),
    SCHEDULE,
    DISK0,
    DISK1,
];

const GDB: &[ValueRow] = &[SCHEDULE, DISK0, DISK1];

impl Tool {
    /// The options of the command.
    pub(crate) fn rows(self) -> &'static [ValueRow]
        ensures rows { map value_row result.now ≡ spec.rows_of self }
    {
        match self {
            Tool::Explain => EXPLAIN,
            Tool::Timeline => TIMELINE,
            Tool::Races => RACES,
            Tool::Judge => JUDGE,
            Tool::Gdb => GDB,
        }
    }
}
