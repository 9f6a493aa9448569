//! The console's plain data (book, chapter 15, `tty.h`).

ghost use Rattle.std.specs.Prelude.{◌≡◌, ◌≤◌, length};
ghost use Rattle.xinu_base.specs.Names.{mode_name};

/// How the console treats the characters that it receives.
#[derive(Clone, Copy, PartialEq, Eq)]
pub enum TtyMode {
    /// Each character can be taken at once; none has a meaning, and none is echoed.
    Raw,
    /// Each character can be taken at once, and is echoed.
    Cbreak,
    /// Characters can be taken a line at a time; until then the line can be edited.
    Cooked,
}

impl TtyMode {
    /// The word that stands for the mode in a transcript.
    pub fn name(self) -> &'static str
        ensures word { result.now ≡ mode_name self }
        ensures short { length result.now ≤ 6 }
    {
        match self {
            TtyMode::Raw => "raw",
            TtyMode::Cbreak => "cbreak",
            TtyMode::Cooked => "cooked",
        }
    }
}

/// What a reader of the console takes.
#[derive(Clone, Copy, PartialEq, Eq)]
pub enum Item {
    /// A byte.
    Char(u8),
    /// The end mark.
    End,
}
