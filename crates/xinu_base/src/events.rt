//! What happens to the machine, and how a run ends.

ghost use Rattle.std.specs.Prelude.{◌≡◌, ◌≤◌, length};
ghost use Rattle.xinu_base.specs.Names.{end_name};

/// One event of a schedule.
#[derive(Clone, Copy, PartialEq, Eq)]
pub enum Event {
    /// One step of the current process.
    Step,
    /// One tick of the clock.
    Tick,
    /// A character was received on the console.
    Key(u8),
    /// The console can transmit a character.
    Tx,
    /// A request of the raw disk was completed.
    Disk0,
    /// A request of the file system's disk was completed.
    Disk1,
    /// A request of the raw disk failed.
    Fail0,
    /// A request of the file system's disk failed.
    Fail1,
    /// The tables are printed.
    Dump,
}

/// How a run ended.
#[derive(Clone, Copy, PartialEq, Eq)]
pub enum End {
    /// All events of the schedule were taken.
    Schedule,
    /// No process but the null process is left.
    Done,
    /// The kernel panicked.
    Panic,
}

impl End {
    /// The word that stands for the end in a transcript.
    pub fn name(self) -> &'static str
        ensures word { result.now ≡ end_name self }
        ensures short { length result.now ≤ 8 }
    {
        match self {
            End::Schedule => "schedule",
            End::Done => "done",
            End::Panic => "panic",
        }
    }
}
