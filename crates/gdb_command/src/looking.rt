//! What is seen of a run that stands still.

ghost use Rattle.std.specs.Prelude.{◌≡◌, IfOk, MatchOption, None, Some};
ghost use Rattle.gdb_answers.specs.Answers as answers;

use gdb_answers::answer;
use gdb_packets::Command;
use replayed_run::Replay;
use std::alloc::{AllocError, Global};
use xinu_base::Pid;

/// The answer to a packet in the state of the run, if this process is looked at. There is none to a packet that moves the run or the
/// session.
///
/// # Errors
/// Out of memory.
pub(crate) fn answered(
    alloc: Global,
    replay: &Replay,
    p: Pid,
    command: Command,
) -> Result<Option<Vec<u8>>, AllocError>
    ensures answered { IfOk result (λ found. MatchOption found (answers.answer replay.now.state p command ≡ None) (λ text. answers.answer replay.now.state p command ≡ Some text.items)) }
{
    answer(alloc, replay.state(), p, command)
}
