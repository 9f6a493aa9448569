//! The processes that are left at the end of a run.

ghost use Rattle.std.specs.Prelude.{◌≡◌, ◌<◌, IfOk};
ghost use Rattle.told_left.specs.Left.{AreTold, IsTold, left_head};

use process_lives::Lives;
use replayed_run::Replay;
use run_story::Story;
use std::alloc::{AllocError, Global};

/// The text that tells of each process that is left but the null process what it does, since when, and where it is.
///
/// # Errors
/// Out of memory.
pub(crate) fn left_text(
    alloc: Global,
    replay: &Replay,
    lives: &Lives,
    story: &Story,
) -> Result<Vec<u8>, AllocError>
    ensures told { IfOk result (λ text. AreTold replay.now.files replay.now.state lives.now 63 text.items) }
{
    told_left::left_text(alloc, replay.files(), replay.state(), lives, story)
}

/// The head of that text: none if nobody is left.
pub(crate) fn head_of(replay: &Replay) -> &'static str
    ensures head { result.now ≡ left_head replay.now.state.tables }
{
    told_left::head_of(replay.state())
}

/// What is told of a process: nothing if its number is free.
///
/// # Errors
/// Out of memory.
pub(crate) fn process_text(
    alloc: Global,
    replay: &Replay,
    lives: &Lives,
    story: &Story,
    process: usize,
) -> Result<Vec<u8>, AllocError>
    requires below { process < 64 }
    ensures told { IfOk result (λ text. IsTold replay.now.files replay.now.state lives.now process text.items) }
{
    told_left::process_text(alloc, replay.files(), replay.state(), lives, story, process)
}
