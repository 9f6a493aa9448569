//! The lines that a run printed so far.

ghost use Rattle.std.specs.Prelude.{◌≡◌, ◌<◌, ◌≤◌, ◌++◌, false, IfOk, OnOk};
ghost use Rattle.gdb_command.specs.Monitored.{IsTranscript, StandsAt};
ghost use Rattle.gdb_command.specs.Transcripts.{TakesOne};
ghost use Rattle.replayed_run.specs.Replayed.{IsSameRun, is_at_end};

use host_port::HostFault;
use replayed_run::Replay;
use std::alloc::Global;

/// The lines of the events that were taken, from the first one on: the run goes back to its beginning, and takes them once more.
///
/// # Errors
/// Out of memory; `Failed` if an event printed something else when it was taken before.
#[tactic(auto, using(replayed_run::proofs::SameRuns::again, replayed_run::proofs::SameRuns::still))]
pub(crate) fn lines_so_far(alloc: Global, replay: &mut Replay) -> Result<Vec<u8>, HostFault>
    ensures same { OnOk result (IsSameRun replay.old replay.new) }
    ensures lines { IfOk result (λ lines. IsTranscript replay.new lines.items) }
    ensures stands { OnOk result (StandsAt replay.old.taken replay.new) }
{
    let count = replay.taken();
    replay.seek(0)?;
    replay.runs();
    let mut lines = Vec::new(alloc);
    while replay.taken() < count {
        if replay.is_at_end() {
            return Ok(lines);
        }
        take_one(replay, &mut lines)?;
    }
    Ok(lines)
}

// Takes the next event, and appends its lines.
fn take_one(replay: &mut Replay, lines: &mut Vec<u8>) -> Result<(), HostFault>
    requires goes_on { is_at_end replay.old ≡ false }
    ensures takes { OnOk result (TakesOne replay.old replay.new lines.old.items lines.new.items) }
    ensures same { OnOk result (IsSameRun replay.old replay.new) }
{
    match replay.take() {
        Ok(Some(taken)) => {
            lines.extend_from_slice(taken.bytes())?;
            Ok(())
        }
        Ok(None) => Ok(()),
        Err(fault) => Err(HostFault::from(fault)),
    }
}
