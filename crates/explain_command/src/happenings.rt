//! An event that is taken, with what was seen ahead of it and what it changed.

ghost use Rattle.std.specs.Prelude.{◌≡◌, ◌<◌, false, IfOk, Some};
ghost use Rattle.explain_command.specs.Ends.{EndsAs};
ghost use Rattle.explain_command.specs.Happenings.{IsShown};
ghost use Rattle.machine.specs.RunEnds.{end_of_go};
ghost use Rattle.replayed_run.specs.Progress.{TakesEvent};
ghost use Rattle.replayed_run.specs.Replayed.{HasInputs, is_at_end};

use crate::changes::{Changes, changes_of};
use crate::sights::{Sight, look};
use host_port::HostFault;
use replayed_run::{Replay, Taken};

/// What is shown of an event that was taken.
#[derive(Drop)]
pub(crate) struct Happening {
    /// What was seen ahead of it.
    pub(crate) seen: Sight,
    /// What a step changed.
    pub(crate) changes: Changes,
    /// What it printed, and what it means for the run.
    pub(crate) taken: Taken,
}

/// Takes the event that comes next, and looks ahead of it.
///
/// # Errors
/// As [`Replay::take`] says.
pub(crate) fn happen(replay: &mut Replay) -> Result<Happening, HostFault>
    requires goes_on { is_at_end replay.old ≡ false }
    ensures shown { IfOk result (λ shown. IsShown replay.old replay.new shown) }
    ensures takes { IfOk result (λ shown. TakesEvent replay.old replay.new (Some shown.taken.printed)) }
    ensures further { IfOk result (λ _. replay.old.taken < replay.new.taken) }
    ensures inputs { HasInputs replay.old.disks replay.old.files replay.old.events replay.new }
    ensures ends { IfOk result (λ shown. EndsAs replay.new (end_of_go shown.taken.go)) }
{
    let seen = look(replay);
    let taken = take(replay)?;
    let changes = changes_of(replay, &seen);
    Ok(Happening {
        seen,
        changes,
        taken,
    })
}

// Takes the event that comes next.
fn take(replay: &mut Replay) -> Result<Taken, HostFault>
    requires goes_on { is_at_end replay.old ≡ false }
    ensures takes { IfOk result (λ taken. TakesEvent replay.old replay.new (Some taken.printed)) }
    ensures further { IfOk result (λ _. replay.old.taken < replay.new.taken) }
    ensures inputs { HasInputs replay.old.disks replay.old.files replay.old.events replay.new }
    ensures ends { IfOk result (λ taken. EndsAs replay.new (end_of_go taken.go)) }
{
    replay.runs();
    match replay.take() {
        Ok(Some(taken)) => Ok(taken),
        Ok(None) => unreachable!(),
        Err(fault) => Err(HostFault::from(fault)),
    }
}
