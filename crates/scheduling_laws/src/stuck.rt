//! If everybody waits for another, no event changes it, and the tables of the state tell of it.

ghost use Rattle.std.specs.Prelude.{◌≡◌, List, true};
ghost use Rattle.xinu_base.specs.declared.events.End.{End};
ghost use Rattle.xinu_base.specs.declared.events.End.TheVariants.{Schedule};
ghost use Rattle.xinu_base.specs.declared.events.Event.{Event};
ghost use Rattle.xinu_base.specs.declared.lines.TranscriptLine.{TranscriptLine};
ghost use Rattle.xinu_model.specs.Machine.{Xinu};
ghost use Rattle.xinu_model.specs.Runs.{RunsTo};
ghost use Rattle.xinu_model.specs.Sound.State.{IsSound};
ghost use Rattle.xinu_model.specs.Text.{tables_of};
ghost use Rattle.scheduling_laws.specs.Stuck.{IsStuck, IsUnmoved, told_stuck};

/// If somebody lives besides the null process, and all of them are suspended, receive without a limit or wait on a semaphore that isn't a device's, then
/// each run goes on to the end of its schedule, the null process runs, and nothing of any process changes.
pub fn stuck_is_for_ever()
    ensures { (events : List Event) (old : Xinu) (lines : List TranscriptLine) (new : Xinu) (end : End) → IsSound old → IsStuck old.tables →
        RunsTo old events lines new end → (end ≡ Schedule) × (IsUnmoved old new × IsStuck new.tables) }
{}

/// The tables of a state say that it is stuck if and only if it is.
pub fn tables_tell_who_is_stuck()
    ensures told { (s : Xinu) → told_stuck (tables_of s) ≡ true → IsStuck s.tables }
    ensures tell { (s : Xinu) → IsStuck s.tables → told_stuck (tables_of s) ≡ true }
{}
