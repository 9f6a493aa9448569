//! Many machine steps at once: steps that print nothing come before the events of any run.

ghost use Rattle.std.specs.Prelude.{◌++◌, ℕ, List, replicate};
ghost use Rattle.xinu_base.specs.declared.events.End.{End};
ghost use Rattle.xinu_base.specs.declared.events.Event.{Event};
ghost use Rattle.xinu_base.specs.declared.lines.TranscriptLine.{TranscriptLine};
ghost use Rattle.xinu_model.specs.Machine.{Xinu};
ghost use Rattle.xinu_model.specs.Runs.{RunsTo};
ghost use Rattle.xinu_model.specs.Steps.{ArePlain, stepped_times};

/// Plain steps come before the events of any run from the state after them: it prints no more, and leaves and ends as it did.
pub fn plain_steps_come_first()
    ensures { (n : ℕ) (s : Xinu) (events : List Event) (lines : List TranscriptLine) (new : Xinu) (end : End) → ArePlain n s →
        RunsTo (stepped_times n s) events lines new end → RunsTo s (replicate n Event.Step ++ events) lines new end }
{}
