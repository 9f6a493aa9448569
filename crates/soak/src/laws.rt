//! A law of the definitions.

ghost use Rattle.std.specs.Prelude.{ℕ, List};
ghost use Rattle.soak.specs.Soaks.{Takes};
ghost use Rattle.xinu_base.specs.declared.events.Event.{Event};
ghost use Rattle.xinu_base.specs.declared.events.End.{End};
ghost use Rattle.xinu_base.specs.declared.lines.TranscriptLine.{TranscriptLine};
ghost use Rattle.xinu_model.specs.Machine.{Xinu};
ghost use Rattle.xinu_model.specs.Runs.{RunsTo};

/// A run whose events are counted is a run of the abstract machine.
pub fn counted_runs_are_runs()
    ensures { (n : ℕ) (old : Xinu) (events : List Event) (lines : List TranscriptLine) (new : Xinu) (end : End) → Takes n old events lines new end → RunsTo old events lines new end }
{}
