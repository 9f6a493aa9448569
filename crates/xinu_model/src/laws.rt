//! The laws on outcomes: they agree, and there is one. Each is the contract of a function that does nothing.

ghost use Rattle.std.specs.Prelude.{List};
ghost use Rattle.xinu_base.specs.declared.events.End.{End};
ghost use Rattle.xinu_base.specs.declared.events.Event.{Event};
ghost use Rattle.xinu_base.specs.declared.lines.TranscriptLine.{TranscriptLine};
ghost use Rattle.xinu_model.specs.Agree.{OutcomesAgree};
ghost use Rattle.xinu_model.specs.Events.{Happens};
ghost use Rattle.xinu_model.specs.Machine.{Xinu};
ghost use Rattle.xinu_model.specs.Runs.{RunsTo};

/// If nothing is chosen in an event, its lines and the state after it are determined by the state before. Outcomes with equal lines have
/// equal states. The lines of no outcome begin with a file call that took effect as the next one.
pub fn outcomes_agree()
    ensures { (old : Xinu) (e : Event) → OutcomesAgree old e }
{}

/// Each event has an outcome from each state.
pub fn events_happen()
    ensures { (old : Xinu) (e : Event) → (lines : List TranscriptLine) × (new : Xinu) × Happens old e lines new }
{}

/// There is a run through each list of events from each state.
pub fn runs_happen()
    ensures { (events : List Event) (old : Xinu) → (lines : List TranscriptLine) × (new : Xinu) × (end : End) × RunsTo old events lines new end }
{}
