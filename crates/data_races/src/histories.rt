//! A run, and its history, which is what a detector sees of it.

ghost use Rattle.std.specs.Prelude.{◌≡◌, ℕ, List, [], Some, None};
ghost use Rattle.happens_before.specs.Histories.{IsHistory, Moment};
ghost use Rattle.xinu_base.specs.declared.events.End.{End};
ghost use Rattle.xinu_base.specs.declared.events.Event.{Event};
ghost use Rattle.xinu_base.specs.declared.lines.TranscriptLine.{TranscriptLine};
ghost use Rattle.xinu_model.specs.Machine.{Xinu};
ghost use Rattle.xinu_model.specs.Runs.{RunsTo};
ghost use Rattle.data_races.specs.Edges.{edges_in};
ghost use Rattle.data_races.specs.Ledger.{HasSameEntries, Ledger, ledger_next};
ghost use Rattle.data_races.specs.Runs.{HasHistory};

/// Each run has a history, and each history is that of a run.
pub fn runs_have_histories()
    ensures history { (start : Xinu) (events : List Event) (lines : List TranscriptLine) (last : Xinu) (end : End) →
        RunsTo start events lines last end → (h : List Moment) × HasHistory start events h last }
    ensures run { (start : Xinu) (events : List Event) (h : List Moment) (last : Xinu) →
        HasHistory start events h last → (end : End) × (lines : List TranscriptLine) × RunsTo start events lines last end }
{}

/// No edge of a history names an event that is still to come.
pub fn histories_are_in_order()
    ensures { (start : Xinu) (events : List Event) (h : List Moment) (last : Xinu) → HasHistory start events h last → IsHistory h }
{}

/// A step that makes no call and leaves the tables and the other parts of the state alone, as a plain instruction does, orders nothing, and
/// nothing is given or taken in it.
pub fn plain_steps_order_nothing()
    ensures edges { (n u : ℕ) (old new : Xinu) (ledger : Ledger) → new.tables ≡ old.tables → new.parts ≡ old.parts →
        edges_in n (Some u) None old new ledger ≡ [] }
    ensures entries { (n u : ℕ) (old new : Xinu) (ledger : Ledger) → new.tables ≡ old.tables → new.parts ≡ old.parts →
        HasSameEntries (ledger_next n (Some u) None old new ledger) ledger }
{}
