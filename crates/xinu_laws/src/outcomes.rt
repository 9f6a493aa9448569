//! The outcomes of events and runs: each choice that is allowed has one, one text has one, and a run is determined by its start and its
//! schedule if nothing is chosen in it, and by its text.

ghost use Rattle.std.specs.Prelude.{◌≡◌, ◌<◌, ◌++◌, ℕ, List, false, length};
ghost use Rattle.xinu_base.specs.Constants.{NPROC};
ghost use Rattle.xinu_base.specs.declared.events.End.{End};
ghost use Rattle.xinu_base.specs.declared.events.Event.{Event};
ghost use Rattle.xinu_base.specs.declared.lines.TranscriptLine.{TranscriptLine};
ghost use Rattle.part_laws.specs.GivenDisks.{AreSoundDisks};
ghost use Rattle.xinu_laws.specs.Outcomes.{ChoosesNothing};
ghost use Rattle.xinu_model.specs.Agree.{begins_next};
ghost use Rattle.xinu_model.specs.Boot.{Disks, Loaded};
ghost use Rattle.xinu_model.specs.Events.{effect_of, MayChoose, Happens};
ghost use Rattle.xinu_model.specs.Machine.{Xinu};
ghost use Rattle.xinu_model.specs.Runs.{IsTranscript, RunsTo};
ghost use Rattle.xinu_model.specs.Sound.State.{IsSound};

/// One text has one outcome: from a sound state, two whose lines begin one text are equal, unless what follows one of them begins with a
/// file call that took effect as the next one.
pub fn texts_agree()
    ensures { (old : Xinu) (e : Event) (lines others : List TranscriptLine) (new other : Xinu) (more rest : List TranscriptLine) →
        IsSound old → begins_next more ≡ false → begins_next rest ≡ false → Happens old e lines new → Happens old e others other →
        lines ++ more ≡ others ++ rest → (lines ≡ others) × (new ≡ other) }
{}

/// From a sound state each choice that is allowed in an event has an outcome.
pub fn choices_happen()
    ensures { (old : Xinu) (e : Event) (choice : ℕ) → IsSound old → MayChoose old e choice →
        Happens old e (effect_of old e choice).lines (effect_of old e choice).state }
{}

/// A run is determined: two runs from one state through the same events print the same, leave one state and end in one way, if no event
/// lets anything be chosen, or if the state is sound and their lines begin one text. So a whole transcript has one run.
pub fn runs_are_determined()
    ensures forced { (events : List Event) (old : Xinu) (lines others : List TranscriptLine) (new other : Xinu) (end ending : End) →
        ChoosesNothing old events → RunsTo old events lines new end → RunsTo old events others other ending →
        (lines ≡ others) × (new ≡ other) × (end ≡ ending) }
    ensures told { (events : List Event) (old : Xinu) (lines others : List TranscriptLine) (new other : Xinu) (end ending : End)
        (more rest : List TranscriptLine) → IsSound old → begins_next more ≡ false → begins_next rest ≡ false →
        RunsTo old events lines new end → RunsTo old events others other ending → lines ++ more ≡ others ++ rest →
        (lines ≡ others) × (new ≡ other) × (end ≡ ending) }
    ensures transcripts { (disks : Disks) (images : List Loaded) (events : List Event) (last other : Xinu) (all : List TranscriptLine) →
        length images < NPROC → AreSoundDisks disks → IsTranscript disks images events last all →
        IsTranscript disks images events other all → last ≡ other }
{}
