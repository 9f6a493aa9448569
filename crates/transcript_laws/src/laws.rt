//! When a text is accepted, each law the contract of a function that does nothing.

ghost use Rattle.std.specs.Prelude.{◌≡◌, ◌↔◌, ◌<◌, ℕ, List, length, true};
ghost use Rattle.xinu_base.specs.Constants.{NPROC};
ghost use Rattle.xinu_base.specs.declared.events.Event.{Event};
ghost use Rattle.part_laws.specs.GivenDisks.{AreSoundDisks};
ghost use Rattle.xinu_model.specs.Boot.{Disks, Loaded};
ghost use Rattle.xinu_model.specs.Machine.{Xinu};
ghost use Rattle.xinu_model.specs.Sound.State.{IsSound};
ghost use Rattle.transcript_laws.specs.Choices.{told};
ghost use Rattle.transcript_laws.specs.Reading.{Prints, Tells, accepts};
ghost use Rattle.transcript_laws.specs.Transcripts.{IsText, checks};

/// The choice that a text tells may be chosen, and it has the effect of the choice whose lines begin the text.
pub fn texts_tell_choices()
    ensures { Tells told }
{}

/// From a sound state on, a text is accepted if and only if a run prints it.
pub fn accepted_texts_are_printed()
    ensures { (s : Xinu) (events : List Event) (rest : List ℕ) → IsSound s → accepts told s events rest ≡ true ↔ Prints s events rest }
{}

/// A text is accepted of the machine that starts with these images on these disks if and only if it is the transcript of a run of it. There
/// are fewer than 64 images, and the disks are sound.
pub fn checked_texts_are_transcripts()
    ensures { (disks : Disks) (images : List Loaded) (events : List Event) (bytes : List ℕ) → length images < NPROC →
        AreSoundDisks disks → checks disks images events bytes ≡ true ↔ IsText disks images events bytes }
{}

/// A text has one run: two runs of which it is the transcript print the same lines, leave the same state and end in the same way.
/// There are fewer than 64 images, and the disks are sound.
pub fn transcripts_have_one_run()
    ensures { (disks : Disks) (images : List Loaded) (events : List Event) (bytes : List ℕ) → length images < NPROC → AreSoundDisks disks →
        (t u : IsText disks images events bytes) → (t.run.lines ≡ u.run.lines) × (t.last ≡ u.last) × (t.run.end ≡ u.run.end) }
{}
