//! Where texts go wrong, as the contract of a function that does nothing.

ghost use Rattle.std.specs.Prelude.{◌≡◌, ◌<◌, ℕ, List, MatchOption, length};
ghost use Rattle.part_laws.specs.GivenDisks.{AreSoundDisks};
ghost use Rattle.trace_places.specs.Places.{IsMistake, mistake_of};
ghost use Rattle.transcript_laws.specs.Transcripts.{IsText};
ghost use Rattle.xinu_base.specs.Constants.{NPROC};
ghost use Rattle.xinu_base.specs.declared.events.Event.{Event};
ghost use Rattle.xinu_model.specs.Boot.{Boots, Disks, Loaded, boot_on};
ghost use Rattle.xinu_model.specs.Machine.{Xinu};

/// A text in which `mistake_of` finds no place is the transcript of a run. Any other isn't: the lines up to the place begin the transcript
/// of a run, which goes on with the line that is due, or has ended; and no run's transcript begins with more lines of the text.
pub fn mistakes_are_exact()
    ensures { (disks : Disks) (images : List Loaded) (events : List Event) (s : Xinu) (bytes : List ℕ) → length images < NPROC →
        AreSoundDisks disks → boot_on disks images ≡ Boots s → MatchOption (mistake_of s events bytes) (IsText disks images events bytes)
        (λ p. IsMistake disks images events bytes p.left p.due) }
{}
