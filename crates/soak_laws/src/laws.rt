//! What is proved of soak tests.

ghost use Rattle.std.specs.Prelude.{◌≡◌, ℕ, false, List};
ghost use Rattle.soak.specs.Soaks.{Soaks, Takes};
ghost use Rattle.soak_laws.specs.Running.{AreRunning};
ghost use Rattle.soak_laws.specs.Schedule.{IsDrawn};
ghost use Rattle.soak_laws.specs.Words.{words_of};
ghost use Rattle.transcript_laws.specs.Transcripts.{transcript};
ghost use Rattle.workload.specs.Programs.{programs};
ghost use Rattle.workload.specs.Schedules.{events};
ghost use Rattle.workload.specs.Summaries.{counts_of, summary};
ghost use Rattle.xinu_base.specs.declared.events.End.{End};
ghost use Rattle.xinu_base.specs.declared.events.End.TheVariants.{Schedule};
ghost use Rattle.xinu_base.specs.declared.events.Event.{Event};
ghost use Rattle.xinu_base.specs.declared.lines.TranscriptLine.{TranscriptLine};
ghost use Rattle.xinu_model.specs.Boot.{Boots, Disks, boot_on};
ghost use Rattle.xinu_model.specs.Events.{Happens, panics_in};
ghost use Rattle.xinu_model.specs.Machine.{Xinu};
ghost use Rattle.xinu_model.specs.Runs.{is_over};
ghost use Rattle.xinu_model.specs.Text.{text};

/// The machine that starts with the programs of a number, on any disks, runs them: the four are alive, each within its program.
pub fn programs_run()
    ensures { (disks : Disks) (seed : ℕ) (start : Xinu) → boot_on disks (programs seed) ≡ Boots start → AreRunning (words_of seed) start }
{}

/// Programs still run after each event that a schedule draws. The kernel doesn't panic in it, and where they run the run isn't over.
pub fn events_keep_programs_running()
    ensures event { (words : ℕ → List ℕ) (old : Xinu) (e : Event) (lines : List TranscriptLine) (new : Xinu) → AreRunning words old → IsDrawn e →
        Happens old e lines new → AreRunning words new }
    ensures calm { (words : ℕ → List ℕ) (s : Xinu) (e : Event) → AreRunning words s → IsDrawn e → panics_in s e ≡ false }
    ensures alive { (words : ℕ → List ℕ) (s : Xinu) → AreRunning words s → is_over s ≡ false }
{}

/// A soak test takes 200,000 events, whatever its number and the disks, and ends with its schedule. Its line says so.
pub fn soak_tests_end_with_their_schedule()
    ensures takes { (disks : Disks) (seed : ℕ) (start last : Xinu) (taken : ℕ) (lines : List TranscriptLine) (end : End) →
        boot_on disks (programs seed) ≡ Boots start → Takes taken start (events seed) lines last end → (taken ≡ 200000) × (end ≡ Schedule) }
    ensures line { (disks : Disks) (seed : ℕ) (start : Xinu) (summary_line : List ℕ) (last : Xinu) → boot_on disks (programs seed) ≡ Boots start →
        (k : Soaks seed start summary_line last) →
        summary_line ≡ summary seed 200000 (counts_of (text (transcript start k.lines last Schedule))) Schedule }
{}
