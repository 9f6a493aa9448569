//! The laws of outlines, and of programs that check.

ghost use Rattle.std.specs.Prelude.{◌≡◌, ◌≢◌, ◌≤◌, ◌+◌, ℕ, List, Option, length, true};
ghost use Rattle.part_laws.specs.GivenDisks.{AreSoundDisks};
ghost use Rattle.program_logic.specs.Claims.{Program, outlines_of};
ghost use Rattle.program_logic.specs.Kept.{AlwaysKeeps, HasStarted, IsInside, IsKept, programs_tell, stored_by, times_given_back, told};
ghost use Rattle.program_logic.specs.Obeying.{IsSystem};
ghost use Rattle.program_logic.specs.Outlines.{System};
ghost use Rattle.program_logic.specs.Running.{Runs};
ghost use Rattle.program_logic.specs.SystemCheck.{are_there, system_checks};
ghost use Rattle.program_logic.specs.Terms.{value};
ghost use Rattle.program_logic.specs.declared.outline.Lock.{Lock};
ghost use Rattle.scheduling_laws.specs.Moments.{LeadTo, Moment};
ghost use Rattle.xinu_base.specs.declared.events.End.{End};
ghost use Rattle.xinu_base.specs.declared.events.End.TheVariants.{Schedule};
ghost use Rattle.xinu_base.specs.declared.events.Event.{Event};
ghost use Rattle.xinu_base.specs.declared.lines.TranscriptLine.{TranscriptLine};
ghost use Rattle.xinu_base.specs.declared.processes.State.TheVariants.{Free};
ghost use Rattle.xinu_model.specs.Boot.{Disks, Loaded};
ghost use Rattle.xinu_model.specs.Events.{Happens};
ghost use Rattle.xinu_model.specs.Machine.{Xinu};
ghost use Rattle.xinu_model.specs.Memory.{number_at};
ghost use Rattle.xinu_model.specs.Runs.{IsTranscript, RunsTo};
ghost use Rattle.xinu_model.specs.Tables.{state_at};

/// If all that outlines say holds in a state it holds after each event, and over each stretch of a run. Each process of them is alive, and a run
/// takes all its events: it ends with its schedule.
pub fn outlines_hold()
    ensures event { (y : System) (holder : Option ℕ) (n : ℕ) (old : Xinu) (e : Event) (lines : List TranscriptLine) (new : Xinu) → IsSystem y →
        Runs y holder n old → Happens old e lines new → (next : Option ℕ) × ((count : ℕ) × Runs y next count new) }
    ensures stretch { (y : System) (holder : Option ℕ) (n : ℕ) (ms : List Moment) (old now : Xinu) → IsSystem y → Runs y holder n old →
        LeadTo old ms now → (next : Option ℕ) × Runs y next (n + times_given_back y.sem ms) now }
    ensures alive { (y : System) (holder : Option ℕ) (n : ℕ) (s : Xinu) (p : ℕ) → Runs y holder n s → 1 ≤ p → p ≤ y.many →
        state_at s.tables p ≢ Free }
    ensures end { (y : System) (holder : Option ℕ) (n : ℕ) (events : List Event) (old : Xinu) (lines : List TranscriptLine) (new : Xinu) (end : End) →
        IsSystem y → 1 ≤ y.many → Runs y holder n old → RunsTo old events lines new end → end ≡ Schedule }
{}

/// Programs that check are a system of outlines that obey, and keep the rule of their lock. From the start with images that are these programs,
/// on any disks and every schedule: at each moment, and at the end of each transcript, the guarded word is what the rule says of how often the
/// token was given back, if nobody has it, and each process is alive. Two processes are never at places to which a process comes with the token
/// only, and a run takes all its events.
pub fn checked_programs_keep_the_rule()
    ensures obey { (l : Lock) (programs : List Program) → system_checks l programs ≡ true → IsSystem (outlines_of l programs) }
    ensures kept { (l : Lock) (programs : List Program) → system_checks l programs ≡ true → AlwaysKeeps l programs }
    ensures transcripts { (l : Lock) (programs : List Program) (disks : Disks) (images : List Loaded) (events : List Event) (last : Xinu)
        (all : List TranscriptLine) → system_checks l programs ≡ true → are_there l programs images ≡ true → AreSoundDisks disks →
        IsTranscript disks images events last all → IsKept l (length programs) (told l.sem all) last }
    ensures alone { (l : Lock) (programs : List Program) (disks : Disks) (images : List Loaded) (start now : Xinu) (ms : List Moment) (p q : ℕ) →
        system_checks l programs ≡ true → HasStarted l programs disks images start → LeadTo start ms now → 1 ≤ p → p ≤ length programs →
        1 ≤ q → q ≤ length programs → IsInside programs p now → IsInside programs q now → p ≡ q }
    ensures end { (l : Lock) (programs : List Program) (disks : Disks) (images : List Loaded) (start last : Xinu) (events : List Event)
        (lines : List TranscriptLine) (end : End) → system_checks l programs ≡ true → HasStarted l programs disks images start →
        1 ≤ length programs → RunsTo start events lines last end → end ≡ Schedule }
{}

/// If what is known at each place tells whether the word is what the rule says or one time ahead, then it is known at each moment: it is what the
/// rule says of how often the token was given back, and once more if a process has stored the next value and is still to give the token back.
pub fn the_word_is_counted()
    ensures moment { (l : Lock) (programs : List Program) (disks : Disks) (images : List Loaded) (start now : Xinu) (ms : List Moment) →
        system_checks l programs ≡ true → programs_tell l programs ≡ true → HasStarted l programs disks images start → LeadTo start ms now →
        number_at now.memory l.word 4 ≡ value l.rule (times_given_back l.sem ms + stored_by l programs now) }
    ensures transcript { (l : Lock) (programs : List Program) (disks : Disks) (images : List Loaded) (events : List Event) (last : Xinu)
        (all : List TranscriptLine) → system_checks l programs ≡ true → programs_tell l programs ≡ true → are_there l programs images ≡ true →
        AreSoundDisks disks → IsTranscript disks images events last all →
        number_at last.memory l.word 4 ≡ value l.rule (told l.sem all + stored_by l programs last) }
{}
