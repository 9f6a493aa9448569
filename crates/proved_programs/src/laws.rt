//! What is proved of the programs.

ghost use Rattle.std.specs.Prelude.{◌≡◌, ◌≢◌, ◌≤◌, ◌+◌, ◌*◌, ◌%◌, ◌^◌, ◌∷◌, [], ℕ, List, false, true};
ghost use Rattle.part_laws.specs.GivenDisks.{AreSoundDisks};
ghost use Rattle.program_logic.specs.Images.{image_of};
ghost use Rattle.program_logic.specs.Kept.{IsKept};
ghost use Rattle.program_logic.specs.SystemCheck.{system_checks};
ghost use Rattle.proved_programs.specs.Adding.{adding_first, adding_images, adding_lock, adding_others};
ghost use Rattle.proved_programs.specs.Counting.{counting_images, counting_lock, counting_programs, first_words, second_words};
ghost use Rattle.proved_programs.specs.Others.{count_at, down_lock, down_loop, joining_loop, late_loop, rash_loop, twice_loop, twos_loop, two_of};
ghost use Rattle.proved_programs.specs.Sleeping.{sleeping_images, sleeping_lock};
ghost use Rattle.proved_programs.specs.Sources.{IsSourceOf, first_text, second_text};
ghost use Rattle.proved_programs.specs.Statement.{IsCounted, IsToldRight, rounds};
ghost use Rattle.proved_programs.specs.Tens.{tens_first, tens_images, tens_lock, tens_overwriting, tens_second};
ghost use Rattle.proved_programs.specs.Unguarded.{after_events, keeping, losing, two_unguarded};
ghost use Rattle.scheduling_laws.specs.Moments.{LeadTo, Moment};
ghost use Rattle.xinu_base.specs.declared.events.End.{End};
ghost use Rattle.xinu_base.specs.declared.events.End.TheVariants.{Schedule};
ghost use Rattle.xinu_base.specs.declared.events.Event.{Event};
ghost use Rattle.xinu_base.specs.declared.lines.TranscriptLine.{TranscriptLine};
ghost use Rattle.xinu_base.specs.declared.processes.State.TheVariants.{Free};
ghost use Rattle.xinu_model.specs.Boot.{Boots, Disks, boot_on};
ghost use Rattle.xinu_model.specs.Machine.{Xinu};
ghost use Rattle.xinu_model.specs.Memory.{number_at};
ghost use Rattle.xinu_model.specs.Runs.{IsTranscript, RunsTo};
ghost use Rattle.xinu_model.specs.Tables.{state_at};

/// The images that count are what the assembler makes of two texts.
pub fn the_texts_make_the_images()
    ensures first { IsSourceOf first_text (image_of 0 first_words) }
    ensures second { IsSourceOf second_text (image_of 64 second_words) }
{}

/// The programs boot, on any disks: what is said of their runs is said of some.
pub fn the_programs_boot()
    ensures counting { (disks : Disks) → (start : Xinu) × (boot_on disks counting_images ≡ Boots start) }
    ensures adding { (disks : Disks) → (start : Xinu) × (boot_on disks adding_images ≡ Boots start) }
    ensures sleeping { (disks : Disks) → (start : Xinu) × (boot_on disks sleeping_images ≡ Boots start) }
    ensures tens { (disks : Disks) → (start : Xinu) × (boot_on disks tens_images ≡ Boots start) }
{}

/// At each moment of each run of the two that count, on any disks, the word is the number of rounds that were completed, and one more if a process
/// has stored its sum and is still to call `signal`. So it is the number of lines `call P signal 4` of a transcript, and that one.
pub fn no_addition_is_lost()
    ensures moment { (disks : Disks) (start now : Xinu) (ms : List Moment) → AreSoundDisks disks → boot_on disks counting_images ≡ Boots start →
        LeadTo start ms now → IsCounted ms now }
    ensures transcript { (disks : Disks) (events : List Event) (last : Xinu) (all : List TranscriptLine) → AreSoundDisks disks →
        IsTranscript disks counting_images events last all → IsToldRight all last }
{}

/// Both of them are alive at each moment, and a run takes all its events: it ends with its schedule.
pub fn both_go_on()
    ensures alive { (disks : Disks) (start now : Xinu) (ms : List Moment) (p : ℕ) → AreSoundDisks disks → boot_on disks counting_images ≡ Boots start →
        LeadTo start ms now → 1 ≤ p → p ≤ 2 → state_at now.tables p ≢ Free }
    ensures end { (disks : Disks) (start last : Xinu) (events : List Event) (lines : List TranscriptLine) (end : End) → AreSoundDisks disks →
        boot_on disks counting_images ≡ Boots start → RunsTo start events lines last end → end ≡ Schedule }
{}

/// The three that add 3, the two that sleep with the token, and the two that add 1 ten times each keep their rules at each moment, and
/// stay alive. Whenever nobody has the token, the word of the three is three times the number of rounds that were completed, and the word
/// of either two is that number.
pub fn others_keep_their_rules()
    ensures adding { (disks : Disks) (start now : Xinu) (ms : List Moment) → AreSoundDisks disks → boot_on disks adding_images ≡ Boots start →
        LeadTo start ms now → IsKept adding_lock 3 (rounds ms) now }
    ensures sleeping { (disks : Disks) (start now : Xinu) (ms : List Moment) → AreSoundDisks disks → boot_on disks sleeping_images ≡ Boots start →
        LeadTo start ms now → IsKept sleeping_lock 2 (rounds ms) now }
    ensures tens { (disks : Disks) (start now : Xinu) (ms : List Moment) → AreSoundDisks disks → boot_on disks tens_images ≡ Boots start →
        LeadTo start ms now → IsKept tens_lock 2 (rounds ms) now }
{}

/// The check accepts the outlines of programs that count, add 3, sleep with the token, join two ways, count down, and add in a subroutine with a
/// word of their own. It refuses those of a program that adds 2 by the rule of 1, one that doesn't `wait`, one that calls `signal` twice, one that
/// takes what it knew of the word for known once it gave the token back, one that stores where programs lie, and those of programs that keep to
/// another lock.
pub fn outlines_are_checked()
    ensures counting { system_checks counting_lock counting_programs ≡ true }
    ensures adding { system_checks adding_lock (adding_first ∷ adding_others) ≡ true }
    ensures joining { system_checks (count_at 156) (two_of 72 joining_loop) ≡ true }
    ensures down { system_checks down_lock (two_of 72 down_loop) ≡ true }
    ensures tens { system_checks tens_lock (tens_first ∷ tens_second ∷ []) ≡ true }
    ensures overwriting { system_checks tens_lock (tens_overwriting ∷ tens_second ∷ []) ≡ false }
    ensures twos { system_checks (count_at 108) (two_of 64 twos_loop) ≡ false }
    ensures rash { system_checks (count_at 108) (two_of 64 rash_loop) ≡ false }
    ensures twice { system_checks (count_at 156) (two_of 72 twice_loop) ≡ false }
    ensures late { system_checks (count_at 108) (two_of 64 late_loop) ≡ false }
    ensures other_lock { system_checks (record counting_lock { sem = 5 }) counting_programs ≡ false }
{}

/// Without the semaphore one of two additions is lost on one schedule, and none on another.
pub fn unguarded_additions_are_lost()
    ensures lost { number_at (after_events losing two_unguarded).memory 64 4 ≡ 1 }
    ensures kept { number_at (after_events keeping two_unguarded).memory 64 4 ≡ 2 }
{}
