//! Who runs: a process of the highest priority among those that can, for a tick or two more.

ghost use Rattle.std.specs.Prelude.{◌≡◌, ◌<◌, ◌≤ℤ◌, ℕ, List, length};
ghost use Rattle.xinu_base.specs.Constants.{NPROC};
ghost use Rattle.xinu_base.specs.declared.events.End.{End};
ghost use Rattle.xinu_base.specs.declared.events.Event.{Event};
ghost use Rattle.xinu_base.specs.declared.lines.TranscriptLine.{TranscriptLine};
ghost use Rattle.xinu_base.specs.declared.processes.State.TheVariants.{Ready};
ghost use Rattle.part_laws.specs.GivenDisks.{AreSoundDisks};
ghost use Rattle.xinu_model.specs.Boot.{Boots, Disks, Loaded, boot_on};
ghost use Rattle.xinu_model.specs.Events.{Happens};
ghost use Rattle.xinu_model.specs.Machine.{Xinu};
ghost use Rattle.xinu_model.specs.Process.Scheduling.{resched};
ghost use Rattle.xinu_model.specs.Runs.{IsTranscript, RunsTo};
ghost use Rattle.xinu_model.specs.Sound.State.{IsSound};
ghost use Rattle.xinu_model.specs.Sound.Tables.{IsInside, IsSoundTables};
ghost use Rattle.xinu_model.specs.Tables.{Tables, process_at, state_at};
ghost use Rattle.scheduling_laws.specs.Policy.{HasQuantum, IsHighest};

/// Between two events a process of the highest priority among those that can run is the current one: the machine starts so, and each event, each
/// run and so each transcript leaves it so, whatever is chosen in it.
pub fn the_highest_runs()
    ensures start { (disks : Disks) (images : List Loaded) (start : Xinu) → length images < NPROC → boot_on disks images ≡ Boots start →
        IsHighest start.tables }
    ensures event { (old : Xinu) (e : Event) (lines : List TranscriptLine) (new : Xinu) → IsSound old → IsHighest old.tables →
        Happens old e lines new → IsHighest new.tables }
    ensures run { (events : List Event) (old : Xinu) (lines : List TranscriptLine) (new : Xinu) (end : End) → IsSound old →
        IsHighest old.tables → RunsTo old events lines new end → IsHighest new.tables }
    ensures transcript { (disks : Disks) (images : List Loaded) (events : List Event) (last : Xinu) (all : List TranscriptLine) →
        length images < NPROC → AreSoundDisks disks → IsTranscript disks images events last all → IsHighest last.tables }
{}

/// No ready process then has a priority above that of the current one.
pub fn no_ready_process_is_above()
    ensures { (t : Tables) (p : ℕ) → IsSoundTables t → IsHighest t → state_at t p ≡ Ready →
        (process_at t p).priority ≤ℤ (process_at t t.current).priority }
{}

/// Inside an event a resched brings this about.
pub fn rescheds_run_the_highest()
    ensures { (t : Tables) → IsInside t → IsHighest (resched t) }
{}

/// Between two events the current process has a tick or two left of its quantum.
pub fn the_quantum_is_one_or_two()
    ensures start { (disks : Disks) (images : List Loaded) (start : Xinu) → boot_on disks images ≡ Boots start → HasQuantum start.tables }
    ensures event { (old : Xinu) (e : Event) (lines : List TranscriptLine) (new : Xinu) → IsSound old → HasQuantum old.tables →
        Happens old e lines new → HasQuantum new.tables }
    ensures run { (events : List Event) (old : Xinu) (lines : List TranscriptLine) (new : Xinu) (end : End) → IsSound old →
        HasQuantum old.tables → RunsTo old events lines new end → HasQuantum new.tables }
    ensures transcript { (disks : Disks) (images : List Loaded) (events : List Event) (last : Xinu) (all : List TranscriptLine) →
        length images < NPROC → AreSoundDisks disks → IsTranscript disks images events last all → HasQuantum last.tables }
{}
