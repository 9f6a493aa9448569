//! After how many completions a request of the raw disk has been answered.

ghost use Rattle.std.specs.Prelude.{◌≡◌, ◌⊎◌, ◌+◌, ◌≤◌, ℕ, List, true};
ghost use Rattle.std.specs.List.{list_any};
ghost use Rattle.xinu_base.specs.declared.events.End.TheVariants.{Schedule};
ghost use Rattle.xinu_base.specs.declared.events.Event.{Event};
ghost use Rattle.xinu_base.specs.declared.lines.TranscriptLine.{TranscriptLine};
ghost use Rattle.xinu_model.specs.Events.{Happens};
ghost use Rattle.xinu_model.specs.Machine.{Xinu};
ghost use Rattle.xinu_model.specs.RawDisk.Calls.{disk_of};
ghost use Rattle.xinu_model.specs.Runs.{RunsTo};
ghost use Rattle.xinu_model.specs.Sound.State.{IsSound};
ghost use Rattle.bounded_waits.specs.Completions.{disk_completions, in_all};
ghost use Rattle.bounded_waits.specs.Ends.{ComesToAnswer, EndsDisk, kills};
ghost use Rattle.bounded_waits.specs.Places.{services_left, waits_for_disk};

/// Each completion, good or failed, brings the service of a request of the raw disk nearer, and no event puts it off, until it is served or its
/// caller is killed.
pub fn completions_bring_services_nearer()
    ensures { (p : ℕ) (old : Xinu) (e : Event) (lines : List TranscriptLine) (new : Xinu) → IsSound old →
        waits_for_disk p (disk_of old) ≡ true → Happens old e lines new → EndsDisk p lines new ⊎
        ((waits_for_disk p (disk_of new) ≡ true) × (services_left p (disk_of new) + disk_completions e ≤ services_left p (disk_of old))) }
{}

/// So a run that goes on to the end of its schedule, with a completion for each request up to a process's, comes to a state in which its answer is
/// there; or it tells that the process was killed.
pub fn requests_are_answered()
    ensures { (p : ℕ) (events : List Event) (old : Xinu) (lines : List TranscriptLine) (new : Xinu) → IsSound old →
        waits_for_disk p (disk_of old) ≡ true → RunsTo old events lines new Schedule →
        services_left p (disk_of old) ≤ in_all disk_completions events →
        ComesToAnswer p old events ⊎ (list_any (kills p) lines ≡ true) }
{}
