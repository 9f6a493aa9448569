//! After how many good completions of the files' disk a call on files has taken effect.

ghost use Rattle.std.specs.Prelude.{◌≡◌, ◌⊎◌, ◌+◌, ◌≤◌, ℕ, List, true};
ghost use Rattle.std.specs.List.{list_any};
ghost use Rattle.xinu_base.specs.declared.events.End.TheVariants.{Schedule};
ghost use Rattle.xinu_base.specs.declared.events.Event.{Event};
ghost use Rattle.xinu_base.specs.declared.lines.TranscriptLine.{TranscriptLine};
ghost use Rattle.xinu_model.specs.Events.{Happens};
ghost use Rattle.xinu_model.specs.Files.Sound.{IsFileRequest, IsSoundFiles};
ghost use Rattle.xinu_model.specs.Files.Syscalls.{files_of};
ghost use Rattle.xinu_model.specs.Files.Systems.{FileSystem};
ghost use Rattle.xinu_model.specs.Files.Work.{FileRequest, most_turns};
ghost use Rattle.xinu_model.specs.Machine.{Xinu};
ghost use Rattle.xinu_model.specs.Runs.{RunsTo};
ghost use Rattle.xinu_model.specs.Sound.State.{IsSound};
ghost use Rattle.bounded_waits.specs.Completions.{file_completions, in_all};
ghost use Rattle.bounded_waits.specs.Ends.{ComesToAnswer, EndsFiles, kills, tells_effect};
ghost use Rattle.bounded_waits.specs.Places.{completions_left, most_completions, waits_for_files};

/// No call on files of a disk has more good completions than the bound of the disk, which goes by its number of blocks alone.
pub fn the_bound_holds_of_every_call()
    ensures { (a : FileRequest) (s : FileSystem) → IsSoundFiles s → IsFileRequest a → most_turns a.call s ≤ most_completions s.blocks }
{}

/// Each good completion brings the effect of a call on files nearer, and no event puts it off, until it takes effect or its caller is killed.
pub fn completions_bring_effects_nearer()
    ensures { (p : ℕ) (old : Xinu) (e : Event) (lines : List TranscriptLine) (new : Xinu) → IsSound old →
        waits_for_files p (files_of old) ≡ true → Happens old e lines new → EndsFiles p lines new ⊎
        ((waits_for_files p (files_of new) ≡ true) × (completions_left p (files_of new) + file_completions e ≤ completions_left p (files_of old))) }
{}

/// So a run that goes on to the end of its schedule, with as many good completions as are left for a call, tells that it took effect, and comes to
/// a state in which its answer is there; or it tells that its caller was killed.
pub fn calls_on_files_take_effect()
    ensures told { (p : ℕ) (events : List Event) (old : Xinu) (lines : List TranscriptLine) (new : Xinu) → IsSound old →
        waits_for_files p (files_of old) ≡ true → RunsTo old events lines new Schedule →
        completions_left p (files_of old) ≤ in_all file_completions events →
        (list_any (tells_effect p) lines ≡ true) ⊎ (list_any (kills p) lines ≡ true) }
    ensures answered { (p : ℕ) (events : List Event) (old : Xinu) (lines : List TranscriptLine) (new : Xinu) → IsSound old →
        waits_for_files p (files_of old) ≡ true → RunsTo old events lines new Schedule →
        completions_left p (files_of old) ≤ in_all file_completions events →
        ComesToAnswer p old events ⊎ (list_any (kills p) lines ≡ true) }
{}
