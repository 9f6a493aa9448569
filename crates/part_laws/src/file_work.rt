//! Calls on files under way, apart from the processes that make them: what always holds of them, their order, and how long they take.

ghost use Rattle.std.specs.Prelude.{◌≡◌, ◌++◌, ◌+◌, ◌<◌, ◌≤◌, ◌==◌, ℕ, suc, true, false, not, List, [], ◌∷◌, length, map, filter, take, drop, Some, None, IsSome};
ghost use Rattle.xinu_base.specs.declared.lines.FileMoment.TheVariants.{Turn, Finished};
ghost use Rattle.part_laws.specs.FileWork.{callers_told, first_moment, IsSoundStep};
ghost use Rattle.xinu_model.specs.Files.Rest.{is_at_rest, is_busy};
ghost use Rattle.xinu_model.specs.Files.Sound.{IsSoundFiles, IsFileRequest, IsSoundWork};
ghost use Rattle.xinu_model.specs.Files.Systems.{FileSystem};
ghost use Rattle.xinu_model.specs.Files.Work.{FileRequest, FileWork, FileStep, most_turns, calls_completed, least_effects, most_effects, issued, most_at_issue, callers_waiting, calls_given_up};
ghost use Rattle.xinu_model.specs.Memory.{ram_size};

/// The calls under way stay sound, and RAM keeps its size: when there is none; as a call is made, whether it waits or takes effect at once; at a good
/// completion, whichever number of calls it lets take effect; and as a process is killed.
pub fn work_stays_sound()
    ensures starts { (s : FileSystem) → IsSoundFiles s → IsSoundWork (record { system = s; calls = []; turns = 0; bytes = [] }) }
    ensures issued { (choice : ℕ) (a : FileRequest) (memory : List ℕ) (w : FileWork) → choice ≤ most_at_issue w.calls → IsSome a.caller →
        IsFileRequest a → length memory ≡ ram_size → IsSoundWork w → IsSoundStep (issued choice a memory w) }
    ensures completed { (effects : ℕ) (x : FileStep) → least_effects x.work.calls x.work ≤ effects → IsSoundStep x →
        IsSoundStep (calls_completed effects x) }
    ensures given_up { (p : ℕ) (w : FileWork) → IsSoundWork w → IsSoundWork (calls_given_up p w) }
{}

/// Calls take effect in the order in which they were made: one that waits goes after the others, and one that takes effect at once had
/// none before it. A completion that lets some take effect takes the first ones out and leaves the others, and tells of those that it
/// took out, so it tells how many they are. What it tells first is of the call that was the first: that it had a turn, or took effect.
pub fn calls_take_effect_in_order()
    ensures waits { (a : FileRequest) (memory : List ℕ) (w : FileWork) → (issued 0 a memory w).work.calls ≡ w.calls ++ a ∷ [] }
    ensures at_once { (a : FileRequest) (memory : List ℕ) (w : FileWork) → 1 ≤ most_at_issue w.calls →
        (w.calls ≡ []) × ((issued 1 a memory w).work.calls ≡ []) }
    ensures left { (effects : ℕ) (x : FileStep) → (calls_completed effects x).work.calls ≡ drop effects x.work.calls }
    ensures told { (effects : ℕ) (x : FileStep) → callers_told (calls_completed effects x).notes ≡
        callers_told x.notes ++ map (λ (a : FileRequest). a.caller) (take effects x.work.calls) }
    ensures same { (effects others : ℕ) (x : FileStep) → effects ≤ length x.work.calls → others ≤ length x.work.calls →
        (calls_completed effects x).notes ≡ (calls_completed others x).notes → effects ≡ others }
    ensures turn_first { (a : FileRequest) (calls : List FileRequest) (x : FileStep) → x.work.calls ≡ a ∷ calls → x.notes ≡ [] →
        first_moment (calls_completed 0 x).notes ≡ Some Turn }
    ensures finished_first { (a : FileRequest) (calls : List FileRequest) (more : ℕ) (x : FileStep) → x.work.calls ≡ a ∷ calls →
        x.notes ≡ [] → first_moment (calls_completed (suc more) x).notes ≡ Some Finished }
{}

/// A turn changes nothing but the count of turns, and a call has no more turns than its bound allows: the good completion that would be
/// its last must let it take effect. There is always a number of calls that may take effect.
pub fn turns_are_bounded()
    ensures turn { (a : FileRequest) (calls : List FileRequest) (x : FileStep) → x.work.calls ≡ a ∷ calls → calls_completed 0 x ≡
        record x {
          work = record x.work { turns = x.work.turns + 1 };
          notes = x.notes ++
              (record { caller = a.caller; moment = Turn; reply = None }) ∷ [];
        } }
    ensures bound { (a : FileRequest) (calls : List FileRequest) (w : FileWork) → IsSoundWork w → w.calls ≡ a ∷ calls →
        w.turns < most_turns a.call w.system }
    ensures some { (w : FileWork) → least_effects w.calls w ≤ most_effects w }
    ensures last { (a : FileRequest) (calls : List FileRequest) (w : FileWork) → w.calls ≡ a ∷ calls →
        w.turns + 1 ≡ most_turns a.call w.system → least_effects w.calls w ≡ 1 }
{}

/// A killed process waits for no call any longer, and the others wait as they did. Its call that was the first has the effect on the files
/// that it would have had.
pub fn killed_callers_leave_the_first_call()
    ensures callers { (p : ℕ) (w : FileWork) →
        callers_waiting (calls_given_up p w).calls ≡ filter (λ q. not (q == p)) (callers_waiting w.calls) }
    ensures first { (p : ℕ) (x : FileStep) →
        (calls_completed 1 (record x { work = calls_given_up p x.work })).work.system ≡ (calls_completed 1 x).work.system }
{}

/// If no file is open and no call under way, all files are at rest.
pub fn what_isnt_busy_is_at_rest()
    ensures rest { (name : List ℕ) (w : FileWork) → is_busy w ≡ false → is_at_rest name w ≡ true }
{}
