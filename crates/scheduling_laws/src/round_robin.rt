//! Round robin: when the turn of a ready process comes, and when a quantum ends.

ghost use Rattle.std.specs.Prelude.{◌≡◌, ◌≢◌, ◌+◌, ◌<◌, ◌≤◌, ℕ, ℤ, List, ◌∷◌, false, map};
ghost use Rattle.std.specs.List.{AllByRecursion, list_any};
ghost use Rattle.xinu_base.specs.declared.events.Event.{Event};
ghost use Rattle.xinu_base.specs.declared.events.Event.TheVariants.{Tick};
ghost use Rattle.xinu_base.specs.declared.lines.TranscriptLine.{TranscriptLine};
ghost use Rattle.xinu_model.specs.Events.{Happens};
ghost use Rattle.xinu_model.specs.Machine.{Xinu};
ghost use Rattle.xinu_model.specs.Sound.State.{IsSound};
ghost use Rattle.xinu_model.specs.Tables.{process_at};
ghost use Rattle.scheduling_laws.specs.Moments.{LeadTo, Moment};
ghost use Rattle.scheduling_laws.specs.Policy.{HasQuantum, IsHighest};
ghost use Rattle.scheduling_laws.specs.RoundRobin.{WaitEndsIn, WaitsItsTurn, WaitsThrough, is_placed, tick_of, ticks_of, turn};

/// Among equals scheduling is round robin: no event puts off the turn of a ready process, and a tick brings it nearer, unless somebody gives the
/// process a priority or one of a higher priority runs.
pub fn turns_come_nearer()
    ensures { (p : ℕ) (k : ℤ) (old : Xinu) (e : Event) (lines : List TranscriptLine) (new : Xinu) → IsSound old → IsHighest old.tables →
        HasQuantum old.tables → Happens old e lines new → list_any (is_placed p) lines ≡ false → WaitsItsTurn p k old.tables →
        WaitsItsTurn p k new.tables → turn p new.tables + tick_of e ≤ turn p old.tables }
{}

/// So a ready process waits through fewer ticks than its turn.
pub fn ready_processes_come_to_run()
    ensures { (p : ℕ) (k : ℤ) (events : List Event) (old : Xinu) (new : Xinu) → IsSound old → IsHighest old.tables →
        HasQuantum old.tables → WaitsItsTurn p k old.tables → WaitsThrough p k old events new → ticks_of events < turn p old.tables }
{}

/// In that tick at the latest its turn comes: it runs, unless it was suspended or killed before, somebody gave it a priority, or one of a higher
/// priority runs.
pub fn turns_come()
    ensures { (p : ℕ) (k : ℤ) (ms : List Moment) (old : Xinu) (new : Xinu) → IsSound old → IsHighest old.tables → HasQuantum old.tables →
        WaitsItsTurn p k old.tables → LeadTo old ms new → turn p old.tables ≤ ticks_of (map (λ (m : Moment). m.event) ms) → WaitEndsIn p k ms }
{}

/// Two ticks with nothing between them end one quantum: if the first of the ready list has the priority of the current process, and nobody's sleep
/// is over by then, it runs after them.
pub fn two_ticks_end_a_quantum()
    ensures { (first : ℕ × ℤ) (others : List (ℕ × ℤ)) (old mid new : Xinu) (one two : List TranscriptLine) → IsSound old →
        HasQuantum old.tables → old.tables.ready ≡ first ∷ others →
        first.1 ≡ (process_at old.tables old.tables.current).priority →
        AllByRecursion (λ (e : ℕ × ℕ). old.tables.ticks + 2 < e.1) old.tables.sleepers → Happens old Tick one mid → Happens mid Tick two new →
        (new.tables.current ≡ first.0) × (first.0 ≢ old.tables.current) }
{}
