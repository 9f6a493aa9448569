//! In which order those who wait on a semaphore go on, and equals of them run; what its count is; and that with a count of one it lets in
//! one process at a time.

ghost use Rattle.std.specs.Prelude.{◌≡◌, ◌≢◌, ◌⊎◌, ◌+◌, ◌+ℤ◌, ◌<◌, ◌++◌, ℕ, List, map, false, int_lt, neg_ℤ, pos, take, true};
ghost use Rattle.xinu_base.specs.declared.events.End.{End};
ghost use Rattle.xinu_base.specs.declared.events.Event.{Event};
ghost use Rattle.xinu_base.specs.declared.lines.TranscriptLine.{TranscriptLine};
ghost use Rattle.xinu_base.specs.declared.processes.State.TheVariants.{Free};
ghost use Rattle.xinu_model.specs.Events.{Happens};
ghost use Rattle.xinu_model.specs.Machine.{Xinu, closed};
ghost use Rattle.xinu_model.specs.Process.Calls.{kill};
ghost use Rattle.xinu_model.specs.Semaphores.Calls.{semdelete, semreset, signal, signaln, wait};
ghost use Rattle.xinu_model.specs.Semaphores.Counts.{count_of, is_good, most_tokens};
ghost use Rattle.xinu_model.specs.Runs.{RunsTo};
ghost use Rattle.xinu_model.specs.Sound.State.{IsSound};
ghost use Rattle.xinu_model.specs.Sound.Tables.{CanRun, count_in};
ghost use Rattle.xinu_model.specs.Tables.{process_at, semaphore_at, state_at};
ghost use Rattle.scheduling_laws.specs.Exclusion.{IsUsedInPairs, all_entered, is_inside, nobody};
ghost use Rattle.scheduling_laws.specs.Fairness.{IsAhead, IsReleased, WaitsBefore};
ghost use Rattle.scheduling_laws.specs.Moments.{LeadTo, Moment, printed};
ghost use Rattle.scheduling_laws.specs.Tokens.{is_renewed, killed_waiters, signals, waits};

/// Semaphores are fair. If p waits on a semaphore before q, then after each event it still does, or it waits there no longer, or q was killed;
/// so if q can run, p waits there no longer.
pub fn waiters_go_on_in_order()
    ensures order { (sem p q : ℕ) (old : Xinu) (e : Event) (lines : List TranscriptLine) (new : Xinu) → IsSound old →
        Happens old e lines new → WaitsBefore sem p q old.tables →
        WaitsBefore sem p q new.tables ⊎ (IsReleased sem p new.tables ⊎ (state_at new.tables q ≡ Free)) }
    ensures release { (sem p q : ℕ) (old : Xinu) (e : Event) (lines : List TranscriptLine) (new : Xinu) → IsSound old →
        Happens old e lines new → WaitsBefore sem p q old.tables → CanRun (state_at new.tables q) → IsReleased sem p new.tables }
{}

/// Of two with the same priority that one accepted `signaln`, `semreset` or `semdelete` releases, who came earlier runs after the call, or is in the ready
/// list before the other.
pub fn released_in_order()
    ensures signaln { (sem p q : ℕ) (s : Xinu) → IsSound s → WaitsBefore sem p q s.tables →
        (process_at s.tables p).priority ≡ (process_at s.tables q).priority → (n : ℕ) →
        0 < count_in q (take n (semaphore_at s.tables sem).waiters) → is_good sem s.tables ≡ true →
        int_lt most_tokens (count_of (semaphore_at s.tables sem) +ℤ pos n) ≡ false → IsAhead p q (closed (signaln sem (pos n) s)) }
    ensures semreset { (sem p q : ℕ) (s : Xinu) → IsSound s → WaitsBefore sem p q s.tables →
        (process_at s.tables p).priority ≡ (process_at s.tables q).priority → (n : ℕ) → is_good sem s.tables ≡ true →
        IsAhead p q (closed (semreset sem (pos n) s)) }
    ensures semdelete { (sem p q : ℕ) (s : Xinu) → IsSound s → WaitsBefore sem p q s.tables →
        (process_at s.tables p).priority ≡ (process_at s.tables q).priority → is_good sem s.tables ≡ true →
        IsAhead p q (closed (semdelete sem s)) }
{}

/// An accepted `wait` lowers the count of its semaphore by one, whether its caller waits or not. An accepted `signal` raises it by one, and so does
/// the `kill` of a process that waits on it: tokens are neither lost nor made.
pub fn counts_follow_the_calls()
    ensures wait { (sem : ℕ) (s : Xinu) → IsSound s → s.tables.current ≢ 0 → is_good sem s.tables ≡ true →
        count_of (semaphore_at (closed (wait sem s)) sem) ≡ count_of (semaphore_at s.tables sem) +ℤ neg_ℤ (pos 1) }
    ensures signal { (sem : ℕ) (s : Xinu) → IsSound s → is_good sem s.tables ≡ true →
        int_lt (count_of (semaphore_at s.tables sem)) most_tokens ≡ true →
        count_of (semaphore_at (closed (signal sem s)) sem) ≡ count_of (semaphore_at s.tables sem) +ℤ pos 1 }
    ensures kill { (sem p : ℕ) (s : Xinu) → IsSound s → 0 < count_in p (semaphore_at s.tables sem).waiters →
        count_of (semaphore_at (closed (kill p s)) sem) ≡ count_of (semaphore_at s.tables sem) +ℤ pos 1 }
{}

/// A run is a stretch of moments that print its lines: one for each of its events, in their order, up to its end.
pub fn runs_are_stretches()
    ensures { (events : List Event) (old : Xinu) (lines : List TranscriptLine) (new : Xinu) (end : End) →
        RunsTo old events lines new end →
        (ms : List Moment) × (LeadTo old ms new × (lines ≡ printed ms) × (later : List Event) × (events ≡ map (λ (m : Moment). m.event) ms ++ later)) }
{}

/// Over a stretch in which nobody gives up a process's semaphore or resets it, its count and the `wait`s that were called are what the count was,
/// the signals that were given, and the waiters that were killed.
pub fn counts_add_up()
    ensures { (sem : ℕ) (ms : List Moment) (old : Xinu) (new : Xinu) → IsSound old → is_good sem old.tables ≡ true → LeadTo old ms new →
        is_renewed sem ms ≡ false →
        count_of (semaphore_at new.tables sem) +ℤ pos (waits sem ms)
        ≡ count_of (semaphore_at old.tables sem) +ℤ pos (signals sem ms + killed_waiters sem ms) }
{}

/// Mutual exclusion: over a stretch that begins with a count of one, and in which who calls `signal` is inside, at most one process is inside at
/// each moment: between its completed `wait` and its `signal`.
pub fn at_most_one_is_inside()
    ensures { (sem p q : ℕ) (ms : List Moment) (old : Xinu) (new : Xinu) → IsSound old → is_good sem old.tables ≡ true →
        count_of (semaphore_at old.tables sem) ≡ pos 1 → LeadTo old ms new → IsUsedInPairs sem nobody ms →
        is_inside sem (all_entered sem ms nobody) new.tables p ≡ true → is_inside sem (all_entered sem ms nobody) new.tables q ≡ true →
        p ≡ q }
{}
