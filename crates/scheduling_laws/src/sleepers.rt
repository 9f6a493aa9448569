//! When a sleeper wakes, and when a wait for a message that has a limit is over.

ghost use Rattle.std.specs.Prelude.{◌≡◌, ◌≢◌, ◌⊎◌, ◌+◌, ◌*◌, ◌<◌, ◌≤◌, ℕ, suc, List, None, IsSome, false, max, pos};
ghost use Rattle.xinu_base.specs.declared.events.Event.{Event};
ghost use Rattle.xinu_base.specs.declared.lines.TranscriptLine.{TranscriptLine};
ghost use Rattle.xinu_model.specs.Clock.{sleep, sleepms};
ghost use Rattle.xinu_model.specs.Events.{Happens};
ghost use Rattle.xinu_model.specs.Machine.{Xinu, closed};
ghost use Rattle.xinu_model.specs.Messages.{held, recvtime};
ghost use Rattle.xinu_model.specs.Sound.State.{IsSound};
ghost use Rattle.xinu_model.specs.Sound.Tables.{CanRun, IsInside};
ghost use Rattle.xinu_model.specs.Tables.{Tables, is_free, message_at, state_at};
ghost use Rattle.scheduling_laws.specs.Sleeping.{ReceivesUntil, SleepsUntil};

/// Who calls `sleepms n` at tick t sleeps until tick t + n, and who calls `sleep n` until tick t + 1000 n. Who calls `recvtime n` and holds no
/// message waits for one until tick t + n, or t + 1 if n is 0.
pub fn callers_fall_asleep()
    ensures sleepms { (n : ℕ) (s : Xinu) → IsSound s → s.tables.current ≢ 0 →
        SleepsUntil s.tables.current (s.tables.ticks + suc n) (closed (sleepms (pos (suc n)) s)) }
    ensures sleep { (n : ℕ) (s : Xinu) → IsSound s → s.tables.current ≢ 0 → suc n ≤ 2147483 →
        SleepsUntil s.tables.current (s.tables.ticks + 1000 * suc n) (closed (sleep (pos (suc n)) s)) }
    ensures recvtime { (n : ℕ) (s : Xinu) → IsSound s → s.tables.current ≢ 0 → held s ≡ None →
        ReceivesUntil s.tables.current (s.tables.ticks + max 1 n) (closed (recvtime (pos n) s)) }
{}

/// A sleeper's tick is still to come.
pub fn sleepers_wake_later()
    ensures { (p w : ℕ) (t : Tables) → IsInside t → SleepsUntil p w t → t.ticks < w }
{}

/// Through each event a sleeper sleeps on until its tick, in which it becomes able to run: not before and not later, unless it is killed.
pub fn sleepers_wake_on_time()
    ensures { (p w : ℕ) (old : Xinu) (e : Event) (lines : List TranscriptLine) (new : Xinu) → IsSound old → Happens old e lines new →
        SleepsUntil p w old.tables → is_free (state_at new.tables p) ≡ false →
        ((new.tables.ticks ≡ w) × CanRun (state_at new.tables p)) ⊎ ((new.tables.ticks < w) × SleepsUntil p w new.tables) }
{}

/// Through each event who waits for a message with a limit waits on until its tick, in which it becomes able to run: not later, and before only if it
/// got a message, unless it is killed.
pub fn timed_receivers_wake_on_time()
    ensures { (p w : ℕ) (old : Xinu) (e : Event) (lines : List TranscriptLine) (new : Xinu) → IsSound old → Happens old e lines new →
        ReceivesUntil p w old.tables → is_free (state_at new.tables p) ≡ false →
        ((new.tables.ticks ≡ w) × CanRun (state_at new.tables p))
        ⊎ (((new.tables.ticks < w) × ReceivesUntil p w new.tables) ⊎ (CanRun (state_at new.tables p) × IsSome (message_at new.tables p))) }
{}
