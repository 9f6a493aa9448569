//! What holds at each moment of an event, and is kept by each row, each continuation, a death, a tick, a received character, a
//! transmission, and the end of an event: the laws that the kernel's code cites.

ghost use Rattle.std.specs.Prelude.{◌≡◌, ◌≢◌, ℕ, false, [], List, Some, slice_index};
ghost use Rattle.xinu_base.specs.Syscalls.{is_call};
ghost use Rattle.xinu_base.specs.declared.lines.TranscriptLine.{TranscriptLine};
ghost use Rattle.xinu_model.specs.Calls.{calls, called, continued};
ghost use Rattle.xinu_model.specs.Clock.{ticked};
ghost use Rattle.xinu_model.specs.Console.Signals.{receiving, sending};
ghost use Rattle.xinu_model.specs.Console.Taking.{console_of};
ghost use Rattle.xinu_model.specs.Console.Transmitting.{Sent, transmitted};
ghost use Rattle.xinu_model.specs.Events.{with_executed};
ghost use Rattle.xinu_model.specs.Isa.Exec.{exec};
ghost use Rattle.xinu_model.specs.Machine.{Xinu, CallResult, current_hart, refused, replies_of, end_of_event};
ghost use Rattle.part_laws.specs.Preserve.{KeepsAll, MayCallAny, ticking};
ghost use Rattle.table_laws.specs.Preserve.{AreAlive};
ghost use Rattle.xinu_model.specs.Process.Death.{exit};
ghost use Rattle.xinu_model.specs.Rows.{CallRow, found_in};
ghost use Rattle.xinu_model.specs.Sound.Tables.{IsInside};
ghost use Rattle.xinu_model.specs.Sound.State.{IsSound};
ghost use Rattle.xinu_model.specs.Tables.{process_at};

/// The call of a number does what the row of this number says, and a number that has no call is refused.
pub fn calls_are_rows()
    ensures row { (number : ℕ) (args : List ℕ) (s : Xinu) (r : CallRow) → found_in calls number ≡ Some r →
        called number args s ≡ r.effect (slice_index args) s }
    ensures other { (number : ℕ) (args : List ℕ) (s : Xinu) → is_call number ≡ false → called number args s ≡ refused s }
{}

/// In a sound state, and after an instruction, any process but the null process may call; what a call keeps holds inside an event, and its
/// replies go to processes that are alive.
pub fn processes_may_call()
    ensures sound { (s : Xinu) → IsSound s → s.tables.current ≢ 0 → MayCallAny s }
    ensures executed { (s : Xinu) → MayCallAny s → MayCallAny (with_executed (exec (current_hart s) s.memory) s) }
    ensures inside { (result : CallResult) → KeepsAll result → IsInside result.call.state.tables }
    ensures replies { (result : CallResult) → KeepsAll result → AreAlive result.call.state.tables (replies_of result) }
{}

/// Each call keeps what holds of tables, pools and ports: each row, whatever its arguments, and so the call of any number.
pub fn calls_keep_all()
    ensures rows { (number : ℕ) (r : CallRow) → found_in calls number ≡ Some r → (args : ℕ → ℕ) (s : Xinu) → MayCallAny s →
        KeepsAll (r.effect args s) }
    ensures numbers { (number : ℕ) (args : List ℕ) (s : Xinu) → MayCallAny s → KeepsAll (called number args s) }
{}

/// What is left of a call that waited keeps it too.
pub fn continuations_keep_all()
    ensures { (s : Xinu) → MayCallAny s → KeepsAll (continued (process_at s.tables s.tables.current).rest s) }
{}

/// So does the death of the caller, by `exit` or by a trap.
pub fn deaths_keep_all()
    ensures { (s : Xinu) → MayCallAny s → KeepsAll (exit s) }
{}

/// So does a tick, whose end is that of any event.
pub fn ticks_keep_all()
    ensures keeps { (s : Xinu) → IsSound s → KeepsAll (ticking s) }
    ensures ends { (s : Xinu) → end_of_event s.tables.current [] (ticking s) ≡ ticked s }
{}

/// A received character keeps what a call keeps, and so does a byte that is sent.
pub fn interrupts_keep_all()
    ensures received { (b : ℕ) (s : Xinu) → IsSound s → KeepsAll (receiving b s) }
    ensures sent { (sent : Sent) (s : Xinu) → transmitted (console_of s) ≡ Some sent → IsSound s → KeepsAll (sending sent s) }
{}

/// The end of an event leaves a sound state.
pub fn ends_are_sound()
    ensures { (was : ℕ) (first : List TranscriptLine) (result : CallResult) → KeepsAll result →
        IsSound (end_of_event was first result).state }
{}
