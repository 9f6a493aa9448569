//! Footprints: which numbers have a call, and which parts of the state each call may change.

ghost use Rattle.std.specs.Prelude.{◌≡◌, ℕ, true, false, List, Some, is_some};
ghost use Rattle.xinu_base.specs.declared.lines.TranscriptLine.{TranscriptLine};
ghost use Rattle.xinu_base.specs.declared.processes.Rest.{Rest};
ghost use Rattle.xinu_model.specs.Calls.{calls, called, continued};
ghost use Rattle.xinu_model.specs.Clock.{ticked};
ghost use Rattle.table_laws.specs.Frame.{Frame};
ghost use Rattle.xinu_model.specs.Machine.{Xinu, CallResult, replies_of, end_of_event};
ghost use Rattle.table_laws.specs.Preserve.{AreAlive};
ghost use Rattle.xinu_model.specs.Rows.{CallRow, found_in};
ghost use Rattle.xinu_model.specs.Sound.Tables.{IsInside};
ghost use Rattle.xinu_model.specs.Sound.State.{IsSound};
ghost use Rattle.xinu_base.specs.Syscalls.{is_call};
ghost use Rattle.xinu_laws.specs.Touches.{Reach, reach, touched_by, stacks_of, KeepsParts, Touches};

/// A number has a row if and only if it has a call: the rows are the calls that a transcript names.
pub fn rows_are_syscalls()
    ensures { (number : ℕ) → is_some (found_in calls number) ≡ is_call number }
{}

/// Each call touches no more than its footprint.
pub fn calls_stay_within()
    ensures { (number : ℕ) (args : List ℕ) (s : Xinu) (r : CallRow) → IsSound s → found_in calls number ≡ Some r →
        Touches (reach r.touches) s (called number args s).call.state }
{}

/// So does what is left of a call that waited.
pub fn continuations_stay_within()
    ensures { (left : Rest) (s : Xinu) → IsSound s → Touches (reach (touched_by left)) s (continued left s).call.state }
{}

/// A tick and the end of an event touch the tables alone, whatever is left alone of semaphores and calls, and the registers of those who get
/// replies. If these are alive free numbers keep theirs; at a tick they are.
pub fn ends_stay_within()
    ensures tick { (f : Reach) → f.clock ≡ true → (s : Xinu) → IsSound s → Touches f s (ticked s).state }
    ensures end { (f : Reach) (was : ℕ) (first : List TranscriptLine) (result : CallResult) → IsInside result.call.state.tables → Frame f.mine f.asks result.call.state.tables (end_of_event was first result).state.tables
        × (f.parts.stacks ≡ false → stacks_of (end_of_event was first result).state.tables ≡ stacks_of result.call.state.tables)
        × KeepsParts f.parts result.call.state.parts (end_of_event was first result).state.parts }
    ensures replies { (f : Reach) (was : ℕ) (first : List TranscriptLine) (result : CallResult) → IsInside result.call.state.tables →
        AreAlive result.call.state.tables (replies_of result) → Touches f result.call.state (end_of_event was first result).state }
{}
