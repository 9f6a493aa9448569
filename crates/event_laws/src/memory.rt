//! What an event does to the heap: who comes to have memory gets only what was free, and the heap keeps its extent.

ghost use Rattle.std.specs.Prelude.{◌≡◌, ℕ, length, List};
ghost use Rattle.xinu_base.specs.declared.events.Event.{Event};
ghost use Rattle.xinu_base.specs.declared.lines.TranscriptLine.{TranscriptLine};
ghost use Rattle.event_laws.specs.Ownership.Grants.{GivesOnlyFree};
ghost use Rattle.xinu_model.specs.Calls.{called};
ghost use Rattle.xinu_model.specs.Events.{Happens};
ghost use Rattle.xinu_model.specs.Machine.{Xinu};
ghost use Rattle.xinu_model.specs.Sound.State.{IsSound};

/// An address that more pools and stacks have after a call or an event than before it was free before it, whatever processes gave back
/// earlier.
pub fn holders_get_only_free_memory()
    ensures calls { (number : ℕ) (args : List ℕ) (s : Xinu) → IsSound s → GivesOnlyFree s (called number args s).call.state }
    ensures events { (old : Xinu) (e : Event) (lines : List TranscriptLine) (new : Xinu) → IsSound old → Happens old e lines new →
        GivesOnlyFree old new }
{}

/// No event moves the heap or changes its size.
pub fn heap_keeps_its_extent()
    ensures { (old : Xinu) (e : Event) (lines : List TranscriptLine) (new : Xinu) → IsSound old → Happens old e lines new →
        (new.parts.heap.low ≡ old.parts.heap.low) × (length new.parts.heap.cells ≡ length old.parts.heap.cells) }
{}
