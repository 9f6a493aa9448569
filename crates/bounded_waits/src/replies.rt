//! What becomes of the answer of either disk, once it is there.

ghost use Rattle.std.specs.Prelude.{◌≡◌, ◌⊎◌, ℕ, ℤ, List, [], ◌∷◌, Some};
ghost use Rattle.xinu_base.specs.declared.events.Event.{Event};
ghost use Rattle.xinu_base.specs.declared.events.Event.TheVariants.{Step};
ghost use Rattle.xinu_base.specs.declared.lines.TranscriptLine.{TranscriptLine};
ghost use Rattle.xinu_base.specs.declared.lines.TranscriptLine.TheVariants.{Return};
ghost use Rattle.xinu_base.specs.declared.processes.Rest.TheVariants.{Disk};
ghost use Rattle.xinu_base.specs.declared.processes.State.TheVariants.{Free};
ghost use Rattle.xinu_model.specs.Events.{Happens};
ghost use Rattle.xinu_model.specs.Machine.{Xinu};
ghost use Rattle.xinu_model.specs.Sound.State.{IsSound};
ghost use Rattle.xinu_model.specs.Tables.{process_at, state_at};

/// The answer of either disk stays until its owner makes a step, or is killed.
pub fn answers_stay()
    ensures { (p : ℕ) (reply : ℤ) (old : Xinu) (e : Event) (lines : List TranscriptLine) (new : Xinu) → IsSound old →
        (process_at old.tables p).rest ≡ Disk (Some reply) → Happens old e lines new →
        ((process_at new.tables p).rest ≡ Disk (Some reply)) ⊎
        ((state_at new.tables p ≡ Free) ⊎ ((e ≡ Step) × (old.tables.current ≡ p))) }
{}

/// Who has the answer of either disk gives it in its next step, which prints that and nothing else.
pub fn answers_are_given()
    ensures { (p : ℕ) (reply : ℤ) (old : Xinu) (lines : List TranscriptLine) (new : Xinu) → IsSound old → old.tables.current ≡ p →
        (process_at old.tables p).rest ≡ Disk (Some reply) → Happens old Step lines new → lines ≡ Return p reply ∷ [] }
{}
